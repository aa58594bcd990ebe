//! Where the program prints: standard output or standard error.
ghost use Rattle.std.specs.Prelude.{false, []};
ghost use Rattle.real_outside.specs.Sinks.{sink_faults};

use crate::faults::told;
use crate::standard_streams::StandardStreams;
use folder_disk::counted;
use outside::{Failed, Sink};
use std::io;
use std::io::Print;
use system_network::{Causes, write_some};

/// A standard stream to print on, with its count of faults. It doesn't tell what was written.
#[derive(Drop)]
pub enum RealSink<R: StandardStreams> {
    /// Standard output.
    Output {
        /// The system.
        system: R,
        /// How often a call has failed.
        faults: u64,
    },
    /// Standard error.
    Error {
        /// The stream.
        stream: R::Error,
        /// How often a call has failed.
        faults: u64,
    },
}

impl<R: Print + StandardStreams + Causes> Sink for RealSink<R> {
    ghost tells = { false };

    ghost written = { λ _. [] };

    ghost faults = { sink_faults };

    fn write(&mut self, piece: &[u8]) -> Result<usize, Failed> {
        match self {
            RealSink::Output { system, faults } => {
                let written = write_some(&mut io::writer(system), piece);
                told(faults, system, "standard output", "write", written)
            }
            RealSink::Error { stream, faults } => counted(faults, write_some(stream, piece)),
        }
    }
}
