//! Reads and writes of the system's streams.
ghost use Rattle.std.specs.Prelude.{◌≡◌, ◌<◌, ◌≤◌, false, length, take, IfOk};
ghost use Rattle.std.specs.Io.{ReadsAtMost};
ghost use Rattle.std.specs.Io.KnownBytes.{ReadConsumes, Appends};
ghost use Rattle.system_network.specs.Streams.{Reads};

use crate::network::Network;
use std::io;
use std::io::{ErrorKind, Print, Read, Write};
use std::marker::Model;

/// How many milliseconds go by before a stream that is set not to wait is asked again.
const PAUSE: u64 = 10;

/// How often one call may be interrupted by signals before it gives up.
const MOST_TRIES: u32 = 1_000;

/// Input whose end stays. A terminal may give more after its end.
#[derive(Drop)]
pub struct EndingInput<S: Read> {
    stream: S,
    ended: bool,
}

impl<S: Read> Model for EndingInput<S> {
    ghost use Rattle.system_network.specs.Streams.{Input};

    ghost Value = { Input };

    ghost view = { λ input. record { ended = input.ended; left = S.Read.remaining input.stream } };
}

impl<S: Read> EndingInput<S> {
    /// The input of a stream that wasn't read yet.
    pub fn new(stream: S) -> EndingInput<S>
        ensures { result ≡ record { ended = false; left = S.remaining stream } }
    {
        EndingInput {
            stream,
            ended: false,
        }
    }

    /// Reads once, and answers 0 from the end on.
    pub fn read(&mut self, into: &mut [u8]) -> io::Result<usize>
        ensures bound { ReadsAtMost result into.new }
        ensures reads { Reads self.old self.new result into.new }
    {
        if self.ended {
            return Ok(0);
        }
        let n = read_some(&mut self.stream, into)?;
        self.ended = n == 0;
        Ok(n)
    }

    /// Reads once, and again where nothing has come yet on a stream that is set not to wait, as a terminal is that
    /// another program shares.
    pub fn read_when_there<N: Network>(
        &mut self,
        network: &mut N,
        into: &mut [u8],
    ) -> io::Result<usize>
        ensures bound { ReadsAtMost result into.new }
        ensures reads { Reads self.old self.new result into.new }
    {
        for _ in 0..u64::MAX {
            match self.read(into) {
                Ok(n) => return Ok(n),
                Err(error) => {
                    if error.kind() != ErrorKind::WouldBlock {
                        return Err(error);
                    }
                }
            }
            network.pause(PAUSE);
        }
        Err(io::Error::from(ErrorKind::WouldBlock))
    }
}

/// Reads once, and again where a signal interrupted it.
pub fn read_some<S: Read>(from: &mut S, into: &mut [u8]) -> io::Result<usize>
    ensures bound { ReadsAtMost result into.new }
    ensures bytes { ReadConsumes (S.remaining from.old) (S.remaining from.new) result into.new }
{
    for _ in 0..MOST_TRIES {
        match from.read(into) {
            Ok(n) => return Ok(n),
            Err(error) => {
                if error.kind() != ErrorKind::Interrupted {
                    return Err(error);
                }
            }
        }
    }
    Err(io::Error::from(ErrorKind::Interrupted))
}

/// Writes once, and again where a signal interrupted it. A write that takes nothing is a failure.
pub fn write_some<S: Write>(to: &mut S, piece: &[u8]) -> io::Result<usize>
    ensures some { IfOk result (λ n. 0 < n) }
    ensures fits { IfOk result (λ n. n ≤ length piece.now) }
    ensures bytes { IfOk result (λ n. Appends (S.contents to.old) (S.contents to.new) (take n piece.now)) }
{
    for _ in 0..MOST_TRIES {
        match to.write(piece) {
            Ok(0) => return Err(io::Error::from(ErrorKind::WriteZero)),
            Ok(n) => {
                to.flush()?;
                return Ok(n);
            }
            Err(error) => {
                if error.kind() != ErrorKind::Interrupted {
                    return Err(error);
                }
            }
        }
    }
    Err(io::Error::from(ErrorKind::Interrupted))
}

/// Writes once to standard output, and again where it is set not to wait and takes nothing yet.
pub fn print_when_taken<R: Print + Network>(system: &mut R, piece: &[u8]) -> io::Result<usize>
    ensures some { IfOk result (λ n. 0 < n) }
    ensures fits { IfOk result (λ n. n ≤ length piece.now) }
{
    for _ in 0..u64::MAX {
        match write_some(&mut io::writer(system), piece) {
            Ok(n) => return Ok(n),
            Err(error) => {
                if error.kind() != ErrorKind::WouldBlock {
                    return Err(error);
                }
            }
        }
        system.pause(PAUSE);
    }
    Err(io::Error::from(ErrorKind::WouldBlock))
}
