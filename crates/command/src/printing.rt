//! Prints what a run has to say.
ghost use Rattle.std.specs.Prelude.{◌⊎◌};
ghost use Rattle.command.specs.Printing.{LacksMemory, Prints};
ghost use Rattle.command.specs.Texts as spec;

use crate::status::Status;
use crate::texts::captures_line;
use capture::{Failed, Memory};
use exchange::print_all;
use outside::Sink;
use std::alloc::Global;

/// Prints a text. The status is the one that is given, unless the sink failed.
pub fn print_as<O: Sink>(out: &mut O, text: &[u8], status: Status) -> Status
    ensures { Prints O.Sink status text.now out.old out.new result }
{
    match print_all(out, text) {
        Ok(()) => status,
        Err(Failed) => Status::Outside,
    }
}

/// Prints how many captures there are, unless there is no memory.
pub fn print_count<O: Sink>(alloc: Global, out: &mut O, count: u32, status: Status) -> Status
    ensures { Prints O.Sink status (spec.captures_line count) out.old out.new result ⊎ LacksMemory O.Sink out.old out.new result }
{
    match captures_line(alloc, count) {
        Ok(text) => print_as(out, text.as_slice(), status),
        Err(Memory) => Status::Memory,
    }
}
