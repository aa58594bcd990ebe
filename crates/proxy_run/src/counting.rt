//! Tells how many captures an archive has.
ghost use Rattle.std.specs.Prelude.{◌≡◌, ◌≢◌};
ghost use Rattle.command.specs.Printing.{printed_as};
ghost use Rattle.proxy_run.specs.Serves.{TellsCount};

use command::{Status, print_count};
use outside::Sink;
use std::alloc::Global;

/// Prints how many captures a server leaves, unless there is no memory. Want of memory, here or before, goes before all else.
pub fn tell_count<O: Sink>(alloc: Global, out: &mut O, count: u32, said: Status) -> Status
    ensures { TellsCount O.Sink count said (printed_as out.old out.new result) }
{
    let printed = print_count(alloc, out, count, said);
    memory_first(said, printed)
}

/// Want of memory goes before what the printing says.
fn memory_first(said: Status, printed: Status) -> Status
    ensures lacking { said ≡ Status.Memory → result ≡ Status.Memory }
    ensures status_is { said ≢ Status.Memory → result ≡ printed }
{
    match said {
        Status::Memory => Status::Memory,
        Status::Done | Status::Words | Status::Archive | Status::Outside => printed,
    }
}
