//! Why no more pieces of a source were taken, as it is printed.
ghost use Rattle.std.specs.Prelude.{◌≡◌, ◌∷◌, ◌++◌, ◌⊎◌, [], IfOk, decimal};
ghost use Rattle.httparse.specs.Ascii.{line_feed};
ghost use Rattle.following.specs.StopTexts.{TellsStop};
ghost use Rattle.command.specs.Printing.{LacksMemory, Prints};
ghost use Rattle.command.specs.Texts as text;

use archive_pieces::PieceFault;
use capture::{Memory, put_all, put_number};
use command::{Status, damaged_capture, print_as, put_full};
use outside::Sink;
use replica::{SourceFault, Stop};
use std::alloc::Global;

/// Tells why no more pieces were taken, unless there is no memory.
pub(crate) fn tell_stop<O: Sink>(alloc: Global, out: &mut O, stop: Stop) -> Status
    ensures { TellsStop O.Sink stop out.old out.new result }
{
    match stop {
        Stop::Source(number, fault) => tell_source(alloc, out, number, fault),
        Stop::Piece(number, fault) => tell_piece(alloc, out, number, fault),
    }
}

/// Tells why the source gave no piece of the capture with this number.
fn tell_source<O: Sink>(alloc: Global, out: &mut O, number: u32, fault: SourceFault) -> Status
    ensures { TellsStop O.Sink (Stop.Source number fault) out.old out.new result }
{
    match fault {
        SourceFault::DialFault => print_as(out, b"dial fault\n", Status::Outside),
        SourceFault::OriginFault => print_as(out, b"origin fault\n", Status::Outside),
        SourceFault::Malformed => print_as(out, b"source malformed\n", Status::Outside),
        SourceFault::TooLong => tell_numbered(
            alloc,
            out,
            b"piece too long ",
            u64::from(number),
            Status::Outside,
        ),
        SourceFault::Refused(status) => tell_numbered(
            alloc,
            out,
            b"source refused ",
            u64::from(status),
            Status::Outside,
        ),
        SourceFault::Memory => Status::Memory,
    }
}

/// Tells why what the source gave for the capture with this number wasn't taken.
fn tell_piece<O: Sink>(alloc: Global, out: &mut O, number: u32, fault: PieceFault) -> Status
    ensures { TellsStop O.Sink (Stop.Piece number fault) out.old out.new result }
{
    match fault {
        PieceFault::Full { count, limit } => tell_full(alloc, out, count, limit),
        PieceFault::NotAPiece => tell_numbered(
            alloc,
            out,
            b"piece refused ",
            u64::from(number),
            Status::Outside,
        ),
        PieceFault::DiskFault => print_as(out, b"disk fault\n", Status::Archive),
        PieceFault::Damaged { number: at, .. } => tell_damaged(alloc, out, at),
        PieceFault::Memory => Status::Memory,
    }
}

/// Prints a line of some words and a number, unless there is no memory.
fn tell_numbered<O: Sink>(
    alloc: Global,
    out: &mut O,
    words: &[u8],
    number: u64,
    status: Status,
) -> Status
    ensures { Prints O.Sink status (words.now ++ decimal number ++ (line_feed ∷ [])) out.old out.new result ⊎ LacksMemory O.Sink out.old out.new result }
{
    match numbered(alloc, words, number) {
        Ok(text) => print_as(out, text.as_slice(), status),
        Err(Memory) => Status::Memory,
    }
}

/// A line of some words and a number.
fn numbered(alloc: Global, words: &[u8], number: u64) -> Result<Vec<u8>, Memory>
    ensures { IfOk result (λ text. text.items ≡ words.now ++ decimal number ++ (line_feed ∷ [])) }
{
    let mut text = Vec::new(alloc);
    put_all(&mut text, words)?;
    put_number(&mut text, number)?;
    put_all(&mut text, b"\n")?;
    Ok(text)
}

/// Prints how many captures an archive holds that takes no more, and its limit, unless there is no memory.
fn tell_full<O: Sink>(alloc: Global, out: &mut O, count: u32, limit: u32) -> Status
    ensures { Prints O.Sink Status.Archive (text.full_line count limit) out.old out.new result ⊎ LacksMemory O.Sink out.old out.new result }
{
    let mut text = Vec::new(alloc);
    match put_full(&mut text, count, limit) {
        Ok(()) => print_as(out, text.as_slice(), Status::Archive),
        Err(Memory) => Status::Memory,
    }
}

/// Prints which capture of the archive is damaged, unless there is no memory.
fn tell_damaged<O: Sink>(alloc: Global, out: &mut O, at: u32) -> Status
    ensures { Prints O.Sink Status.Archive (text.damaged_capture at) out.old out.new result ⊎ LacksMemory O.Sink out.old out.new result }
{
    match damaged_capture(alloc, at) {
        Ok(text) => print_as(out, text.as_slice(), Status::Archive),
        Err(Memory) => Status::Memory,
    }
}
