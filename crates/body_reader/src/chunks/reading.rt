//! Reads on in a chunked body as far as its bytes have come.
ghost use Rattle.std.specs.Prelude.{◌≡◌, ◌+◌, ◌-◌, ◌<◌, ◌≤◌, ◌↔◌, length, take, IsTrue, IfOk};
ghost use Rattle.capture.specs.Body.{IsCutWire};
ghost use Rattle.capture.specs.declared.framing.Framing.TheVariants.{Chunked};
ghost use Rattle.body_reader.specs.steps.ChunkPlaces.{StandsAt, IsGoing, InLineAt, InTrailerAt};

use crate::chunks::end::{step_data, step_line_end, step_line_end_cr};
use crate::chunks::line::step_line;
use crate::chunks::place::{ChunkPlace, ChunkStep};
use crate::chunks::trailer::step_trailer;
use crate::runs::{skip_size_line, skip_trailer_line};
use crate::trailer::TrailerPlace;
use capture::Memory;
use std::alloc::Global;

/// Reads on in a text of which so many bytes were read, up to its end, to the body's end, or to the first byte that
/// shows a fault.
pub fn read_chunks(
    alloc: Global,
    text: &[u8],
    from: usize,
    start: ChunkPlace,
) -> Result<ChunkStep, Memory>
    requires inside { from ≤ length text.now }
    requires stands { StandsAt start (take from text.now) }
    ensures stands { IfOk result (λ end. StandsAt end.place (take end.at text.now)) }
    ensures low { IfOk result (λ end. from ≤ end.at) }
    ensures fits { IfOk result (λ end. end.at ≤ length text.now) }
    ensures whole { IfOk result (λ end. IsGoing end.place → end.at ≡ length text.now) }
    ensures soonest { IfOk result (λ end. (IsGoing end.place → ⊥) → from < end.at → IsCutWire Chunked (take (end.at - 1) text.now)) }
{
    let mut place = start;
    let mut at = from;
    'steps: while at < text.len() {
        if !is_going(place) {
            break;
        }
        let step = step_chunks(alloc, text, at, place)?;
        place = step.place;
        at = step.at;
    }
    Ok(ChunkStep { place, at })
}

/// Whether the body is neither whole nor refused.
pub fn is_going(place: ChunkPlace) -> bool
    ensures { IsTrue result ↔ IsGoing place }
{
    match place {
        ChunkPlace::Line(_) => true,
        ChunkPlace::Data(_) => true,
        ChunkPlace::LineEnd => true,
        ChunkPlace::LineEndCr => true,
        ChunkPlace::Trailer(_, _) => true,
        ChunkPlace::Whole => false,
        ChunkPlace::Refused(_) => false,
    }
}

/// Takes a byte, or a run of data or of a line, from this index on.
fn step_chunks(
    alloc: Global,
    text: &[u8],
    at: usize,
    place: ChunkPlace,
) -> Result<ChunkStep, Memory>
    requires inside { at < length text.now }
    requires stands { StandsAt place (take at text.now) }
    requires going { IsGoing place }
    ensures stands { IfOk result (λ step. StandsAt step.place (take step.at text.now)) }
    ensures further { IfOk result (λ step. at < step.at) }
    ensures fits { IfOk result (λ step. step.at ≤ length text.now) }
    ensures done { IfOk result (λ step. (IsGoing step.place → ⊥) → step.at ≡ at + 1) }
{
    let next = match place {
        ChunkPlace::Line(start) => return Ok(step_in_line(text, at, start)),
        ChunkPlace::Data(left) => return Ok(step_data(text, at, left)),
        ChunkPlace::LineEnd => step_line_end(text, at),
        ChunkPlace::LineEndCr => step_line_end_cr(text, at),
        ChunkPlace::Trailer(start, TrailerPlace::InLine) => {
            return step_in_trailer_line(alloc, text, at, start);
        }
        ChunkPlace::Trailer(start, trailer) => step_trailer(alloc, text, at, start, trailer)?,
        ChunkPlace::Whole => place,
        ChunkPlace::Refused(_) => place,
    };
    Ok(ChunkStep {
        place: next,
        at: at + 1,
    })
}

/// Takes what came of a size line up to its LF, or the one byte that stands there.
fn step_in_line(text: &[u8], at: usize, start: usize) -> ChunkStep
    requires inside { at < length text.now }
    requires stands { InLineAt start (take at text.now) }
    ensures stands { StandsAt result.place (take result.at text.now) }
    ensures further { at < result.at }
    ensures fits { result.at ≤ length text.now }
    ensures done { (IsGoing result.place → ⊥) → result.at ≡ at + 1 }
{
    let end = skip_size_line(text, at, start);
    if at < end {
        return ChunkStep {
            place: ChunkPlace::Line(start),
            at: end,
        };
    }
    ChunkStep {
        place: step_line(text, at, start),
        at: at + 1,
    }
}

/// Takes what came of a line of the trailer section up to its LF, or the one byte that stands there.
fn step_in_trailer_line(
    alloc: Global,
    text: &[u8],
    at: usize,
    start: usize,
) -> Result<ChunkStep, Memory>
    requires inside { at < length text.now }
    requires stands { InTrailerAt start TrailerPlace.InLine (take at text.now) }
    ensures stands { IfOk result (λ step. StandsAt step.place (take step.at text.now)) }
    ensures further { IfOk result (λ step. at < step.at) }
    ensures fits { IfOk result (λ step. step.at ≤ length text.now) }
    ensures done { IfOk result (λ step. (IsGoing step.place → ⊥) → step.at ≡ at + 1) }
{
    let end = skip_trailer_line(text, at, start);
    if at < end {
        return Ok(ChunkStep {
            place: ChunkPlace::Trailer(start, TrailerPlace::InLine),
            at: end,
        });
    }
    Ok(ChunkStep {
        place: step_trailer(alloc, text, at, start, TrailerPlace::InLine)?,
        at: at + 1,
    })
}
