//! Takes bytes of a body from a piece, by each framing.
ghost use Rattle.std.specs.Prelude.{◌≡◌, ◌+◌, ◌-◌, ◌<◌, ◌≤◌, ◌++◌, length, take, IfOk, OnErr};
ghost use Rattle.capture.specs.Body.{IsCutWire};
ghost use Rattle.capture.specs.declared.framing.Framing.TheVariants as framing;
ghost use Rattle.body_reader.specs.BodySoFar.{ReachesBody, IsSoonest};
ghost use Rattle.body_reader.specs.steps.ChunkPlaces.{StandsAt, IsGoing};
ghost use Rattle.body_reader.specs.Readings as spec;

use crate::chunks::place::{ChunkPlace, ChunkStep};
use crate::chunks::reading::read_chunks;
use crate::fed::{BodyFed, BodyProgress};
use capture::{BODY_LIMIT, Memory, MessageFault};

/// Takes bytes of a body of this length.
pub fn feed_length(wire: &mut Vec<u8>, len: u64, piece: &[u8]) -> Result<BodyFed, Memory>
    requires limit { len ≤ BODY_LIMIT }
    requires room { length wire.old.items ≤ len }
    ensures fits { IfOk result (λ fed. fed.used ≤ length piece.now) }
    ensures takes { IfOk result (λ fed. wire.new.items ≡ wire.old.items ++ take fed.used piece.now) }
    ensures room { IfOk result (λ _. length wire.new.items ≤ len) }
    ensures whole { IfOk result (λ fed. fed.progress ≡ BodyProgress.More → fed.used ≡ length piece.now) }
    ensures progress { IfOk result (λ fed. ReachesBody fed.progress (record { framing = framing.Length len; stream = wire.new.items })) }
    ensures soonest { IfOk result (λ fed. IsSoonest (record { framing = framing.Length len; stream = wire.old.items }) piece.now fed) }
    ensures err { OnErr result (wire.new.items ≡ wire.old.items) }
{
    let room = len as usize - wire.len();
    let used = piece.len().min(room);
    let (taken, _) = piece.split_at(used);
    wire.extend_from_slice(taken)?;
    if used == room {
        return Ok(BodyFed {
            used,
            progress: BodyProgress::Whole,
        });
    }
    Ok(BodyFed {
        used,
        progress: BodyProgress::More,
    })
}

/// Takes bytes of a body that goes on to the stream's end.
pub fn feed_to_end(wire: &mut Vec<u8>, piece: &[u8]) -> Result<BodyFed, Memory>
    requires { length wire.old.items ≤ BODY_LIMIT + 1 }
    ensures fits { IfOk result (λ fed. fed.used ≤ length piece.now) }
    ensures takes { IfOk result (λ fed. wire.new.items ≡ wire.old.items ++ take fed.used piece.now) }
    ensures room { IfOk result (λ _. length wire.new.items ≤ BODY_LIMIT + 1) }
    ensures whole { IfOk result (λ fed. fed.progress ≡ BodyProgress.More → fed.used ≡ length piece.now) }
    ensures progress { IfOk result (λ fed. ReachesBody fed.progress (record { framing = framing.ToEnd; stream = wire.new.items })) }
    ensures soonest { IfOk result (λ fed. IsSoonest (record { framing = framing.ToEnd; stream = wire.old.items }) piece.now fed) }
    ensures err { OnErr result (wire.new.items ≡ wire.old.items) }
{
    let room = BODY_LIMIT as usize + 1 - wire.len();
    let used = piece.len().min(room);
    let (taken, _) = piece.split_at(used);
    wire.extend_from_slice(taken)?;
    if used == room {
        return Ok(BodyFed {
            used,
            progress: BodyProgress::Refused(MessageFault::BodyTooLong),
        });
    }
    Ok(BodyFed {
        used,
        progress: BodyProgress::More,
    })
}

/// Takes bytes of a chunked body that stands at this place. The answer says where it stands then, and how many bytes of
/// the piece were taken.
pub fn feed_chunks(wire: &mut Vec<u8>, place: ChunkPlace, piece: &[u8]) -> Result<ChunkStep, Memory>
    requires { StandsAt place wire.old.items }
    ensures fits { IfOk result (λ fed. fed.at ≤ length piece.now) }
    ensures takes { IfOk result (λ fed. wire.new.items ≡ wire.old.items ++ take fed.at piece.now) }
    ensures stands { IfOk result (λ fed. StandsAt fed.place wire.new.items) }
    ensures whole { IfOk result (λ fed. IsGoing fed.place → fed.at ≡ length piece.now) }
    ensures soonest { IfOk result (λ fed. (IsGoing fed.place → ⊥) → 0 < fed.at → IsCutWire framing.Chunked (wire.old.items ++ take (fed.at - 1) piece.now)) }
    ensures err { OnErr result (wire.new.items ≡ wire.old.items) }
{
    let from = wire.len();
    wire.extend_from_slice(piece)?;
    match read_chunks(*wire.allocator(), wire.as_slice(), from, place) {
        Ok(step) => {
            wire.truncate(step.at);
            Ok(ChunkStep {
                place: step.place,
                at: step.at - from,
            })
        }
        Err(Memory) => {
            wire.truncate(from);
            Err(Memory)
        }
    }
}

/// How far a chunked body has come that stands at this place.
pub fn progress_of(place: ChunkPlace) -> BodyProgress
    ensures { result ≡ spec.progress_of place }
{
    match place {
        ChunkPlace::Line(_) => BodyProgress::More,
        ChunkPlace::Data(_) => BodyProgress::More,
        ChunkPlace::LineEnd => BodyProgress::More,
        ChunkPlace::LineEndCr => BodyProgress::More,
        ChunkPlace::Trailer(_, _) => BodyProgress::More,
        ChunkPlace::Whole => BodyProgress::Whole,
        ChunkPlace::Refused(fault) => BodyProgress::Refused(fault),
    }
}
