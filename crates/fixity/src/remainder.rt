//! What stands behind the groups of a volume.
ghost use Rattle.std.specs.Prelude.{◌≡◌, ℕ, List, MatchBool, length, min, take};
ghost use Rattle.fixity.specs.Verdicts.{IsSoundRest};

/// The first byte of a finished warcinfo or group.
const COMMIT_BYTE: u8 = b'W';

/// How many bytes tell what stands there.
pub const FIRST_BYTES: u64 = 2;

/// Whether what stands behind the groups of a volume may stand there. These are its first two bytes, or all of it.
pub fn is_sound_rest(front: &[u8], last: bool) -> bool
    ensures { (rest : List ℕ) → length front.now ≡ min 2 (length rest) → front.now ≡ take (length front.now) rest
        → MatchBool result (IsSoundRest last rest) (¬ (IsSoundRest last rest)) }
{
    if front.is_empty() {
        return true;
    }
    if !last {
        return false;
    }
    if front[0] != COMMIT_BYTE {
        return true;
    }
    front.len() == 1
}
