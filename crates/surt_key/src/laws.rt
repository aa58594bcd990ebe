//! What keys promise to those who write them into lines, and to those who store captures.
ghost use Rattle.surt_key.specs.Spaces.{KeysHoldNoSpace};
ghost use Rattle.surt_key.specs.Targets.{TargetsHaveKeys};

/// No byte of a key is 0x20 or below, so a space ends a key in a line of text, and in the order of
/// such lines a key stands before every longer one that begins with it.
#[tactic(auto, using(crate::proofs::SpacelessKeys::keys_hold_no_space))]
pub fn keys_hold_no_space()
    ensures { KeysHoldNoSpace }
{}

/// Every target that a capture may have has a key, so what is stored can be looked up.
#[tactic(auto, using(crate::proofs::TargetKeys::targets_have_keys))]
pub fn accepted_targets_have_keys()
    ensures { TargetsHaveKeys }
{}
