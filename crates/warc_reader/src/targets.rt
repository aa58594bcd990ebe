//! The target of a response record.
ghost use Rattle.std.specs.Prelude.{◌≡◌, ℕ, List, true, false, map, IfOk, IfSome, IfNone, IsAscii};
ghost use Rattle.capture.specs.Target.{is_accepted_uri};
ghost use Rattle.http_head.specs.Heads.{named_value};
ghost use Rattle.warc_reader.specs.Fields.{HasTarget};

use crate::fields::target_of;
use capture::{Memory, Text, accepted_url};
use http_head::Field;
use std::alloc::Global;

/// The target that the record names, where it is an accepted absolute one.
pub fn accepted_target(alloc: Global, fields: &[Field]) -> Result<Option<Text>, Memory>
    ensures some { IfOk result (λ found. IfSome found (HasTarget (map named_value fields.now))) }
    ensures none { IfOk result (λ found. IfNone found ((uri : List ℕ) → ¬ (HasTarget (map named_value fields.now) uri))) }
{
    match target_of(fields) {
        Some(target) => copy_accepted(alloc, target),
        None => Ok(None),
    }
}

/// A copy of an accepted absolute target.
fn copy_accepted(alloc: Global, target: &[u8]) -> Result<Option<Text>, Memory>
    ensures some { IfOk result (λ found. IfSome found (λ copy. (copy ≡ target.now) × (is_accepted_uri target.now ≡ true))) }
    ensures none { IfOk result (λ found. IfNone found (is_accepted_uri target.now ≡ false)) }
{
    match accepted_url(alloc, target)? {
        Some(_) => Ok(Some(copy_text(alloc, target)?)),
        None => Ok(None),
    }
}

/// A copy of a text of ASCII.
fn copy_text(alloc: Global, text: &[u8]) -> Result<Text, Memory>
    requires { IsAscii text.now }
    ensures { IfOk result (λ copy. copy ≡ text.now) }
{
    match Text::of(Vec::from_slice(alloc, text)?) {
        Some(copy) => Ok(copy),
        None => unreachable!(),
    }
}
