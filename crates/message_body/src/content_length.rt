//! The length that the fields Content-Length of a head tell.
ghost use Rattle.std.specs.Prelude.{◌≡◌, List, ℕ, ◌∷◌, ◌++◌, map, Some, Err, IfSome, IfNone};
ghost use Rattle.capture.specs.Fields.{members_of};
ghost use Rattle.capture.specs.Framing.{content_length, length_of_members};
ghost use Rattle.capture.specs.declared.framing.FramingFault.TheVariants.{Malformed};
ghost use Rattle.http_head.specs.Heads.{named_value};
ghost use Rattle.message_body.specs.Framings.{members, told_behind, length_answer};

use crate::members::split_member;
use crate::number::Number;
use http_head::{Field, WireFault};

/// The one length that the members of all fields Content-Length tell (RFC 9110, section 8.6). Malformed: there is none,
/// or one is no number, or two differ. BodyTooLong: it is 2 to the 64th or more.
pub fn length_of(fields: &[Field]) -> Result<u64, WireFault>
    ensures { result ≡ length_answer (length_of_members (members_of content_length (map named_value fields.now))) }
{
    let mut known = None;
    for field in fields {
        if field.has_name(b"content-length") {
            match read_members(field.value.as_slice(), known) {
                Some(number) => known = Some(number),
                None => return Err(WireFault::Malformed),
            }
        }
    }
    match known {
        None => Err(WireFault::Malformed),
        Some(number) => match number.to_u64() {
            Some(length) => Ok(length),
            None => Err(WireFault::BodyTooLong),
        },
    }
}

/// The one number that the members of a list are, and that was known before. `None`: there is no such number.
fn read_members<'t>(list: &'t [u8], known: Option<Number<'t>>) -> Option<Number<'t>>
    ensures told { IfSome result (λ n. (others : List (List ℕ)) → told_behind known.entry (members list.now ++ others) ≡ told_behind (Some n) others) }
    ensures none { IfNone result ((others : List (List ℕ)) → told_behind known.entry (members list.now ++ others) ≡ Err Malformed) }
{
    let mut rest = list;
    let mut before = known;
    'members: loop {
        let (member, behind) = split_member(rest);
        match agreed(before, member) {
            None => return None,
            Some(number) => match behind {
                None => return Some(number),
                Some(others) => {
                    rest = others;
                    before = Some(number);
                }
            },
        }
    }
}

/// The number that the member is, and that was known before. `None`: there is no such number.
fn agreed<'t>(known: Option<Number<'t>>, member: &'t [u8]) -> Option<Number<'t>>
    ensures told { IfSome result (λ n. (others : List (List ℕ)) → told_behind known.entry (member.now ∷ others) ≡ told_behind (Some n) others) }
    ensures none { IfNone result ((others : List (List ℕ)) → told_behind known.entry (member.now ∷ others) ≡ Err Malformed) }
{
    match Number::read(member) {
        None => None,
        Some(number) => match known {
            None => Some(number),
            Some(before) => {
                if before.is_same(&number) {
                    Some(number)
                } else {
                    None
                }
            }
        },
    }
}
