//! The members of a list that a field holds (RFC 9110, section 5.6.1).
ghost use Rattle.std.specs.Prelude.{◌≡◌, ◌++◌, map, OnOk};
ghost use Rattle.message_body.specs.Framings.{members};

use capture::Memory;
use message_body::split_member;

/// Puts the members of the list behind those that stand there.
pub fn put_members<'a>(names: &mut Vec<&'a [u8]>, list: &'a [u8]) -> Result<(), Memory>
    ensures { OnOk result (map (λ m. m.now) names.new.items ≡ map (λ m. m.now) names.old.items ++ members list.now) }
{
    let mut rest = list;
    'members: loop {
        let (member, behind) = split_member(rest);
        names.push(member)?;
        match behind {
            Some(after) => rest = after,
            None => return Ok(()),
        }
    }
}
