//! The members of a list that a field holds (RFC 9110, section 5.6.1).
ghost use Rattle.std.specs.Prelude.{◌≡◌, ◌<◌, ◌≤◌, ◌==◌, [], ◌∷◌, not, length, IfSome, IfNone};
ghost use Rattle.std.specs.List.{prefix_len};
ghost use Rattle.httparse.specs.Ascii.{comma};
ghost use Rattle.message_body.specs.Framings.{members};

use capture::trim_ows;

/// Splits the first member off a list: the member without the blanks around it, and what stands behind the comma after
/// it, where there is one.
pub fn split_member(list: &[u8]) -> (&[u8], Option<&[u8]>)
    ensures more { IfSome result.1 (λ behind. members list.now ≡ result.0.now ∷ members behind.now) }
    ensures last { IfNone result.1 (members list.now ≡ result.0.now ∷ []) }
    ensures shorter { IfSome result.1 (λ behind. length behind.now < length list.now) }
{
    let (member, rest) = list.split_at(member_len(list));
    let trimmed = trim_ows(member);
    match rest {
        [_, behind @ ..] => (trimmed, Some(behind)),
        [] => (trimmed, None),
    }
}

/// The length up to the first comma.
fn member_len(list: &[u8]) -> usize
    ensures value { result ≡ prefix_len (λ b. not (b == comma)) list.now }
    ensures within { result ≤ length list.now }
{
    list.iter().take_while(|&&b| b != b',').count()
}
