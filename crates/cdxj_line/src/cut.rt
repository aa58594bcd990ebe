//! Where a text is cut.
ghost use Rattle.std.specs.Prelude.{◌≡◌, ◌≢◌, ◌≤◌, ℕ, List, ◌∷◌, ◌++◌, not, ◌==◌, length, All, IfSome, IsSomeAnd};
ghost use Rattle.std.specs.List.{prefix_len};

/// How many bytes stand before the first such byte.
pub(crate) fn front_len(text: &[u8], byte: u8) -> usize
    ensures value { result ≡ prefix_len (λ b. not (b == byte)) text.now }
    ensures within { result ≤ length text.now }
{
    text.iter().take_while(|&&b| b != byte).count()
}

/// What stands before and behind the first blank.
pub(crate) fn cut_at_blank(text: &[u8]) -> Option<(&[u8], &[u8])>
    ensures some { IfSome result (λ parts. text.now ≡ parts.0.now ++ 32 ∷ parts.1.now) }
    ensures found { (front rest : List ℕ) → All (λ b. b ≢ 32) front → text.now ≡ front ++ 32 ∷ rest
        → IsSomeAnd result (λ parts. (parts.0.now ≡ front) × (parts.1.now ≡ rest)) }
{
    let (front, rest) = text.split_at(front_len(text, b' '));
    let rest = strip(rest, b" ")?;
    Some((front, rest))
}

/// What stands behind a text that another one begins with.
// Inlined, so that a literal is compared by whole words.
#[inline(always)]
pub(crate) fn strip<'a>(text: &'a [u8], front: &[u8]) -> Option<&'a [u8]>
    ensures some { IfSome result (λ rest. text.now ≡ front.now ++ rest.now) }
    ensures found { (rest : List ℕ) → text.now ≡ front.now ++ rest → IsSomeAnd result (λ behind. behind.now ≡ rest) }
{
    if text.len() < front.len() {
        return None;
    }
    let (begin, rest) = text.split_at(front.len());
    if begin == front { Some(rest) } else { None }
}

/// What stands before a text that another one ends with.
#[inline(always)]
pub(crate) fn before<'a>(text: &'a [u8], end: &[u8]) -> Option<&'a [u8]>
    ensures some { IfSome result (λ front. text.now ≡ front.now ++ end.now) }
    ensures found { (front : List ℕ) → text.now ≡ front ++ end.now → IsSomeAnd result (λ rest. rest.now ≡ front) }
{
    if text.len() < end.len() {
        return None;
    }
    let (front, last) = text.split_at(text.len() - end.len());
    if last == end { Some(front) } else { None }
}
