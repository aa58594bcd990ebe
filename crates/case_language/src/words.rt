//! The words and parts of a text that a case gives to a call.

/// The number that the text writes in decimal digits.
pub fn number_in(text: &[u8]) -> Option<u64> {
    let Ok(text) = str::from_utf8(text) else {
        return None;
    };
    text.parse::<u64>().ok()
}

/// What stands before the first byte of this kind in a text, and what follows it.
fn split_at_first(text: &[u8], mark: u8) -> Option<(&[u8], &[u8])> {
    for place in 0..text.len() {
        if text[place] == mark {
            return Some((&text[..place], &text[place + 1..]));
        }
    }
    None
}

/// What stands before the first space of a text, and what follows it.
pub fn split_front(text: &[u8]) -> Option<(&[u8], &[u8])> {
    split_at_first(text, b' ')
}

/// The first word of a text, and what follows the space behind it.
pub fn split_word(text: &[u8]) -> Option<(&str, &[u8])> {
    let Some((word, rest)) = split_front(text) else {
        return None;
    };
    match str::from_utf8(word) {
        Ok(word) => Some((word, rest)),
        Err(_) => None,
    }
}

/// What stands before the first `;`, and what follows it.
pub fn split_part(text: &[u8]) -> (&[u8], &[u8]) {
    match split_at_first(text, b';') {
        Some(parts) => parts,
        None => (text, b""),
    }
}

/// The length of a piece, which isn't 0, and the stream behind the space.
pub fn in_pieces(text: &[u8]) -> Option<(usize, &[u8])> {
    let Some((length, stream)) = split_word(text) else {
        return None;
    };
    match length.parse::<u64>() {
        Ok(length) if length > 0 => Some((length as usize, stream)),
        _ => None,
    }
}
