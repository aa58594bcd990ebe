//! The parts of an address. This is the one place that lists what the forms begin with.
ghost use Rattle.std.specs.Prelude.{◌≡◌, ◌≤◌, true, false, length, drop, MatchOption};
ghost use Rattle.std.specs.Char.{is_ascii_digit};
ghost use Rattle.std.specs.List.{prefix_len};
ghost use Rattle.replay_url.specs.Address as spec;
ghost use Rattle.replay_url.specs.Address.{parts_of, parts_at};

/// An address by its parts.
pub enum Address<'a> {
    /// What stands behind `rec/`.
    ANumber(&'a [u8]),
    /// What stands behind `ship/`.
    AShip(&'a [u8]),
    /// The URL behind `timemap/link/`.
    AMap(&'a [u8]),
    /// What stands behind `cdx?`.
    AQuery(&'a [u8]),
    /// Digits, whether `id_` follows them, and the URL behind the slash.
    AMemento {
        digits: &'a [u8],
        raw: bool,
        url: &'a [u8],
    },
    /// Digits with another modifier, as `im_`.
    AModified,
    /// Any other URL.
    AGate(&'a [u8]),
    /// An address that doesn't begin with `/web/`.
    AnotherPath,
}

/// The parts of the address, read from left to right.
#[tactic(auto, unfolding(crate::specs::Address::parts_at))]
pub fn address_at(target: &[u8]) -> Address<'_>
    ensures { parts_of result ≡ parts_at target.now }
{
    match behind(target, b"/web/") {
        Some(text) => behind_web(text),
        None => Address::AnotherPath,
    }
}

/// The parts of an address by what stands behind its `/web/`.
fn behind_web(text: &[u8]) -> Address<'_>
    ensures { parts_of result ≡ spec.behind_web text.now }
{
    if let Some(number) = behind(text, b"rec/") {
        return Address::ANumber(number);
    }
    if let Some(number) = behind(text, b"ship/") {
        return Address::AShip(number);
    }
    if let Some(url) = behind(text, b"timemap/link/") {
        return Address::AMap(url);
    }
    if let Some(query) = behind(text, b"cdx?") {
        return Address::AQuery(query);
    }
    digits_first(text)
}

/// The parts of an address that names no number, ship, list or query, by what stands behind its `/web/`.
fn digits_first(text: &[u8]) -> Address<'_>
    ensures { parts_of result ≡ spec.digits_first (prefix_len is_ascii_digit text.now) text.now }
{
    let len = digits_len(text);
    if len == 0 {
        return Address::AGate(text);
    }
    let (digits, rest) = text.split_at(len);
    if let Some(url) = behind(rest, b"/") {
        return Address::AMemento {
            digits,
            raw: false,
            url,
        };
    }
    if let Some(url) = behind(rest, b"id_/") {
        return Address::AMemento {
            digits,
            raw: true,
            url,
        };
    }
    if has_modifier(rest) {
        return Address::AModified;
    }
    Address::AGate(text)
}

/// What stands behind the front, where the text begins with it.
fn behind<'a>(text: &'a [u8], front: &[u8]) -> Option<&'a [u8]>
    ensures { MatchOption result (spec.begins_with front.now text.now ≡ false)
        (λ rest. (spec.begins_with front.now text.now ≡ true) × (rest.now ≡ drop (length front.now) text.now)) }
{
    if !text.starts_with(front) {
        return None;
    }
    let (_, rest) = text.split_at(front.len());
    Some(rest)
}

/// How many digits stand at the front.
fn digits_len(text: &[u8]) -> usize
    ensures value { result ≡ prefix_len is_ascii_digit text.now }
    ensures within { result ≤ length text.now }
{
    text.iter().take_while(|b| b.is_ascii_digit()).count()
}

/// Whether two small letters, `_` and `/` stand at the front.
fn has_modifier(text: &[u8]) -> bool
    ensures { result ≡ spec.has_modifier text.now }
{
    text.len() >= 4
        && text[0].is_ascii_lowercase()
        && text[1].is_ascii_lowercase()
        && text[2] == b'_'
        && text[3] == b'/'
}
