//! The forms of an address. This is the one place that lists them.
ghost use Rattle.std.specs.Prelude.{◌≡◌};
ghost use Rattle.replay_url.specs.Keyed.{form_of};

use capture::{Bytes, Text};
use surt_key::KeyedUrl;

/// What an address asks for.
#[derive(Drop)]
pub enum Form {
    /// The capture of a URL that is nearest to a time (RFC 7089, section 4.1.1: a memento).
    Memento {
        /// The time in milliseconds since 1970: the earliest that the digits name.
        time: u64,
        /// How many digits gave it.
        digits: usize,
        /// Whether the capture is asked for as it was received.
        raw: bool,
        /// The URL, with its scheme.
        url: Text,
    },
    /// The capture of a URL that is nearest to the time that a field names (RFC 7089, section 4.1: a TimeGate).
    Gate {
        /// The URL, with its scheme.
        url: Text,
    },
    /// The list of a URL's captures (RFC 7089, section 5: a TimeMap).
    Map {
        /// The URL, with its scheme.
        url: Text,
    },
    /// The entries of the index that meet a query.
    Query {
        /// What stands behind `cdx?`.
        text: Bytes,
    },
    /// The capture of this number.
    Number(u32),
    /// The piece of the capture of this number, as another archive takes it.
    Ship(u32),
}

/// A form with the look-up key of its URL, so that who answers it needn't make the key again.
#[derive(Drop)]
pub enum KeyedForm {
    /// As `Form::Memento`.
    Memento {
        /// The time in milliseconds since 1970: the earliest that the digits name.
        time: u64,
        /// How many digits gave it.
        digits: usize,
        /// Whether the capture is asked for as it was received.
        raw: bool,
        /// The URL, with its scheme and its key.
        of: KeyedUrl,
    },
    /// As `Form::Gate`.
    Gate {
        /// The URL, with its scheme and its key.
        of: KeyedUrl,
    },
    /// As `Form::Map`.
    Map {
        /// The URL, with its scheme and its key.
        of: KeyedUrl,
    },
    /// As `Form::Query`.
    Query {
        /// What stands behind `cdx?`.
        text: Bytes,
    },
    /// As `Form::Number`.
    Number(u32),
    /// As `Form::Ship`.
    Ship(u32),
}

impl KeyedForm {
    /// The form without the key. Takes no memory.
    pub fn into_form(self) -> Form
        ensures { result ≡ form_of self }
    {
        match self {
            KeyedForm::Memento {
                time,
                digits,
                raw,
                of,
            } => Form::Memento {
                time,
                digits,
                raw,
                url: without_key(of),
            },
            KeyedForm::Gate { of } => Form::Gate {
                url: without_key(of),
            },
            KeyedForm::Map { of } => Form::Map {
                url: without_key(of),
            },
            KeyedForm::Query { text } => Form::Query { text },
            KeyedForm::Number(number) => Form::Number(number),
            KeyedForm::Ship(number) => Form::Ship(number),
        }
    }
}

/// The URL alone.
fn without_key(of: KeyedUrl) -> Text
    ensures { result ≡ of.url }
{
    let KeyedUrl { url, key: _key } = of;
    url
}
