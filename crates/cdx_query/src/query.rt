//! A query.
ghost use Rattle.std.specs.Prelude.{◌≡◌};
ghost use Rattle.cdx_query.specs.Answers.{media_type_of};

use capture::Text;
use surt_key::Key;

/// How the key of an entry stands to that of the query's URL.
#[derive(Clone, Copy)]
pub enum MatchKind {
    /// It is the same key.
    Exact,
    /// It begins with that key.
    Prefix,
    /// It has the same host and port.
    Host,
    /// It has the same host and port, or a host below that one.
    Domain,
}

/// What is asked of an index.
#[derive(Drop)]
pub struct Query {
    /// The look-up key of the URL.
    pub key: Key,
    /// What the keys of the entries that are asked for begin with, so that an index can look them up.
    pub start: Key,
    /// How the key of an entry has to stand to that of the URL.
    pub kind: MatchKind,
    /// The digits of the earliest time, as many as were given.
    pub from: Option<Text>,
    /// The digits of the latest time, as many as were given. What they leave out isn't told: all of 2024 is within `2024`.
    pub to: Option<Text>,
    /// How many entries are answered at most.
    pub limit: Option<u32>,
    /// Whether each entry is answered as a JSON object, and not as a line of an index.
    pub json: bool,
}

impl Query {
    /// The media type of the answer, for its Content-Type field (RFC 9110, section 8.3).
    pub fn media_type(&self) -> &'static [u8]
        ensures { result.now ≡ media_type_of self.now.json }
    {
        if self.json {
            return b"application/x-ndjson";
        }
        b"text/x-cdxj"
    }
}
