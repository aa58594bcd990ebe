//! What a line says of a capture.
ghost use Rattle.std.specs.Prelude.{◌≡◌};
ghost use Rattle.cdxj_line.specs.Parts.{line_of};

use crate::LineParts;
use capture::{Digest, Text};
use surt_key::Key;

/// What a line says of a capture.
///
/// It has a text where the date has one, the status is of three digits and the key is the url's.
#[derive(PartialEq, Eq, Drop)]
pub struct Line {
    /// The look-up key of the url.
    pub key: Key,
    /// When it was fetched, in milliseconds since 1970.
    pub date: u64,
    /// The digest of the payload.
    pub digest: Digest,
    /// The number of the volume that holds the capture.
    pub volume: u32,
    /// The length of the response record or revisit record, in bytes.
    pub length: u64,
    /// The request's method.
    pub method: Text,
    /// The media type, or `warc/revisit` of a revisit.
    pub mime: Text,
    /// The capture's number.
    pub number: u32,
    /// The place of that record in its volume, in bytes.
    pub offset: u64,
    /// The response's status.
    pub status: u16,
    /// The target that the client sent, in absolute form.
    pub url: Text,
}

impl Line {
    /// Its parts, lent.
    pub fn parts(&self) -> LineParts<'_>
        ensures { line_of result ≡ self.now }
    {
        LineParts {
            key: self.key.as_slice(),
            date: self.date,
            digest: &self.digest,
            volume: self.volume,
            length: self.length,
            method: self.method.as_slice(),
            mime: self.mime.as_slice(),
            number: self.number,
            offset: self.offset,
            status: self.status,
            url: self.url.as_slice(),
        }
    }
}
