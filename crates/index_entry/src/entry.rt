//! What the index knows of a capture.
ghost use Rattle.std.specs.Prelude.{◌≡◌, ◌<◌, ◌^◌, IfOk};
ghost use Rattle.index_entry.specs.OfLine.{facts_of, line_at};
ghost use Rattle.index_entry.specs.Order.{moment_of};
ghost use Rattle.cdxj_line.specs.Lines.{IsWritable};
ghost use Rattle.cdxj_line.specs.Parts.{line_of};
ghost use Rattle.time_text.specs.Texts.{InRange};

use capture::{Digest, Memory, Text};
use cdxj_line::{Line, LineParts};
use short_text::ShortText;
use std::alloc::Global;
use std::marker::Model;
use surt_key::Key;

/// A date, in milliseconds since 1970, and a number within the date.
pub type Moment = (u64, u32);

/// A capture in the index. A clause sees its parts.
///
/// The date has a text, the status is of three digits, and the key is that of the uri.
#[derive(Drop)]
pub struct Entry {
    /// The look-up key of the uri.
    pub key: Key,
    /// When it was fetched, in milliseconds since 1970.
    pub date: u64,
    /// The capture's number.
    pub number: u32,
    /// The target that the client sent, in absolute form.
    pub uri: Text,
    /// The media type.
    pub mime: ShortText,
    /// The response's status.
    pub status: u16,
    /// The digest of the payload.
    pub digest: Digest,
    /// The number of the volume that holds the capture.
    pub volume: u32,
    /// The place of the response or revisit record in its volume, in bytes.
    pub offset: u64,
    /// The length of that record, in bytes.
    pub length: u64,
}

impl Model for Entry {
    ghost use Rattle.index_entry.specs.Facts.{Facts, IsEntry};

    ghost Value = { Facts };

    ghost view = { λ e. record { key = e.key; date = e.date; number = e.number; uri = e.uri; mime = e.mime; status = e.status; digest = e.digest; volume = e.volume; offset = e.offset; length = e.length } };

    ghost invariant = { λ e. IsEntry e.key e.date e.status e.uri };

    ghost inverse = { λ f. record { key = f.key; date = f.date; number = f.number; uri = f.uri; mime = f.mime; status = f.status; digest = f.digest; volume = f.volume; offset = f.offset; length = f.length } };
}

impl Entry {
    /// The same entry in memory of its own.
    pub fn copy(&self) -> Result<Entry, Memory>
        ensures { IfOk result (λ entry. entry ≡ self.now) }
    {
        Ok(Entry {
            key: self.key.copy()?,
            date: self.date,
            number: self.number,
            uri: self.uri.copy()?,
            mime: self.mime.copy()?,
            status: self.status,
            digest: self.digest,
            volume: self.volume,
            offset: self.offset,
            length: self.length,
        })
    }

    /// The entry of a line's capture. Takes no memory.
    pub fn of_line(line: Line) -> Entry
        requires { IsWritable line }
        ensures { result ≡ facts_of line }
    {
        let Line {
            key,
            date,
            digest,
            volume,
            length,
            method: _method,
            mime,
            number,
            offset,
            status,
            url,
        } = line;
        Entry {
            key,
            date,
            number,
            uri: url,
            mime: ShortText::of(mime),
            status,
            digest,
            volume,
            offset,
            length,
        }
    }

    /// The line of the entry's capture, which was asked for by this method. Only the media type is copied.
    pub fn into_line(self, alloc: Global, method: Text) -> Result<Line, Memory>
        ensures line { IfOk result (λ line. line ≡ line_at self method) }
        ensures writable { IfOk result IsWritable }
    {
        let Entry {
            key,
            date,
            number,
            uri,
            mime,
            status,
            digest,
            volume,
            offset,
            length,
        } = self;
        Ok(Line {
            key,
            date,
            digest,
            volume,
            length,
            method,
            mime: mime.to_text(alloc)?,
            number,
            offset,
            status,
            url: uri,
        })
    }

    /// The parts of that line, lent.
    pub fn parts<'a>(&'a self, method: &'a [u8]) -> LineParts<'a>
        ensures line { line_of result ≡ line_at self.now method.now }
        ensures in_range { InRange result.date }
    {
        LineParts {
            key: self.key.as_slice(),
            date: self.date,
            digest: &self.digest,
            volume: self.volume,
            length: self.length,
            method,
            mime: self.mime.as_slice(),
            number: self.number,
            offset: self.offset,
            status: self.status,
            url: self.uri.as_slice(),
        }
    }

    /// Its place among the entries of its key.
    pub fn moment(&self) -> Moment
        ensures value { result ≡ moment_of self.now }
        ensures fits { result.1 < 2 ^ 32 }
    {
        (self.date, number_of(self))
    }
}

/// The number of an entry, as the result of a call, of which the checker knows the range.
pub fn number_of(entry: &Entry) -> u32
    ensures number { result ≡ entry.now.number }
    ensures fits { result < 2 ^ 32 }
{
    entry.number
}
