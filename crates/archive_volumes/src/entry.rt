//! The entry of a capture in the index.
ghost use Rattle.std.specs.Prelude.{◌≡◌, ℕ, List, codes, map, slice_get, option_copied, IfOk, IfSome, Some, ◌-◌, length};
ghost use Rattle.capture.specs.Fields.{named_values, values_of};
ghost use Rattle.index_entry.specs.OfBook.{mime_by};
ghost use Rattle.http_head.specs.Heads.{HoldsResponseParts, named_value};
ghost use Rattle.httparse.specs.Grammar as grammar;
ghost use Rattle.surt_key.specs.Key.{key_of as the_key_of};
ghost use Rattle.time_text.specs.Texts.{InRange};
ghost use Rattle.archive_volumes.specs.Entries.{EntersAs, IsAskedOf, IsToldAs};
ghost use Rattle.capture.specs.Message.{IsResponseHeadText};
ghost use Rattle.capture.specs.Target.{IsAcceptedAs};
ghost use Rattle.archive_volumes.specs.Held.{book_of, stored_in};
ghost use Rattle.archive_volumes.specs.Ready.{record_in, room_of};
ghost use Rattle.archive_volumes.specs.Spots.{form_of, is_same_form, spot_of};
ghost use Rattle.archive_volumes.specs.Writing.{HasRoomFor};
ghost use Rattle.capture.specs.declared.captured.Kept.{Kept as Keeping};
ghost use Rattle.capture.specs.declared.captured.Stored.{Stored as Capture};
ghost use Rattle.archive_volumes.specs.Volumes.{IsMeasured};

use crate::ready::Ready;
use crate::volumes::Volumes;
use capture::{Digest, Kept, Memory, Stored, Text};
use cdxj_line::{REVISIT, media_type};
use disk_model::Disk;
use http_head::{ResponseHead, WireFault, first_value, read_head};
use index_entry::Entry;
use short_text::ShortText;
use std::alloc::Global;
use surt_key::{Key, KeyFault, key_of, key_of_url};
use url::Url;

/// The status of a response that has no body since the client has it: no capture with it is found by date.
const NOT_MODIFIED: u16 = 304;

/// Which capture a record is of, and where it stands.
#[derive(Clone, Copy)]
pub struct RecordAt {
    /// The capture's number.
    pub number: u32,
    /// The digest of its payload.
    pub digest: Digest,
    /// The volume in which the record stands.
    pub volume: u32,
    /// Its place in the volume's text, in bytes.
    pub offset: u64,
    /// Its length, in bytes.
    pub len: u64,
}

/// What an entry tells of a capture itself.
#[derive(Clone, Copy)]
pub struct Asked<'s> {
    /// The request's method.
    pub method: &'s [u8],
    /// The target that the client sent, in absolute form.
    pub uri: &'s Text,
    /// When it was fetched, in milliseconds since 1970.
    pub date: u64,
    /// Whether another capture keeps its payload.
    pub revisit: bool,
}

/// The entry of a capture, whose target was parsed to this URL; none where it isn't found by date, since it wasn't asked for by
/// GET or its response is 304 (RFC 9110, section 15.4.5).
pub fn entry_of(
    alloc: Global,
    stored: &Stored,
    url: &Url,
    head: &ResponseHead,
    at: RecordAt,
) -> Result<Option<Entry>, Memory>
    requires date { InRange stored.now.date }
    requires target { IsAcceptedAs stored.now.uri url.now }
    requires parsed { (h : grammar.ResponseHead) × HoldsResponseParts stored.now.head h head.now }
    ensures { (text : List ℕ) (h : grammar.ResponseHead) → HoldsResponseParts text h head.now → IfOk result (EntersAs stored.now h at) }
{
    let asked = Asked {
        method: stored.method.as_slice(),
        uri: &stored.uri,
        date: stored.date,
        revisit: is_revisit(&stored.kept),
    };
    entry_by(alloc, &asked, Some(url), head, at)
}

/// Whether another capture keeps the payload.
fn is_revisit(kept: &Kept) -> bool
    ensures { result ≡ is_same_form (form_of kept.now) }
{
    match kept {
        Kept::Wire(_) => false,
        Kept::Same(_) => true,
        Kept::Cut(_) => false,
    }
}

/// The entry of a capture of which this is told, and of whose target the URL, where it was parsed; none where it isn't found by
/// date, or where its target has no key.
fn entry_by(
    alloc: Global,
    asked: &Asked,
    url: Option<&Url>,
    head: &ResponseHead,
    at: RecordAt,
) -> Result<Option<Entry>, Memory>
    requires date { InRange asked.now.date }
    requires target { IfSome (option_copied url) (IsAcceptedAs asked.now.uri.now) }
    requires parsed { (text : List ℕ) × (h : grammar.ResponseHead) × HoldsResponseParts text h head.now }
    ensures { (stored : Capture) (text : List ℕ) (h : grammar.ResponseHead) → IsAskedOf stored asked.now.method.now asked.now.uri.now asked.now.date asked.now.revisit
        → HoldsResponseParts text h head.now → IfOk result (EntersAs stored h at) }
{
    if asked.method != b"GET".as_slice() {
        return Ok(None);
    }
    if head.status == NOT_MODIFIED {
        return Ok(None);
    }
    match url {
        Some(url) => {
            let key = key_of_url(alloc, url)?;
            entry_with(alloc, asked, key, head, at)
        }
        None => told_entry(alloc, asked, head, at),
    }
}

/// The entry of a capture of which this is told, whether it is found by date or not; none where its target has no key.
pub fn told_entry(
    alloc: Global,
    asked: &Asked,
    head: &ResponseHead,
    at: RecordAt,
) -> Result<Option<Entry>, Memory>
    requires date { InRange asked.now.date }
    requires parsed { (text : List ℕ) × (h : grammar.ResponseHead) × HoldsResponseParts text h head.now }
    ensures { (stored : Capture) (text : List ℕ) (h : grammar.ResponseHead) → IsAskedOf stored asked.now.method.now asked.now.uri.now asked.now.date asked.now.revisit
        → HoldsResponseParts text h head.now → IfOk result (IsToldAs stored h at) }
{
    let key = match key_of(alloc, asked.uri.as_slice()) {
        Ok(key) => key,
        Err(KeyFault::NotHttp) => return Ok(None),
        Err(KeyFault::Memory) => return Err(Memory),
    };
    entry_with(alloc, asked, key, head, at)
}

/// The entry of a capture of which this is told, and whose target has this key.
fn entry_with(
    alloc: Global,
    asked: &Asked,
    key: Key,
    head: &ResponseHead,
    at: RecordAt,
) -> Result<Option<Entry>, Memory>
    requires date { InRange asked.now.date }
    requires keyed { the_key_of asked.now.uri.now ≡ Some key }
    requires parsed { (text : List ℕ) × (h : grammar.ResponseHead) × HoldsResponseParts text h head.now }
    ensures { (stored : Capture) (text : List ℕ) (h : grammar.ResponseHead) → IsAskedOf stored asked.now.method.now asked.now.uri.now asked.now.date asked.now.revisit
        → HoldsResponseParts text h head.now → IfOk result (IsToldAs stored h at) }
{
    Ok(Some(Entry {
        key,
        date: asked.date,
        number: at.number,
        uri: asked.uri.copy()?,
        mime: mime_of(alloc, asked.revisit, head)?,
        status: head.status,
        digest: at.digest,
        volume: at.volume,
        offset: at.offset,
        length: at.len,
    }))
}

/// The media type of an entry: that of a revisit is its own.
fn mime_of(alloc: Global, revisit: bool, head: &ResponseHead) -> Result<ShortText, Memory>
    ensures { (kept : Keeping) (text : List ℕ) (h : grammar.ResponseHead) → revisit ≡ is_same_form (form_of kept) → HoldsResponseParts text h head.now
        → IfOk result (λ mime. mime ≡ mime_by kept (named_values h.fields)) }
{
    match revisit {
        true => ShortText::from_str(alloc, REVISIT),
        false => Ok(ShortText::of(media_type(alloc, content_type(head))?)),
    }
}

/// The value of the first field Content-Type.
fn content_type(head: &ResponseHead) -> Option<&[u8]>
    ensures { option_copied result ≡ slice_get (values_of (codes "content-type") (map named_value head.now.fields)) 0 }
{
    first_value(head.fields.as_slice(), b"content-type")
}

impl<D: Disk> Volumes<D> {
    /// Where the first record of a capture that is ready is to stand.
    pub fn record_at(&self, ready: &Ready, number: u32) -> RecordAt
        requires measured { IsMeasured self.now.journal (book_of self.now.held) }
        requires room { HasRoomFor self.now ready.now.prepared }
        ensures { result ≡ record_in self.now ready.now number }
    {
        let digest = ready.digest;
        let len = ready.layout.record_len;
        match &ready.prepared {
            Some(prepared) => RecordAt {
                number,
                digest,
                volume: self.journal.volumes(),
                offset: prepared.info.as_slice().len() as u64,
                len,
            },
            None => RecordAt {
                number,
                digest,
                volume: self.journal.volumes() - 1,
                offset: self.journal.last_len(),
                len,
            },
        }
    }
}

/// The entry of a capture that is ready, whose response has this head, and whose first record is to stand there; none where it
/// isn't found by date.
pub fn entry_for(
    alloc: Global,
    ready: &Ready,
    head: &[u8],
    at: RecordAt,
) -> Result<Option<Entry>, Memory>
    requires date { InRange (stored_in ready.now.stored).date }
    requires kept { ready.now.spot ≡ spot_of (stored_in ready.now.stored) ready.now.digest 0 0 0 }
    requires is { head.now ≡ (stored_in ready.now.stored).head }
    requires head { (h : grammar.ResponseHead) × IsResponseHeadText head.now h }
    ensures { (h : grammar.ResponseHead) → IsResponseHeadText head.now h → IfOk result (EntersAs (stored_in ready.now.stored) h at) }
{
    let asked = Asked {
        method: ready.spot.method.as_slice(),
        uri: &ready.spot.uri,
        date: ready.spot.date,
        revisit: ready.spot.form.is_same(),
    };
    match read_head(alloc, head) {
        Ok(parts) => entry_by(alloc, &asked, None, &parts, at),
        Err(WireFault::Memory) => Err(Memory),
        Err(_) => unreachable!(),
    }
}
