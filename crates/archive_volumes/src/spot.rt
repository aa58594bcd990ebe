//! What is kept of a capture in memory, and how it is put behind the others.
ghost use Rattle.std.specs.Prelude.{◌≡◌, ◌+◌, ◌^◌, ◌<◌, ℕ, List, length, ◌++◌, ◌∷◌, [], All, vec_len, Some, IfOk, OnOk, if◌then◌else◌};
ghost use Rattle.capture.specs.Captures.{kept_wire};
ghost use Rattle.archive_shelf.specs.Storing.{as_stored, kept_of};
ghost use Rattle.archive_volumes.specs.Spots.{form_of, is_cut_form, is_same_form, is_told_form, keeper_in, may_be_whole, spot_of, whole_from};
ghost use Rattle.archive_volumes.specs.Lines.{is_revisit_line, told_spot};
ghost use Rattle.std.specs.Vec.{vec_capacity};

use capture::{Digest, Kept, Memory, Stored, Taken, Text};
use cdxj_line::{Line, REVISIT};
use revisit_table::Digests;
use short_text::ShortText;
use std::alloc::Global;
use warc_journal::Place;

/// In which form a capture is kept.
#[derive(Clone, Copy)]
pub enum Form {
    /// With its whole wire.
    Whole,
    /// Without its wire: its payload is that of the capture with this number, which keeps its whole wire.
    Same(u32),
    /// With as much of its wire as came.
    Cut,
    /// As its records have it, which weren't read: a line told of it, and whether another capture keeps its payload. Where its head and its
    /// wire stand isn't known, nor which capture keeps its payload, nor whether its response was cut.
    Told { revisit: bool },
}

impl Form {
    /// Whether a line alone told of the capture.
    pub fn is_told(self) -> bool
        ensures { result ≡ is_told_form self }
    {
        match self {
            Form::Whole => false,
            Form::Same(_) => false,
            Form::Cut => false,
            Form::Told { revisit: _ } => true,
        }
    }

    /// Whether only as much of the wire is kept as came: not of one that a line alone told of, since nobody knows it.
    pub fn is_cut(self) -> bool
        ensures { result ≡ is_cut_form self }
    {
        match self {
            Form::Whole => false,
            Form::Same(_) => false,
            Form::Cut => true,
            Form::Told { revisit: _ } => false,
        }
    }

    /// The capture that keeps the wire, where it is known that another one does, and which.
    pub fn keeper(self) -> Option<u32>
        ensures { result ≡ keeper_in self }
    {
        match self {
            Form::Whole => None,
            Form::Same(first) => Some(first),
            Form::Cut => None,
            Form::Told { revisit: _ } => None,
        }
    }

    /// Whether another capture keeps the wire.
    pub fn is_same(self) -> bool
        ensures { result ≡ is_same_form self }
    {
        match self {
            Form::Whole => false,
            Form::Same(_) => true,
            Form::Cut => false,
            Form::Told { revisit } => revisit,
        }
    }
}

/// What is kept of a capture in memory: what it is, and where its head and its wire stand. They are read where they are
/// needed, so that its size doesn't grow with them.
#[derive(Drop)]
pub struct Spot {
    /// The request's method.
    pub method: ShortText,
    /// The target that the client sent, in absolute form.
    pub uri: Text,
    /// When it was fetched, in milliseconds since 1970.
    pub date: u64,
    /// The digest of its payload.
    pub digest: Digest,
    /// In which form it is kept.
    pub form: Form,
    /// The volume in which it stands.
    pub volume: u32,
    /// Where in that volume's text its group begins, in bytes, which is where its first record does.
    pub at: u64,
    /// Where in that text the response's head begins, in bytes. The wire that is kept stands behind the head. This and the two lengths are
    /// 0 where a line alone told of the capture.
    pub head_at: u64,
    /// The head's length in bytes.
    pub head_len: u64,
    /// The length of the wire that is kept, in bytes: 0 where another capture keeps it.
    pub wire_len: u64,
}

impl Spot {
    /// What is kept of a capture whose payload has this digest, and whose group and head begin at these places of a volume's
    /// text. The rest of it is let go. Takes no memory.
    pub fn of(stored: Stored, digest: Digest, volume: u32, at: u64, head_at: u64) -> Spot
        ensures { result ≡ spot_of stored digest volume at head_at }
    {
        let Stored {
            method,
            uri,
            date,
            request: _,
            head,
            kept,
        } = stored;
        let head_len = head.as_slice().len() as u64;
        let wire_len = wire_len_of(&kept);
        let form = form_kept(&kept);
        Spot {
            method: ShortText::of(method),
            uri,
            date,
            digest,
            form,
            volume,
            at,
            head_at,
            head_len,
            wire_len,
        }
    }

    /// What is kept of a capture that was taken, whose payload has this digest, and which refers to this one, if to any. It
    /// doesn't stand anywhere yet.
    pub(crate) fn of_taken(
        taken: &Taken,
        digest: &Digest,
        same: Option<u32>,
    ) -> Result<Spot, Memory>
        ensures { IfOk result (λ spot. spot ≡ spot_of (as_stored taken.now same) digest.now 0 0 0) }
    {
        Ok(Spot {
            method: ShortText::copy_of(&taken.method)?,
            uri: taken.uri.copy()?,
            date: taken.date,
            digest: *digest,
            form: form_taken(taken.cut, same),
            volume: 0,
            at: 0,
            head_at: 0,
            head_len: taken.head.as_slice().len() as u64,
            wire_len: wire_len_taken(taken, same),
        })
    }

    /// What is kept of a capture of which a line alone told. Its head and its wire aren't known.
    pub fn of_line(line: &Line) -> Result<Spot, Memory>
        ensures { IfOk result (λ spot. spot ≡ told_spot line.now) }
    {
        let revisit = is_of_revisit(line);
        Ok(Spot {
            method: ShortText::copy_of(&line.method)?,
            uri: line.url.copy()?,
            date: line.date,
            digest: line.digest,
            form: Form::Told { revisit },
            volume: line.volume,
            at: line.offset,
            head_at: 0,
            head_len: 0,
            wire_len: 0,
        })
    }

    /// The same of a capture whose group and head begin at these places of a volume's text.
    pub(crate) fn standing(self, volume: u32, at: u64, head_at: u64) -> Spot
        ensures { result ≡ record self { volume = volume; at = at; head_at = head_at } }
    {
        Spot {
            volume,
            at,
            head_at,
            ..self
        }
    }

    /// Where the head stands.
    pub fn head_place(&self) -> Place
        ensures { result ≡ record { volume = self.now.volume; at = self.now.head_at; len = self.now.head_len } }
    {
        Place {
            volume: self.volume,
            at: self.head_at,
            len: self.head_len,
        }
    }

    /// Where the wire that is kept stands.
    pub fn wire_place(&self) -> Place
        requires { self.now.head_at + self.now.head_len < 2 ^ 62 }
        ensures { result ≡ record { volume = self.now.volume; at = self.now.head_at + self.now.head_len; len = self.now.wire_len } }
    {
        Place {
            volume: self.volume,
            at: self.head_at + self.head_len,
            len: self.wire_len,
        }
    }
}

/// Whether a line is that of a revisit.
fn is_of_revisit(line: &Line) -> bool
    ensures { result ≡ is_revisit_line line.now }
{
    line.mime.as_slice() == REVISIT.as_bytes()
}

/// In which form this is kept.
pub fn form_kept(kept: &Kept) -> Form
    ensures { result ≡ form_of kept.now }
{
    match kept {
        Kept::Wire(_) => Form::Whole,
        Kept::Same(first) => Form::Same(*first),
        Kept::Cut(_) => Form::Cut,
    }
}

/// In which form a capture is kept that was taken, by whether it was cut and what it refers to.
pub(crate) fn form_taken(cut: bool, same: Option<u32>) -> Form
    ensures { (wire : List ℕ) → result ≡ form_of (kept_of cut wire same) }
{
    if cut {
        return Form::Cut;
    }
    match same {
        Some(first) => Form::Same(first),
        None => Form::Whole,
    }
}

/// The length of the wire that is kept of a capture that was taken, in bytes.
fn wire_len_taken(taken: &Taken, same: Option<u32>) -> u64
    ensures { result ≡ length (kept_wire (kept_of taken.now.cut taken.now.wire same)) }
{
    let whole = taken.wire.as_slice().len() as u64;
    if taken.cut {
        return whole;
    }
    match same {
        Some(_) => 0,
        None => whole,
    }
}

/// The length of the wire that is kept, in bytes.
fn wire_len_of(kept: &Kept) -> u64
    ensures { result ≡ length (kept_wire kept.now) }
{
    match kept {
        Kept::Wire(wire) => wire.as_slice().len() as u64,
        Kept::Same(_) => 0,
        Kept::Cut(wire) => wire.as_slice().len() as u64,
    }
}

/// Makes room for one capture more, whose payload has this digest.
pub fn reserve_kept(
    alloc: Global,
    spots: &mut Vec<Spot>,
    table: &mut Digests,
    digest: &Digest,
) -> Result<(), Memory>
    ensures room { OnOk result (vec_len spots.new < vec_capacity spots.new) }
    ensures reserved { OnOk result (table.new.reserved ≡ Some digest.now) }
    ensures spots { spots.new.items ≡ spots.old.items }
    ensures table { table.new.kept ≡ table.old.kept }
{
    spots.reserve(1)?;
    table.reserve(alloc, digest)
}

/// Puts a capture behind the others, in the room that is there, and its digest into the table where it keeps its whole wire, or may do so.
/// Takes no memory.
pub(crate) fn keep(spots: &mut Vec<Spot>, table: &mut Digests, spot: Spot)
    requires room { vec_len spots.old < vec_capacity spots.old }
    requires reserved { table.old.reserved ≡ Some spot.digest }
    requires table { table.old.kept ≡ whole_from 0 spots.old.items }
    requires few { length spots.old.items < 2 ^ 32 }
    ensures spots { spots.new.items ≡ spots.old.items ++ spot ∷ [] }
    ensures table { table.new.kept ≡ whole_from 0 spots.new.items }
{
    note_whole(table, spot.form, &spot.digest, spots.len() as u32);
    spots.push_reserved(spot);
}

/// Adds a capture's digest where it keeps its whole wire, or may do so.
fn note_whole(table: &mut Digests, form: Form, digest: &Digest, number: u32)
    requires reserved { table.old.reserved ≡ Some digest.now }
    requires above { All (λ entry. entry.1 < number) table.old.kept }
    ensures { table.new.kept ≡ table.old.kept ++ (if may_be_whole form then (digest.now, number) ∷ [] else []) }
{
    match form {
        Form::Whole => table.add(digest, number),
        Form::Same(_) => (),
        Form::Cut => (),
        Form::Told { revisit: false } => table.add(digest, number),
        Form::Told { revisit: true } => (),
    }
}
