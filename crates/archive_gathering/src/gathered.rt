//! What is gathered of the volumes as they are read.
ghost use Rattle.std.specs.Prelude.{◌≡◌, ◌≢◌, ◌+◌, ◌-◌, ◌^◌, ◌<◌, ◌∷◌, ◌++◌, [], List, ℕ, All, IfErr, IfNone, IfOk, IfSome, None, OnOk, Option, Some, true, if◌then◌else◌, length, map, option_to_list};
ghost use Rattle.httparse.specs.Grammar as grammar;
ghost use Rattle.capture.specs.Captures.{captures};
ghost use Rattle.cdxj_line.specs.Lines.{IsWritable};
ghost use Rattle.capture.specs.declared.book.Book.{Book as BookValue};
ghost use Rattle.http_head.specs.Heads.{HoldsResponseParts};
ghost use Rattle.time_text.specs.Texts.{InRange};
ghost use Rattle.warc_journal.specs.Texts.{with_more};
ghost use Rattle.volume_scan.specs.Scannings.{IsHeaded};
ghost use Rattle.warc_scan.specs.Headed.{HasItsParts};
ghost use Rattle.record_opening.specs.Infos.{IsInfo};
ghost use Rattle.warc_text.specs.Ids.{IsUuid};
ghost use Rattle.archive_shelf.specs.Storing.{empty_book, with_capture};
ghost use Rattle.archive_gathering.specs.Gathering.{FitsFound, FitsGroup, Gathers, HasAdded, HasBegun, HasTaken, HasVolumeMore, IsGathered, IsIn, IsRefused, IsSteady, MayStand};
ghost use Rattle.archive_volumes.specs.Held.{book_of, stored_in};
ghost use Rattle.archive_volumes.specs.Lines.{told_spot};
ghost use Rattle.archive_gathering.specs.Lines.{AreLinesIn, AreNext, ArePlacedIn, HasAddedLine, HasCome, HasMoreCaptures, IsSoFar, capture_by};
ghost use Rattle.archive_gathering.specs.Noting.{IsGroupAt, IsSomeGroup, IsWithin};
ghost use Rattle.archive_gathering.specs.Refusing.{CountsFault, IsCause, IsOther, IsUnfit, IsUnfitGroup, IsUnfitVolume};
ghost use Rattle.archive_gathering.specs.Reading.{IsDeadEnd};
ghost use Rattle.archive_gathering.specs.Revisits.{MayRefer, RefersRight, RefersToNone};
ghost use Rattle.archive_volumes.specs.Spots.{AreWithin, MayBeWholeAt, may_be_whole};
ghost use Rattle.archive_gathering.specs.Shapes.{HasBegunOne, HasTakenOne, IsMadeUp, RefersAt, Shapes};
ghost use Rattle.archive_gathering.specs.declared.gathered.Refusal.TheVariants.{Damaged as IsDamaged, Memory as IsMemory};

use crate::laws::reading_laws;
use crate::lines::entry_in;
use crate::measuring::told_length;
use crate::noting::{Noted, note, passes_bounds};
use crate::originals::{Sought, first_met};
use archive_shelf::ReopenFault;
use archive_volumes::{Form, Held, Spot, StoredGhost};
use capture::{Book, Digest, Memory, captures_have_one_payload};
use cdxj_line::Line;
use disk_model::Kind;
use http_head::ResponseHead;
use index_entry::Entry;
use revisit_table::LazyDigests;
use shown::Shown;
use std::alloc::Global;
use surt_key::accepted_targets_have_keys;
use uuid::Uuid;
use volume_scan::Found;
use warc_journal::Place;
use warc_scan::{Group, HeadedGroup};

/// Why what was found isn't gathered.
#[derive(Clone, Copy)]
pub(crate) enum Refusal {
    /// No sound book goes on with it.
    Damaged,
    /// There was no memory.
    Memory,
}

impl From<Memory> for Refusal {
    ghost use Rattle.archive_gathering.specs.declared.gathered.Refusal.TheVariants.{Memory as OutOfMemory};

    ghost from_gives = { λ _ fault. fault ≡ OutOfMemory };

    fn from(_error: Memory) -> Refusal {
        Refusal::Memory
    }
}

/// What was gathered of the volumes that were read so far.
#[derive(Drop)]
pub struct Gathered {
    /// Their book, without its bytes.
    held: Held,
    /// What is kept of each capture.
    spots: Vec<Spot>,
    /// The length of each capture's payload in bytes, of those that keep their whole wire.
    lengths: Vec<u64>,
    /// The captures that keep their whole wire, by the digests of their payloads.
    table: LazyDigests,
    /// The entries of the captures that are found by date, by number.
    entries: Vec<Entry>,
}

impl Gathered {
    /// Nothing, in this namespace. Takes no memory.
    pub(crate) fn new(alloc: Global, namespace: Uuid) -> Gathered
        requires { IsUuid namespace }
        ensures book { book_of result.held ≡ empty_book namespace }
        ensures steady { IsSteady result }
        ensures gathered { (known : Option BookValue) → IsGathered known result [] }
        ensures spots { result.spots.items ≡ [] }
        ensures entries { result.entries.items ≡ [] }
    {
        Gathered {
            held: Held::new(alloc, namespace),
            spots: Vec::new(alloc),
            lengths: Vec::new(alloc),
            table: LazyDigests::new(alloc),
            entries: Vec::new(alloc),
        }
    }

    /// Nothing, in the namespace that is asked for, if one is.
    pub fn in_namespace(alloc: Global, asked: &Option<Uuid>) -> Gathered
        requires uuid { IfSome asked.now IsUuid }
        ensures steady { IsSteady result }
        ensures gathered { (known : Option BookValue) → IsGathered known result [] }
        ensures namespace { IsIn asked.now (book_of result.held) }
    {
        match asked {
            Some(namespace) => Gathered::new(alloc, *namespace),
            None => Gathered::new(alloc, Uuid::nil()),
        }
    }

    /// The refusal of another namespace than the one that is asked for, where there are volumes.
    pub fn other_than(&self, asked: &Option<Uuid>) -> Option<ReopenFault>
        requires { 0 < length (book_of self.now.held).volumes }
        ensures other { IfSome result (IsOther (book_of self.now.held) asked.now) }
        ensures none { IfNone result (IsIn asked.now (book_of self.now.held)) }
    {
        match asked {
            Some(namespace) => {
                if *namespace == self.held.namespace {
                    return None;
                }
                Some(ReopenFault::OtherNamespace(self.held.namespace))
            }
            None => None,
        }
    }

    /// Lets it go: one function does so for each refusal, since its parts are let go one by one.
    pub fn let_go(self) {}

    /// Its parts: the book without its bytes, what is kept of the captures, their digests, of which the table may still have to be
    /// made, and the entries by number.
    pub fn into_parts(self) -> (Held, Vec<Spot>, LazyDigests, Vec<Entry>)
        ensures held { result.0 ≡ self.held }
        ensures spots { result.1.items ≡ self.spots.items }
        ensures table { result.2 ≡ self.table }
        ensures entries { result.3.items ≡ self.entries.items }
    {
        let Gathered {
            held,
            spots,
            lengths: _,
            table,
            entries,
        } = self;
        (held, spots, table, entries)
    }

    /// Gathers what a scan has found; false at the end.
    pub fn gather(&mut self, alloc: Global, found: Found) -> Result<bool, ReopenFault>
        requires steady { IsSteady self.old }
        requires fits { FitsFound self.old found }
        requires headed { IsHeaded found }
        ensures steady { OnOk result (IsSteady self.new) }
        ensures gathers { (known : Option BookValue) (texts : List (List ℕ)) → IsGathered known self.old texts → IfOk result (Gathers known self.old self.new texts found) }
        ensures refused { (known : Option BookValue) (texts : List (List ℕ)) → IsGathered known self.old texts → IfErr result (IsRefused known self.old texts found) }
        ensures shapes { IfOk result (Shapes self.old self.new found) }
        ensures unfit { IfErr result (IsUnfit (book_of self.old.held) found) }
        ensures cause { IfErr result (IsCause None) }
        ensures still { (count : ℕ) → IfErr result (CountsFault count count) }
    {
        match found {
            Found::Info {
                volume,
                namespace,
                born,
            } => match self.begin(alloc, volume, namespace, born) {
                Ok(()) => Ok(true),
                Err(Refusal::Damaged) => Err(damaged(volume, 0)),
                Err(Refusal::Memory) => Err(ReopenFault::Memory),
            },
            Found::Group { place, read } => match self.take(alloc, place, read) {
                Ok(()) => Ok(true),
                Err(Refusal::Damaged) => Err(damaged(place.volume, place.at)),
                Err(Refusal::Memory) => Err(ReopenFault::Memory),
            },
            Found::End => Ok(false),
        }
    }

    /// Gathers a volume, whose warcinfo was found. A namespace that isn't that of the volumes before, and a volume without a
    /// capture before this one, are damage.
    fn begin(
        &mut self,
        alloc: Global,
        volume: u32,
        namespace: Uuid,
        born: u64,
    ) -> Result<(), Refusal>
        requires steady { IsSteady self.old }
        requires uuid { IsUuid namespace }
        requires born { InRange born }
        ensures steady { OnOk result (IsSteady self.new) }
        ensures gathered { (known : Option BookValue) (texts : List (List ℕ)) (text : List ℕ) → IsGathered known self.old texts → volume ≡ length texts
            → IsInfo volume text namespace born (length text) → OnOk result (HasBegun known self.old self.new texts text namespace) }
        ensures damaged { (known : Option BookValue) (texts : List (List ℕ)) (text : List ℕ) → IsGathered known self.old texts → volume ≡ length texts
            → IsInfo volume text namespace born (length text) → IfErr result (λ refusal. refusal ≡ IsDamaged → IsDeadEnd known (texts ++ text ∷ [])) }
        ensures unfit { volume ≡ length (book_of self.old.held).volumes → IfErr result (λ refusal. refusal ≡ IsDamaged
            → IsUnfitVolume (book_of self.old.held) namespace) }
        ensures begun { volume ≡ length (book_of self.old.held).volumes → OnOk result (HasBegunOne self.old self.new namespace) }
    {
        reading_laws();
        if volume == 0 {
            *self = Gathered::new(alloc, namespace);
            return self.add_volume(alloc, born);
        }
        if namespace != self.held.namespace {
            return Err(Refusal::Damaged);
        }
        if !self.held.is_filled() {
            return Err(Refusal::Damaged);
        }
        self.add_volume(alloc, born)
    }

    /// Adds a volume.
    fn add_volume(&mut self, alloc: Global, born: u64) -> Result<(), Refusal>
        requires steady { IsSteady self.old }
        requires born { InRange born }
        ensures steady { OnOk result (IsSteady self.new) }
        ensures added { OnOk result (HasVolumeMore self.old self.new born) }
        ensures memory { IfErr result (λ refusal. refusal ≡ IsMemory) }
    {
        let shadow = self.held.prepare_volume(alloc, born)?;
        self.held.add_volume(shadow);
        Ok(())
    }

    /// Gathers a capture, whose group was found behind the last volume's text. A revisit that refers to no capture with its
    /// payload, and a group with which a bound is passed, are damage.
    fn take(&mut self, alloc: Global, place: Place, read: HeadedGroup) -> Result<(), Refusal>
        requires steady { IsSteady self.old }
        requires fits { FitsGroup self.old place read.group }
        requires headed { HasItsParts read }
        ensures steady { OnOk result (IsSteady self.new) }
        ensures gathered { (known : Option BookValue) (texts : List (List ℕ)) (text : List ℕ) → IsGathered known self.old texts
            → IsGroupAt (book_of self.old.held) texts text place read.group → MayStand known (with_more texts text)
            → OnOk result (HasTaken known self.old self.new texts text) }
        ensures damaged { (known : Option BookValue) (texts : List (List ℕ)) (text : List ℕ) → IsGathered known self.old texts
            → IsGroupAt (book_of self.old.held) texts text place read.group
            → IfErr result (λ refusal. refusal ≡ IsDamaged → IsDeadEnd known (with_more texts text)) }
        ensures unfit { IfErr result (λ refusal. refusal ≡ IsDamaged → IsUnfitGroup (length (captures (book_of self.old.held))) place read.group) }
        ensures taken { OnOk result (HasTakenOne self.old self.new place) }
    {
        reading_laws();
        accepted_targets_have_keys();
        // The one exit at which what was read is let go, part by part.
        let first = match self.first_for(alloc, &place, &read) {
            Ok(first) => first,
            Err(refusal) => return Err(refusal),
        };
        let noted = match note(alloc, &place, read, first) {
            Ok(noted) => noted,
            Err(Memory) => return Err(Refusal::Memory),
        };
        match self.add(noted) {
            Ok(()) => Ok(()),
            Err(Memory) => Err(Refusal::Memory),
        }
    }

    /// The number of the capture that a group refers to, if it refers to any, by the table, which is made ready for that. A group with which
    /// a bound is passed, and one that refers to none of the captures before, are damage.
    fn first_for(
        &mut self,
        alloc: Global,
        place: &Place,
        read: &HeadedGroup,
    ) -> Result<Option<u32>, Refusal>
        requires steady { IsSteady self.old }
        requires fits { FitsGroup self.old place.now read.now.group }
        requires headed { HasItsParts read.now }
        ensures others { self.new ≡ record self.old { table = self.new.table } }
        ensures kept { OnOk result (self.new.table.kept ≡ self.old.table.kept) }
        ensures within { IfOk result (λ _. IsWithin (length self.old.spots.items) place.now read.now.group) }
        ensures found { (known : Option BookValue) (texts : List (List ℕ)) (text : List ℕ) → IsGathered known self.old texts
            → IsGroupAt (book_of self.old.held) texts text place.now read.now.group → MayStand known (with_more texts text)
            → IfOk result (RefersRight (book_of self.old.held) read.now.group) }
        ensures damaged { (known : Option BookValue) (texts : List (List ℕ)) (text : List ℕ) → IsGathered known self.old texts
            → IsGroupAt (book_of self.old.held) texts text place.now read.now.group
            → IfErr result (λ refusal. refusal ≡ IsDamaged → IsDeadEnd known (with_more texts text)) }
        ensures unfit { IfErr result (λ refusal. refusal ≡ IsDamaged
            → IsUnfitGroup (length (captures (book_of self.old.held))) place.now read.now.group) }
        ensures whole { IfOk result (λ first. IfSome first (MayBeWholeAt self.old.spots.items)) }
        ensures refers { IfOk result (RefersAt read.now.group.same) }
    {
        reading_laws();
        let number = self.spots.len() as u32;
        if passes_bounds(number, place, &read.group) {
            return Err(Refusal::Damaged);
        }
        settle_for(alloc, &mut self.table, &read.group)?;
        self.original(&read.group, &read.head)
    }

    /// The number of the capture that a group refers to, if it refers to any; damage, where it refers to none of those before.
    fn original(&self, group: &Group, head: &ResponseHead) -> Result<Option<u32>, Refusal>
        requires steady { IsSteady self.now }
        requires found { IsSomeGroup group.now }
        requires ready { IfSome group.now.same (λ _. self.now.table.waiting ≡ []) }
        ensures found { (known : Option BookValue) (texts : List (List ℕ)) (h : grammar.ResponseHead) → IsGathered known self.now texts
            → HoldsResponseParts group.now.stored.head h head.now → group.now.number ≡ length (captures (book_of self.now.held))
            → MayRefer known (book_of self.now.held) group.now → IfOk result (RefersRight (book_of self.now.held) group.now) }
        ensures none { (known : Option BookValue) (texts : List (List ℕ)) (h : grammar.ResponseHead) → IsGathered known self.now texts → HoldsResponseParts group.now.stored.head h head.now
            → group.now.number ≡ length (captures (book_of self.now.held))
            → IfErr result (λ refusal. refusal ≡ IsDamaged → RefersToNone (book_of self.now.held) group.now) }
        ensures revisit { IfErr result (λ refusal. group.now.same ≢ None) }
        ensures there { IfOk result (λ first. IfSome first (λ number. number < length self.now.spots.items)) }
        ensures whole { IfOk result (λ first. IfSome first (MayBeWholeAt self.now.spots.items)) }
        ensures refers { IfOk result (RefersAt group.now.same) }
    {
        captures_have_one_payload();
        let Some(same) = &group.same else {
            return Ok(None);
        };
        let sought = Sought {
            namespace: &self.held.namespace,
            same,
            length: told_length(&group.stored.method, head),
        };
        let candidates = self.table.candidates(&group.digest);
        match first_met(
            sought,
            candidates,
            self.spots.as_slice(),
            self.lengths.as_slice(),
        ) {
            Some(first) => Ok(Some(first)),
            None => Err(Refusal::Damaged),
        }
    }

    /// Adds what was noted of the next capture.
    fn add(&mut self, noted: Noted) -> Result<(), Memory>
        requires steady { IsSteady self.old }
        requires volume { 0 < length (book_of self.old.held).volumes }
        requires few { length self.old.spots.items + 1 < 2 ^ 32 - 1 }
        ensures steady { OnOk result (IsSteady self.new) }
        ensures added { OnOk result (HasAdded self.old self.new noted) }
    {
        let Noted {
            stored,
            digest,
            volume,
            at,
            head_at,
            length,
            entry,
        } = noted;
        let shown = StoredGhost::of(&stored);
        let spot = Spot::of(stored, digest, volume, at, head_at);
        self.enter(spot, length, shown)?;
        add_entry(&mut self.entries, entry)
    }

    /// Adds the next capture without its entry: what is kept of it, the length of its payload, and its digest where the table has that.
    fn enter(&mut self, spot: Spot, payload_len: u64, shown: StoredGhost) -> Result<(), Memory>
        requires steady { IsSteady self.old }
        requires volume { 0 < length (book_of self.old.held).volumes }
        requires few { length self.old.spots.items + 1 < 2 ^ 32 - 1 }
        ensures steady { OnOk result (IsSteady self.new) }
        ensures book { OnOk result (book_of self.new.held ≡ with_capture (book_of self.old.held) (stored_in shown)) }
        ensures spots { OnOk result (self.new.spots.items ≡ self.old.spots.items ++ spot ∷ []) }
        ensures lengths { OnOk result (self.new.lengths.items ≡ self.old.lengths.items ++ payload_len ∷ []) }
        ensures entries { self.new.entries.items ≡ self.old.entries.items }
    {
        let number = self.spots.len() as u32;
        let whole = may_be_whole(spot.form);
        let digest = spot.digest;
        // First what is owned, so that no later exit has it to let go.
        self.spots.push(spot)?;
        add_digest(&mut self.table, whole, &digest, number)?;
        self.lengths.push(payload_len)?;
        self.held.reserve()?;
        self.held.add_ghost(shown);
        Ok(())
    }

    /// Adds the captures of these lines, which are those of the next ones.
    pub fn add_lines(
        &mut self,
        lines: Vec<Line>,
        len: u64,
        known: &Shown<Option<Book>>,
    ) -> Result<(), Memory>
        requires steady { IsSteady self.old }
        requires volume { 0 < length (book_of self.old.held).volumes }
        requires next { AreNext (length self.old.spots.items) len lines.items }
        requires writable { All IsWritable lines.items }
        requires of_volume { All (λ line. line.volume + 1 ≡ length (book_of self.old.held).volumes) lines.items }
        ensures steady { OnOk result (IsSteady self.new) }
        ensures more { OnOk result (HasMoreCaptures self.old self.new (length lines.items)) }
        ensures spots { OnOk result (self.new.spots.items ≡ self.old.spots.items ++ map (λ line. told_spot line) lines.items) }
        ensures within { (texts : List (List ℕ)) → AreWithin texts self.old.spots.items → ArePlacedIn texts lines.items → OnOk result (AreWithin texts self.new.spots.items) }
        ensures made { known.now.value ≡ None → IsMadeUp self.old → OnOk result (IsMadeUp self.new) }
        ensures told { (book : BookValue) (texts : List (List ℕ)) → known.now.value ≡ Some book → IsSoFar book self.old texts
            → AreLinesIn book texts lines.items → OnOk result (HasCome book self.new texts) }
    {
        reading_laws();
        // only the clauses read it
        let _ = len;
        let mut rest = lines.into_iter();
        'lines: while let Some(line) = rest.next() {
            self.add_line(line, known)?;
        }
        Ok(())
    }

    /// Adds the capture of which a line tells, the next one.
    fn add_line(&mut self, line: Line, known: &Shown<Option<Book>>) -> Result<(), Memory>
        requires steady { IsSteady self.old }
        requires volume { 0 < length (book_of self.old.held).volumes }
        requires number { line.number ≡ length self.old.spots.items }
        requires few { line.number + 1 < 2 ^ 32 - 1 }
        requires writable { IsWritable line }
        ensures steady { OnOk result (IsSteady self.new) }
        ensures added { OnOk result (HasAddedLine self.old self.new (capture_by known.now.value line) line) }
    {
        let spot = Spot::of_line(&line)?;
        self.enter(spot, 0, told_ghost(&line, known))?;
        add_entry(&mut self.entries, entry_in(line))
    }
}

/// Whether a capture keeps its whole wire, or may do so, where a line alone told of it.
fn may_be_whole(form: Form) -> bool
    ensures { result ≡ may_be_whole form }
{
    match form {
        Form::Whole => true,
        Form::Same(_) => false,
        Form::Cut => false,
        Form::Told { revisit } => !revisit,
    }
}

/// A line, and the book that may be known.
#[derive(Drop)]
struct ToldLine<'l> {
    line: &'l Line,
    known: &'l Shown<Option<Book>>,
}

/// The capture of which a line tells, as clauses see it: that of the known book, or one that is made up.
fn told_ghost(line: &Line, known: &Shown<Option<Book>>) -> StoredGhost
    ensures { stored_in result ≡ capture_by known.now.value line.now }
{
    let told = ToldLine { line, known };
    StoredGhost::named_by(&told)
}

/// That a volume's file is damaged at this place.
pub fn damaged(file: u32, place: u64) -> ReopenFault
    ensures { result ≡ ReopenFault.Damaged Kind.Warc file place }
{
    ReopenFault::Damaged {
        kind: Kind::Warc,
        file,
        place,
    }
}

/// Makes the table ready to be asked, if the group refers to an earlier capture.
fn settle_for(alloc: Global, table: &mut LazyDigests, group: &Group) -> Result<(), Memory>
    ensures kept { OnOk result (table.new.kept ≡ table.old.kept) }
    ensures ready { OnOk result (IfSome group.now.same (λ _. table.new.waiting ≡ [])) }
{
    match &group.same {
        Some(_) => table.settle(alloc),
        None => Ok(()),
    }
}

/// Adds a capture to the table, if it keeps its whole wire.
fn add_digest(
    table: &mut LazyDigests,
    whole: bool,
    digest: &Digest,
    number: u32,
) -> Result<(), Memory>
    requires above { All (λ entry. entry.1 < number) table.old.kept }
    ensures { OnOk result (table.new.kept ≡ table.old.kept ++ (if whole then (digest.now, number) ∷ [] else [])) }
{
    if !whole {
        return Ok(());
    }
    table.push(digest, number)
}

/// Adds an entry, if there is one.
fn add_entry(entries: &mut Vec<Entry>, entry: Option<Entry>) -> Result<(), Memory>
    ensures { OnOk result (entries.new.items ≡ entries.old.items ++ option_to_list entry) }
{
    if let Some(entry) = entry {
        entries.push(entry)?;
    }
    Ok(())
}
