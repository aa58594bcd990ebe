//! The publisher.
ghost use Rattle.std.specs.Prelude.{◌≡◌, ◌<◌, ◌≤◌, ◌++◌, [], ◌∷◌, None, IfOk, OnOk, OnErr, drop, length, fold, option_to_list};
ghost use Rattle.std.specs.List.{All};
ghost use Rattle.left_right.specs.Sides.{view};
ghost use Rattle.index_snapshot.specs.Entries.{HasEntries, IsNew, entries_in};
ghost use Rattle.index_snapshot.specs.Listings.{IsTied, Names};
ghost use Rattle.index_snapshot.specs.Publishing.{IsAt, applied, edge_of, full_of};

use crate::items::Brings;
use crate::listing::{Addition, Knows, Listing, Place};
use crate::note::{Count, Note};
use crate::viewer::{Look, Tied, Viewer};
use atomic_table::{Join, Split};
use capture::Memory;
use cdxj_index::Index;
use core::mem::replace_with;
use crossbeam_utils::rule::Outcome;
use left_right::Absorb;
use left_right::writer::Writer;
use std::alloc::{AllocError, Global};
use std::marker::{Model, PhantomData};
use std::sync::Wait;

/// The first publication, which names the list.
struct First<B> {
    marker: PhantomData<B>,
}

impl<E, B: Brings<E>> Outcome<Listing<E>, Knows<E>> for First<B> {
    ghost use Rattle.index_snapshot.specs.Listings.{Begins};

    ghost then = { λ v x y w. Begins B.entries B.fits v x y w };
}

/// What the writer knows, told to a reader.
struct Tells;

impl<E> Split<Knows<E>> for Tells {
    ghost left = { λ v. v };

    ghost right = { λ v. v };
}

impl<E> Join<Knows<E>> for Tells {
    ghost use Rattle.std.specs.Prelude.{[]};

    ghost both = { λ v w. w };

    ghost spent = { [] };
}

type Copies<E, B> = Writer<Listing<E>, Addition<E>, Knows<E>, Tied<B>>;

/// Makes the list longer and publishes it. It isn't `Drop`: end it by `close`.
///
/// A clause sees which list it is, what is published of it, and all of it.
pub struct Publisher<E, B: Brings<E>>
where
    Listing<E>: Absorb<Addition<E>, State = (Index, Note<E>)>,
{
    copies: Copies<E, B>,
    word: Count<E>,
    /// The list that is published.
    shown: Note<E>,
    /// All that was appended.
    full: Note<E>,
    /// What the copies' log had no room for.
    held: Option<Addition<E>>,
}

impl<E, B: Brings<E>> Model for Publisher<E, B>
where
    Listing<E>: Absorb<Addition<E>, State = (Index, Note<E>)>,
{
    ghost use Rattle.std.specs.Prelude.{drop};
    ghost use Rattle.left_right.specs.Sides.{view as known};
    ghost use Rattle.index_snapshot.specs.Publishing.{IsPublisher, Print, print_of};

    ghost Value = { Print E };

    ghost view = { λ p. print_of p.shown p.full };

    ghost invariant = { λ p. IsPublisher B.entries B.fits p.copies.desk.shown.value (drop p.copies.behind p.copies.log.items) (known p.copies.desk.place) p.word p.shown p.full p.held };
}

/// A publisher of a list with one item, whose entries are those of an index, of which there are two copies; and as many readers.
/// May wait.
pub fn published<R: Wait, E, B: Brings<E>>(
    alloc: Global,
    rt: &R,
    readers: usize,
    first: Index,
    second: Index,
    item: &E,
) -> Result<(Publisher<E, B>, Vec<Viewer<E, B>>), Memory>
    requires readers { (0 < readers) × (readers ≤ 17) }
    requires alike { first ≡ second }
    requires has { HasEntries first (entries_in B.entries (item.now ∷ [])) }
    requires fits { B.fits (item.now ∷ []) }
    ensures publisher { IfOk result (λ r. (r.0.published ≡ item.now ∷ []) × (r.0.full ≡ item.now ∷ [])) }
    ensures viewers { IfOk result (λ r. (length r.1.items ≡ readers) × All (λ v. v ≡ edge_of r.0) r.1.items) }
{
    let (full, word) = Note::begun(item)?;
    let first = Listing {
        alloc,
        index: first,
        note: full.again(),
    };
    let second = Listing {
        alloc,
        index: second,
        note: full.again(),
    };
    let copies: Copies<E, B> = Writer::new(alloc, first, second, readers)?;
    let (mut copies, begun) = begin(rt, copies);
    let mut viewers = Vec::new(alloc);
    if begun.is_err() || make_viewers(&mut copies, &full, readers, &mut viewers).is_err() {
        copies.take(rt);
        return Err(Memory);
    }
    let shown = full.again();
    let publisher = Publisher {
        copies,
        word,
        shown,
        full,
        held: None,
    };
    Ok((publisher, viewers))
}

/// Names the list in what the writer knows. May wait.
fn begin<R: Wait, E, B: Brings<E>>(
    rt: &R,
    copies: Copies<E, B>,
) -> (Copies<E, B>, Result<(), AllocError>)
    requires tied { IsTied B.entries B.fits copies.desk.shown.value }
    requires none { drop copies.behind copies.log.items ≡ [] }
    ensures note { OnOk result.1 (result.0.desk.shown.value.note ≡ copies.desk.shown.value.note) }
    ensures index { OnOk result.1 (result.0.desk.shown.value.index ≡ copies.desk.shown.value.index) }
    ensures none { OnOk result.1 (drop result.0.behind result.0.log.items ≡ []) }
    ensures knows { OnOk result.1 (view result.0.desk.place ≡ copies.desk.shown.value.note ∷ []) }
{
    copies.publish_as::<First<B>, R>(rt)
}

/// One more reader.
fn seat_viewer<E, B: Brings<E>>(
    copies: &mut Copies<E, B>,
    note: &Note<E>,
) -> Result<Viewer<E, B>, AllocError>
    requires names { Names note.now.of (view copies.old.desk.place) }
    ensures viewer { IfOk result (λ v. v ≡ note.now) }
    ensures shown { copies.new.desk.shown ≡ copies.old.desk.shown }
    ensures pending { drop copies.new.behind copies.new.log.items ≡ drop copies.old.behind copies.old.log.items }
    ensures view { view copies.new.desk.place ≡ view copies.old.desk.place }
{
    let mut reader = copies.factory().reader()?;
    let told = copies.tell::<Tells>();
    reader.learn::<Tells>(told);
    Ok(Viewer {
        reader,
        note: note.again(),
    })
}

/// So many readers.
fn make_viewers<E, B: Brings<E>>(
    copies: &mut Copies<E, B>,
    note: &Note<E>,
    readers: usize,
    viewers: &mut Vec<Viewer<E, B>>,
) -> Result<(), AllocError>
    requires names { Names note.now.of (view copies.old.desk.place) }
    requires none { viewers.old.items ≡ [] }
    ensures count { OnOk result (length viewers.new.items ≡ readers) }
    ensures viewers { All (λ v. v ≡ note.now) viewers.new.items }
    ensures shown { copies.new.desk.shown ≡ copies.old.desk.shown }
    ensures pending { drop copies.new.behind copies.new.log.items ≡ drop copies.old.behind copies.old.log.items }
    ensures view { view copies.new.desk.place ≡ view copies.old.desk.place }
{
    for made in 0..readers {
        let viewer = seat_viewer(copies, note)?;
        viewers.push(viewer)?;
    }
    Ok(())
}

/// Shows readers all that the copies' log has. May wait for readers.
fn show<R: Wait, E, B: Brings<E>>(
    rt: &R,
    copies: Copies<E, B>,
    full: &Note<E>,
) -> (Copies<E, B>, Result<(), AllocError>)
    requires whole { IsAt B.entries B.fits (fold applied (copies.desk.shown.value.index, copies.desk.shown.value.note) (drop copies.behind copies.log.items)) full.now }
    requires of { copies.desk.shown.value.note.of ≡ full.now.of }
    ensures note { OnOk result.1 (result.0.desk.shown.value.note ≡ full.now) }
    ensures tied { OnOk result.1 (IsTied B.entries B.fits result.0.desk.shown.value) }
    ensures none { OnOk result.1 (drop result.0.behind result.0.log.items ≡ []) }
    ensures knows { view result.0.desk.place ≡ view copies.desk.place }
    ensures shown { OnErr result.1 (result.0.desk.shown.value ≡ copies.desk.shown.value) }
    ensures pending { OnErr result.1 (drop result.0.behind result.0.log.items ≡ drop copies.behind copies.log.items) }
{
    copies.publish_as::<Look<B>, R>(rt)
}

/// The same in place.
fn show_in<R: Wait, E, B: Brings<E>>(
    rt: &R,
    copies: &mut Copies<E, B>,
    full: &Note<E>,
) -> Result<(), AllocError>
    requires whole { IsAt B.entries B.fits (fold applied (copies.old.desk.shown.value.index, copies.old.desk.shown.value.note) (drop copies.old.behind copies.old.log.items)) full.now }
    requires of { copies.old.desk.shown.value.note.of ≡ full.now.of }
    ensures note { OnOk result (copies.new.desk.shown.value.note ≡ full.now) }
    ensures tied { OnOk result (IsTied B.entries B.fits copies.new.desk.shown.value) }
    ensures none { OnOk result (drop copies.new.behind copies.new.log.items ≡ []) }
    ensures knows { view copies.new.desk.place ≡ view copies.old.desk.place }
    ensures shown { OnErr result (copies.new.desk.shown.value ≡ copies.old.desk.shown.value) }
    ensures pending { OnErr result (drop copies.new.behind copies.new.log.items ≡ drop copies.old.behind copies.old.log.items) }
{
    replace_with(copies, full, |copies, full| show(rt, copies, full))
}

/// Puts an addition into the copies' log, or holds it back where that has no room.
fn put<E, B: Brings<E>>(
    copies: &mut Copies<E, B>,
    held: &mut Option<Addition<E>>,
    added: Addition<E>,
)
    requires none { held.old ≡ None }
    ensures desk { copies.new.desk ≡ copies.old.desk }
    ensures all { drop copies.new.behind copies.new.log.items ++ option_to_list held.new ≡ drop copies.old.behind copies.old.log.items ++ added ∷ [] }
{
    if let Err(added) = copies.append(added) {
        *held = Some(added);
    }
}

impl<E, B: Brings<E>> Publisher<E, B> {
    /// Puts what was held back into the log.
    fn settle(&mut self) -> Result<(), Memory>
        ensures same { self.new ≡ self.old }
    {
        let Some(op) = self.held.take() else {
            return Ok(());
        };
        match self.copies.append(op) {
            Ok(()) => Ok(()),
            Err(op) => {
                self.held = Some(op);
                Err(Memory)
            }
        }
    }

    /// Adds an item to the list, with the entry that it brings. At `Err` nothing was added.
    ///
    /// Where the copies' log has no room, the entry is held back and goes first next time: the item counts as appended.
    pub fn append(&mut self, item: &E, place: Place) -> Result<(), Memory>
        requires place { B.entries item.now ≡ option_to_list place }
        requires new { IsNew (entries_in B.entries self.old.full) place }
        requires fits { B.fits (self.old.full ++ item.now ∷ []) }
        ensures ok { OnOk result (self.new ≡ record self.old { full = self.old.full ++ item.now ∷ [] }) }
        ensures err { OnErr result (self.new ≡ self.old) }
    {
        self.settle()?;
        if self.held.is_some() {
            return Err(Memory);
        }
        let Some(full) = self.full.after(&self.word, item) else {
            return Err(Memory);
        };
        let added = Addition {
            place,
            note: full.again(),
        };
        put(&mut self.copies, &mut self.held, added);
        self.full = full;
        Ok(())
    }

    /// Shows readers all that was appended. May wait for readers. At `Err` they see what they saw.
    pub fn publish<R: Wait>(&mut self, rt: &R) -> Result<(), Memory>
        ensures ok { OnOk result (self.new ≡ record self.old { published = self.old.full }) }
        ensures err { OnErr result (self.new ≡ self.old) }
    {
        self.settle()?;
        if self.held.is_some() {
            return Err(Memory);
        }
        let Publisher {
            copies,
            word: _,
            shown,
            full,
            held: _,
        } = self;
        show_in(rt, copies, full)?;
        *shown = full.again();
        Ok(())
    }

    /// What readers see, for a reader to learn.
    pub fn tell(&self) -> Note<E>
        ensures of { result.of ≡ self.now.of }
        ensures list { result.items ≡ self.now.published }
    {
        self.shown.again()
    }

    /// All that was appended, whether readers see it or not.
    pub fn note(&self) -> Note<E>
        ensures { result ≡ full_of self.now }
    {
        self.full.again()
    }

    /// Ends the publisher. May wait for readers.
    pub fn close<R: Wait>(self, rt: &R) {
        let Publisher {
            copies,
            word: _word,
            shown: _shown,
            full: _full,
            held: _held,
        } = self;
        copies.take(rt);
    }
}
