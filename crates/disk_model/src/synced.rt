//! Which changes of a record are durable, found in one pass from its end.
ghost use Rattle.std.specs.Prelude.{◌≡◌, ◌||◌, ◌&&◌, ◌==◌, ℕ, [], ◌∷◌, false, get_or, IfOk, OnOk};
ghost use Rattle.std.specs.List.{list_any};
ghost use Rattle.disk_model.specs.Changes.{is_kind, is_pending, keeps_file};
ghost use Rattle.disk_model.specs.steps.Pending.{pending_of};
ghost use Rattle.disk_model.specs.steps.Synced.{is_marked, Marks};
ghost use Rattle.disk_model.specs.declared.kind.Kind.{Kind};

use crate::Kind;
use crate::change::Change;
use capture::Memory;
use std::alloc::Global;

/// The files that are synced by the changes seen so far, by their numbers.
#[derive(Drop)]
pub struct Synced {
    warc: Vec<bool>,
    cdxj: Vec<bool>,
}

impl Synced {
    /// No file at all.
    fn none(alloc: Global) -> Synced
        ensures { Marks result [] }
    {
        Synced {
            warc: Vec::new(alloc),
            cdxj: Vec::new(alloc),
        }
    }

    /// Whether the file is one of them.
    fn has(&self, kind: Kind, file: u32) -> bool
        ensures { result ≡ is_marked self.now kind file }
    {
        match kind {
            Kind::Warc => is_in(self.warc.as_slice(), file),
            Kind::Cdxj => is_in(self.cdxj.as_slice(), file),
        }
    }

    /// The file becomes one of them.
    fn add(&mut self, kind: Kind, file: u32) -> Result<(), Memory>
        ensures { OnOk result ((k : Kind) (f : ℕ) → is_marked self.new k f ≡
            ((is_kind k kind && (f == file)) || is_marked self.old k f)) }
    {
        match kind {
            Kind::Warc => add_to(&mut self.warc, file),
            Kind::Cdxj => add_to(&mut self.cdxj, file),
        }
    }

    /// Whether a change is pending, by the changes after it, which were seen before it.
    fn see(&mut self, change: &Change, later: &[Change]) -> Result<bool, Memory>
        requires { Marks self.old later.now }
        ensures pending { IfOk result (λ pending. pending ≡ is_pending change.now later.now) }
        ensures marks { OnOk result (Marks self.new (change.now ∷ later.now)) }
    {
        match change {
            Change::Wrote { kind, file, .. } => Ok(!self.has(*kind, *file)),
            Change::Shortened { kind, file, .. } => Ok(!self.has(*kind, *file)),
            Change::Made { .. } => Ok(false),
            Change::HalfMade { kind, file } => Ok(!keep(later, *kind, *file)),
            Change::Synced { kind, file } => {
                self.add(*kind, *file)?;
                Ok(false)
            }
        }
    }
}

/// Whether the file is marked.
fn is_in(marks: &[bool], file: u32) -> bool
    ensures { result ≡ get_or marks.now file false }
{
    let number = file as usize;
    number < marks.len() && marks[number]
}

/// Marks a file.
fn add_to(marks: &mut Vec<bool>, file: u32) -> Result<(), Memory>
    ensures { OnOk result ((f : ℕ) → get_or marks.new.items f false ≡
        ((f == file) || get_or marks.old.items f false)) }
{
    let number = file as usize;
    while marks.len() <= number {
        marks.push(false)?;
    }
    marks[number] = true;
    Ok(())
}

/// Whether one of the changes keeps a file that was half made: it makes a later file of the kind, or syncs it or a later one.
fn keep(changes: &[Change], kind: Kind, file: u32) -> bool
    ensures { result ≡ list_any (keeps_file kind file) changes.now }
{
    for change in changes {
        if keeps(change, kind, file) {
            return true;
        }
    }
    false
}

/// Whether the change keeps a file that was half made.
fn keeps(change: &Change, kind: Kind, file: u32) -> bool
    ensures { result ≡ keeps_file kind file change.now }
{
    match change {
        Change::Made { kind: made } => is_same(kind, *made),
        Change::Synced {
            kind: synced,
            file: number,
        } => is_same(kind, *synced) && file <= *number,
        Change::Wrote { .. } => false,
        Change::Shortened { .. } => false,
        Change::HalfMade { .. } => false,
    }
}

/// Whether two kinds are one.
fn is_same(kind: Kind, other: Kind) -> bool
    ensures { result ≡ is_kind kind other }
{
    match kind {
        Kind::Warc => match other {
            Kind::Warc => true,
            Kind::Cdxj => false,
        },
        Kind::Cdxj => match other {
            Kind::Warc => false,
            Kind::Cdxj => true,
        },
    }
}

/// Whether each change of a record is pending.
pub fn pending_marks(alloc: Global, changes: &[Change]) -> Result<Vec<bool>, Memory>
    ensures { IfOk result (λ marks. marks.items ≡ pending_of changes.now) }
{
    let mut synced = Synced::none(alloc);
    let mut marks = vec![in alloc; false; changes.len()]?;
    let mut i = changes.len();
    while i > 0 {
        i -= 1;
        marks[i] = synced.see(&changes[i], &changes[i + 1..])?;
    }
    Ok(marks)
}
