//! How entries are put into a history.
ghost use Rattle.std.specs.Prelude.{◌≡◌, ◌+◌, ◌≤◌, ◌++◌, map, vec_len};
ghost use Rattle.std.specs.Vec.{vec_capacity};
ghost use Rattle.vault_turns.specs.Noting.{GainsCapture, Notes, Noting, beginning, failing};

use crate::noted::{Kind, Noted};
use archive_shelf::{Receipt, StoreFault};
use capture::Taken;
use std::snapshot::Snapshot;

/// An entry without its bytes.
pub(crate) fn note(by: u32, kind: Kind) -> Snapshot<Noted>
    ensures { result.value ≡ record { by = by; kind = kind } }
{
    let noted = Noted { by, kind };
    Snapshot::of(&noted)
}

/// Notes that a volume was begun, where one was.
fn note_beginning(history: &mut Vec<Snapshot<Noted>>, by: u32, at: u64, began: bool)
    requires room { vec_len history.old + 2 ≤ vec_capacity history.old }
    ensures notes { map (λ s. s.value) history.new.items ≡ map (λ s. s.value) history.old.items ++ beginning by at began }
    ensures room { vec_len history.new + 1 ≤ vec_capacity history.new }
{
    if began {
        history.push_reserved(note(by, Kind::Began(at)));
    }
}

/// Notes that the disk failed, where it did.
pub(crate) fn note_fault(history: &mut Vec<Snapshot<Noted>>, by: u32, failed: bool)
    requires room { vec_len history.old + 1 ≤ vec_capacity history.old }
    ensures { map (λ s. s.value) history.new.items ≡ map (λ s. s.value) history.old.items ++ failing by failed }
{
    if failed {
        history.push_reserved(note(by, Kind::Failed));
    }
}

/// Notes that a capture was stored.
fn note_capture(history: &mut Vec<Snapshot<Noted>>, by: u32, taken: &Taken, same: Option<u32>)
    requires room { vec_len history.old + 1 ≤ vec_capacity history.old }
    ensures { GainsCapture by taken.now same (map (λ s. s.value) history.old.items) (map (λ s. s.value) history.new.items) }
{
    history.push_reserved(note(by, Kind::Stored(Snapshot::of(taken), same)));
}

/// Notes what a store answered, which began a volume or didn't.
#[tactic(auto, using(crate::proofs::NotingLaws::notes_capture, crate::proofs::NotingLaws::notes_fault, crate::proofs::NotingLaws::notes_none))]
pub(crate) fn note_store(
    history: &mut Vec<Snapshot<Noted>>,
    by: u32,
    taken: &Taken,
    began: bool,
    answer: &Result<Receipt, StoreFault>,
)
    requires room { vec_len history.old + 2 ≤ vec_capacity history.old }
    ensures { Noting (map (λ s. s.value) history.old.items) (map (λ s. s.value) history.new.items) (λ added. Notes by taken.now began answer.now added) }
{
    match answer {
        Ok(receipt) => {
            note_beginning(history, by, taken.date, began);
            note_capture(history, by, taken, receipt.same_as);
        }
        Err(StoreFault::DiskFault) => {
            note_beginning(history, by, taken.date, began);
            note_fault(history, by, true);
        }
        Err(StoreFault::Full { count: _, limit: _ }) => {}
        Err(
            StoreFault::Damaged {
                number: _,
                kept: _,
                found: _,
            },
        ) => {}
        Err(StoreFault::Memory) => {}
    }
}
