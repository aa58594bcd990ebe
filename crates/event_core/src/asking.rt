//! Events that ask something of an archive.
ghost use Rattle.std.specs.Prelude.{◌≡◌, true, List, ℕ};
ghost use Rattle.capture.specs.Faults.{RoseBy};
ghost use Rattle.capture.specs.declared.limits.Limits.{Limits};
ghost use Rattle.time_text.specs.Texts.{InRange};
ghost use Rattle.warc_journal.specs.Journals.{disk_of};
ghost use Rattle.warc_text.specs.Fits.{Fits};
ghost use Rattle.archive_core.specs.Told.{told_of};
ghost use Rattle.event_core.specs.Faults.{reply_faults};
ghost use Rattle.event_core.specs.declared.event.Event.TheVariants as events;
ghost use Rattle.event_core.specs.steps.Standing.{GoesOn};

use crate::{EventFault, Reply};
use archive_core::Archive;
use archive_settling::settling_keeps_checkpoints_right;
use archive_shelf::{Shelf, captures_are_stored_one_way};
use archive_taking::roll;
use capture::{Items, Taken};
use checkpoint::volumes_have_one_list_of_lines;
use disk_model::Disk;
use std::alloc::Global;
use surt_key::Key;

/// Stores a capture.
pub(crate) fn store_event<S: Shelf>(alloc: Global, shelf: &mut S, taken: &Taken) -> Reply
    requires { Fits taken.now }
    ensures goes_on { S.alone ≡ true → (limits : Limits) (namespace : List ℕ) → GoesOn limits namespace (S.told shelf.old) (S.told shelf.new) (events.Store taken.now) result }
    ensures faults { RoseBy (reply_faults result) (S.told shelf.old).faults (S.told shelf.new).faults }
{
    captures_are_stored_one_way();
    match shelf.store(alloc, taken) {
        Ok(receipt) => Reply::Stored(receipt),
        Err(fault) => Reply::Refused(EventFault::Store(fault)),
    }
}

/// Brings a capture.
pub(crate) fn bring_event<S: Shelf>(alloc: Global, shelf: &mut S, number: u32) -> Reply
    ensures goes_on { S.alone ≡ true → (limits : Limits) (namespace : List ℕ) → GoesOn limits namespace (S.told shelf.old) (S.told shelf.new) (events.Bring number) result }
    ensures faults { RoseBy (reply_faults result) (S.told shelf.old).faults (S.told shelf.new).faults }
{
    match shelf.bring(alloc, number) {
        Ok(brought) => Reply::Brought(brought),
        Err(fault) => Reply::Refused(EventFault::Bring(fault)),
    }
}

/// Looks the nearest entry up.
pub(crate) fn date_event<S: Shelf>(alloc: Global, shelf: &mut S, key: &Key, time: u64) -> Reply
    ensures goes_on { S.alone ≡ true → (limits : Limits) (namespace : List ℕ) → GoesOn limits namespace (S.told shelf.old) (S.told shelf.new) (events.ByDate key.now time) result }
    ensures faults { RoseBy (reply_faults result) (S.told shelf.old).faults (S.told shelf.new).faults }
{
    match shelf.by_date(alloc, key, time) {
        Ok(found) => Reply::Found(found),
        Err(memory) => Reply::Refused(EventFault::Query(memory)),
    }
}

/// Looks the entries of a key up.
pub(crate) fn map_event<S: Shelf>(alloc: Global, shelf: &mut S, key: &Key) -> Reply
    ensures goes_on { S.alone ≡ true → (limits : Limits) (namespace : List ℕ) → GoesOn limits namespace (S.told shelf.old) (S.told shelf.new) (events.Map key.now) result }
    ensures faults { RoseBy (reply_faults result) (S.told shelf.old).faults (S.told shelf.new).faults }
{
    match shelf.map(alloc, key) {
        Ok(entries) => Reply::Mapped(Items::of(entries)),
        Err(memory) => Reply::Refused(EventFault::Query(memory)),
    }
}

/// Asks for a volume.
pub(crate) fn roll_event<D: Disk>(alloc: Global, archive: &mut Archive<D>, now: u64) -> Reply
    requires { InRange now }
    ensures goes_on { (limits : Limits) (namespace : List ℕ) → GoesOn limits namespace (told_of D.Disk archive.old) (told_of D.Disk archive.new) (events.Roll now) result }
    ensures faults { RoseBy (reply_faults result) (D.faults (disk_of archive.old.journal)) (D.faults (disk_of archive.new.journal)) }
{
    let answer = roll(alloc, archive, now);
    archive.shows_its_book();
    match answer {
        Ok(()) => Reply::Rolled,
        Err(fault) => Reply::Refused(EventFault::Roll(fault)),
    }
}

/// Writes the checkpoints that are missing.
pub(crate) fn settle_event<D: Disk>(alloc: Global, archive: &mut Archive<D>) -> Reply
    ensures goes_on { (limits : Limits) (namespace : List ℕ) → GoesOn limits namespace (told_of D.Disk archive.old) (told_of D.Disk archive.new) events.Settle result }
    ensures faults { RoseBy (reply_faults result) (D.faults (disk_of archive.old.journal)) (D.faults (disk_of archive.new.journal)) }
{
    volumes_have_one_list_of_lines();
    settling_keeps_checkpoints_right();
    let answer = archive.settle(alloc);
    archive.shows_its_book();
    match answer {
        Ok(written) => Reply::Settled(written),
        Err(fault) => Reply::Refused(EventFault::Settle(fault)),
    }
}
