//! A group that is read by its place.
ghost use Rattle.std.specs.Prelude.{◌+◌, ◌<◌, ◌≤◌, IfOk, IsTrue, length};
ghost use Rattle.warc_journal.specs.Extents.{warc_files};
ghost use Rattle.warc_journal.specs.Journals.{IsInStep, disk_of};
ghost use Rattle.volume_scan.specs.Unread.{file_at};

use crate::opening::{group_told, put_fault, put_text};
use capture::Memory;
use case_language::TextWords;
use case_steps::Outcome;
use disk_model::Disk;
use std::alloc::Global;
use uuid::Uuid;
use volume_scan::{ScanFault, group_at};
use warc_journal::{DiskFault, Journal, Place};

/// A place of a volume's file, and the group that is to stand there.
#[derive(Clone, Copy)]
struct Asked {
    place: Place,
    number: u32,
    namespace: Uuid,
}

/// Tells the group that stands at a place, or why none is read. The text is `VOLUME PLACE LENGTH NUMBER NAMESPACE`.
pub fn put_group<D: Disk>(
    alloc: Global,
    outcome: &mut Outcome,
    journal: &mut Journal<D>,
    text: &[u8],
) -> Result<(), Memory>
    requires { IsTrue D.tells → IsInStep D.Disk journal.old }
    ensures { IsTrue D.tells → IsInStep D.Disk journal.new }
{
    match asked_in(text) {
        Some(asked) => put_asked(alloc, outcome, journal, &asked),
        None => outcome.put_found(alloc, "no group asked for"),
    }
}

/// Tells the group that is asked for, `no range` where the file has no such place.
fn put_asked<D: Disk>(
    alloc: Global,
    outcome: &mut Outcome,
    journal: &mut Journal<D>,
    asked: &Asked,
) -> Result<(), Memory>
    requires { IsTrue D.tells → IsInStep D.Disk journal.old }
    ensures { IsTrue D.tells → IsInStep D.Disk journal.new }
{
    match has_place(journal, asked.place) {
        Ok(true) => put_read(alloc, outcome, journal, asked),
        Ok(false) => outcome.put_found(alloc, "no range"),
        Err(DiskFault) => put_fault(alloc, outcome, ScanFault::DiskFault),
    }
}

/// Tells the group that is asked for, with its own length.
fn put_read<D: Disk>(
    alloc: Global,
    outcome: &mut Outcome,
    journal: &mut Journal<D>,
    asked: &Asked,
) -> Result<(), Memory>
    requires in_step { IsTrue D.tells → IsInStep D.Disk journal.old }
    requires there { IsTrue D.tells → asked.now.place.volume < length (warc_files (D.reading (disk_of journal.old))) }
    requires within { IsTrue D.tells → asked.now.place.at + asked.now.place.len
        ≤ length (file_at (warc_files (D.reading (disk_of journal.old))) asked.now.place.volume) }
    ensures { IsTrue D.tells → IsInStep D.Disk journal.new }
{
    let place = asked.place;
    match group_at(alloc, journal, place, &asked.namespace, asked.number) {
        Ok(group) => {
            let place = Place {
                volume: place.volume,
                at: place.at,
                len: group.len,
            };
            put_text(alloc, outcome, group_told(alloc, place, group.number))
        }
        Err(fault) => put_fault(alloc, outcome, fault),
    }
}

/// Whether one of the volumes has the place.
fn has_place<D: Disk>(journal: &mut Journal<D>, place: Place) -> Result<bool, DiskFault>
    requires { IsTrue D.tells → IsInStep D.Disk journal.old }
    ensures in_step { IsTrue D.tells → IsInStep D.Disk journal.new }
    ensures there { IsTrue D.tells → IfOk result (λ has. IsTrue has
        → place.volume < length (warc_files (D.reading (disk_of journal.new)))) }
    ensures within { IsTrue D.tells → IfOk result (λ has. IsTrue has
        → place.at + place.len ≤ length (file_at (warc_files (D.reading (disk_of journal.new))) place.volume)) }
{
    if place.volume >= journal.volumes() {
        return Ok(false);
    }
    let Some(end) = place.at.checked_add(place.len) else {
        return Ok(false);
    };
    let len = journal.len(place.volume)?;
    Ok(end <= len)
}

/// What a text asks for.
fn asked_in(text: &[u8]) -> Option<Asked> {
    let mut words = TextWords::of(text);
    let place = Place {
        volume: words.small_number()?,
        at: words.number()?,
        len: words.number()?,
    };
    Some(Asked {
        place,
        number: words.small_number()?,
        namespace: namespace_in(words.rest)?,
    })
}

/// A namespace, as an id is written.
pub fn namespace_in(text: &[u8]) -> Option<Uuid> {
    let text = std::str::from_utf8(text).ok()?;
    Uuid::parse_str(text).ok()
}
