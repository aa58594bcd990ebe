//! The line of a capture, by what its group tells.
ghost use Rattle.std.specs.Prelude.{◌≡◌, ℕ, List, IfOk, IfSome};
ghost use Rattle.archive_reading.specs.KeptGroups.{IsTold};
ghost use Rattle.warc_scan.specs.Groups.{IsGroup};
ghost use Rattle.warc_scan.specs.Outlines.{IsOutlineOf};
ghost use Rattle.warc_scan.specs.declared.group.Group.{Group};
ghost use Rattle.archive_volumes.specs.Entries.{IsToldAs};
ghost use Rattle.volume_lines.specs.OfGroups.{CanBeIn, IsLineToldOf, record_in};

use archive_volumes::{Asked, RecordAt, told_entry};
use capture::Memory;
use cdxj_line::Line;
use index_entry::Entry;
use std::alloc::Global;
use warc_scan::Outline;

/// The line of a capture of whose group this is told, and which begins at this place of its volume's text; none where its
/// target has no key.
pub(crate) fn line_of(
    alloc: Global,
    outline: Outline,
    volume: u32,
    at: u64,
) -> Result<Option<Line>, Memory>
    requires told { (namespace : List ℕ) × (number : ℕ) × (bytes : List ℕ) × IsTold namespace number bytes outline }
    ensures fit { IfOk result (λ line. IfSome line (CanBeIn volume outline.number)) }
    ensures line { (namespace : List ℕ) (number : ℕ) (bytes : List ℕ) (group : Group) → IsGroup namespace number bytes group → IsOutlineOf group outline
        → IfOk result (IsLineToldOf group volume at) }
{
    match entry_of(alloc, &outline, volume, at)? {
        Some(entry) => Ok(Some(entry.into_line(alloc, outline.method)?)),
        None => Ok(None),
    }
}

/// The entry of that capture; none where its target has no key.
fn entry_of(alloc: Global, outline: &Outline, volume: u32, at: u64) -> Result<Option<Entry>, Memory>
    requires { (namespace : List ℕ) × (number : ℕ) × (bytes : List ℕ) × IsTold namespace number bytes outline.now }
    ensures { (namespace : List ℕ) (number : ℕ) (bytes : List ℕ) (group : Group) → IsGroup namespace number bytes group
        → (of : IsOutlineOf group outline.now) → IfOk result (IsToldAs group.stored of.head_is.0 (record_in outline.now volume at)) }
{
    let asked = Asked {
        method: outline.method.as_slice(),
        uri: &outline.uri,
        date: outline.date,
        revisit: outline.same.is_some(),
    };
    let at = RecordAt {
        number: outline.number,
        digest: outline.digest,
        volume,
        offset: at,
        len: outline.first_len,
    };
    told_entry(alloc, &asked, &outline.head, at)
}
