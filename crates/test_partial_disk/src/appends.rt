//! Texts that are added to a file behind a commit byte, of which a call fails, and how many calls they take.
ghost use Rattle.std.specs.Prelude.{◌≡◌};

use crate::partial_disk::PartialDisk;
use disk_model::Kind;
use gated_file::GatedFile;
use std::alloc::{AllocError, Global};
use std::test::Fail;

/// A file whose finished text is `Wab`.
fn file_of_three(is_dirty: bool) -> GatedFile
    ensures commit { result.commit ≡ 87 }
    ensures end { result.end ≡ 3 }
{
    GatedFile {
        kind: Kind::Warc,
        file: 0,
        commit: b'W',
        end: 3,
        is_dirty,
    }
}

/// A disk whose one file, of this kind, holds these bytes and is synced, and whose call of this number fails.
fn disk_of(alloc: Global, kind: Kind, bytes: &[u8], fails: u64) -> Result<PartialDisk, AllocError> {
    let mut disk = PartialDisk::new(alloc, kind, (fails, fails));
    disk.add(bytes)?;
    Ok(disk)
}

/// Whether a read of the disk's file gives this, and that was there at the last sync that succeeded.
fn holds(disk: &PartialDisk, reading: &[u8], synced: &[u8]) -> bool {
    disk.bytes(0) == reading && disk.synced(0) == synced
}

/// What a file holds, to which `Wcd` is added, and the number of the call that fails; then what a read gives, and what
/// was there at the last sync that succeeded.
type Row = (&'static [u8], u64, &'static [u8], &'static [u8]);

/// Appends of which one call fails, or none.
static ROWS: [Row; 26] = [
    // A clean file: `-`, the rest and the commit byte, each with its sync.
    (b"Wab", 0, b"Wab-", b"Wab"),
    (b"Wab", 1, b"Wab-", b"Wab"),
    (b"Wab", 2, b"Wab-c", b"Wab-"),
    (b"Wab", 3, b"Wab-cd", b"Wab-"),
    (b"Wab", 4, b"WabWcd", b"Wab-cd"),
    (b"Wab", 5, b"WabWcd", b"Wab-cd"),
    // A tail behind the text: a sync, its length, its first byte, a cut and a sync, and then the three steps.
    (b"Wab-xyz", 0, b"Wab-xyz", b"Wab-xyz"),
    (b"Wab-xyz", 1, b"Wab-xyz", b"Wab-xyz"),
    (b"Wab-xyz", 2, b"Wab-xyz", b"Wab-xyz"),
    (b"Wab-xyz", 3, b"Wab-x", b"Wab-xyz"),
    (b"Wab-xyz", 4, b"Wab", b"Wab-xyz"),
    (b"Wab-xyz", 5, b"Wab-", b"Wab"),
    // A commit byte alone is a tail that isn't read.
    (b"WabW", 1, b"WabW", b"WabW"),
    (b"WabW", 2, b"WabW", b"WabW"),
    (b"WabW", 3, b"Wab", b"WabW"),
    (b"WabW", 4, b"Wab-", b"Wab"),
    // A whole text behind the finished one: its commit byte is written over and that is synced before the cut. Where
    // that sync fails the byte is put back.
    (b"WabWxyz", 2, b"WabWxyz", b"WabWxyz"),
    (b"WabWxyz", 3, b"Wab-xyz", b"WabWxyz"),
    (b"WabWxyz", 4, b"WabWxyz", b"WabWxyz"),
    (b"WabWxyz", 5, b"Wab-x", b"Wab-xyz"),
    (b"WabWxyz", 6, b"Wab", b"Wab-xyz"),
    (b"WabWxyz", 7, b"Wab-", b"Wab"),
    (b"WabWxyz", 9, b"Wab-c", b"Wab-"),
    (b"WabWxyz", 12, b"WabWcd", b"Wab-cd"),
    // No call fails.
    (b"Wab", 99, b"WabWcd", b"WabWcd"),
    (b"WabWxyz", 99, b"WabWcd", b"WabWcd"),
];

/// Whether the append of a row leaves what it says, and the next one just its text behind what is finished.
fn is_left_and_mended(
    alloc: Global,
    (first, fails, reading, synced): &Row,
) -> Result<bool, AllocError> {
    let mut disk = disk_of(alloc, Kind::Warc, first, *fails)?;
    let mut file = file_of_three(first.len() > 3);
    let is_added = file.append(&mut disk, b"Wcd").is_ok();
    let is_left = holds(&disk, reading, synced);
    let is_again = file.append(&mut disk, b"We").is_ok();
    let whole: &[u8] = if is_added { b"WabWcdWe" } else { b"WabWe" };
    Ok(is_left && is_again && holds(&disk, whole, whole))
}

/// Whichever call of an append fails, the file is mended by the next.
#[test]
fn each_failing_call_leaves_a_file_that_is_mended(rt: HostRuntime) -> Result<(), Fail> {
    for (number, row) in ROWS.iter().enumerate() {
        assert!(rt; is_left_and_mended(rt.alloc(), row)?, "row {number}");
    }
    Ok(())
}

/// Whether what stands behind the text is taken away by a second call, where one of the first fails.
fn is_mended_again(disk: &mut PartialDisk) -> bool {
    let mut file = file_of_three(true);
    if file.mend(disk).is_ok() || file != file_of_three(true) {
        return false;
    }
    if file.mend(disk).is_err() || file != file_of_three(false) {
        return false;
    }
    disk.bytes(0) == b"Wab".as_slice() && disk.calls() == 9
}

/// What stands behind the text is taken away.
#[test]
fn a_file_is_mended(rt: HostRuntime) -> Result<(), Fail> {
    let mut disk = disk_of(rt.alloc(), Kind::Warc, b"WabWxyz", 3)?;
    assert!(rt; is_mended_again(&mut disk));
    Ok(())
}

/// Whether a long text is added to an empty file in six calls.
fn is_added_in_six_calls(alloc: Global, disk: &mut PartialDisk) -> Result<bool, AllocError> {
    let mut file = GatedFile {
        kind: Kind::Cdxj,
        file: 0,
        commit: b'!',
        end: 0,
        is_dirty: false,
    };
    let mut text = vec![in alloc; 0; 200_000]?;
    text[0] = b'!';
    let is_added = file.append(disk, text.as_slice()).is_ok();
    Ok(is_added && disk.synced(0) == text.as_slice() && file.end == 200_000 && disk.calls() == 6)
}

/// A long text takes as many calls as a short one.
#[test]
fn a_long_text_is_added_in_six_calls(rt: HostRuntime) -> Result<(), Fail> {
    let mut disk = disk_of(rt.alloc(), Kind::Cdxj, b"", 99)?;
    assert!(rt; is_added_in_six_calls(rt.alloc(), &mut disk)?);
    Ok(())
}
