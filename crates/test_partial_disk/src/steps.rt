//! What stops leave of the volumes of an archive, behind steps of their journal of which calls fail.
use crate::partial_disk::PartialDisk;
use disk_model::Kind;
use std::alloc::{AllocError, Global};
use std::test::Fail;
use warc_journal::{Extent, Further, Journal};

/// What is done to a journal: a text is added, a volume is begun, or it is repaired.
#[derive(Clone, Copy)]
enum Step {
    Append,
    Roll,
    Repair,
}

/// Does it, and answers whether that was done.
fn does(journal: &mut Journal<PartialDisk>, step: Step) -> bool {
    if journal.volumes() == 0 || journal.volumes() > 9 || journal.last_len() > 99 {
        return false;
    }
    match step {
        Step::Append => journal.append(b"Wef").is_ok(),
        Step::Roll => journal.roll(b"Wi2").is_ok(),
        Step::Repair => journal.repair().is_ok(),
    }
}

type Texts = &'static [&'static [u8]];

/// The texts of two volumes.
static FIRST: [&[u8]; 2] = [b"Wi0Wab", b"Wi1Wcd"];

/// The texts after an append.
static APPENDED: [&[u8]; 2] = [b"Wi0Wab", b"Wi1WcdWef"];

/// The texts after a roll.
static ROLLED: [&[u8]; 3] = [b"Wi0Wab", b"Wi1Wcd", b"Wi2"];

/// The texts after two appends.
static APPENDED_TWICE: [&[u8]; 2] = [b"Wi0Wab", b"Wi1WcdWefWef"];

/// The texts after two rolls.
static ROLLED_TWICE: [&[u8]; 4] = [b"Wi0Wab", b"Wi1Wcd", b"Wi2", b"Wi2"];

/// The texts after an append and a roll.
static APPENDED_AND_ROLLED: [&[u8]; 3] = [b"Wi0Wab", b"Wi1WcdWef", b"Wi2"];

/// The texts after a roll and an append.
static ROLLED_AND_APPENDED: [&[u8]; 3] = [b"Wi0Wab", b"Wi1Wcd", b"Wi2Wef"];

/// The texts after two steps, of which each was done or not.
fn texts_after(first: Option<Step>, second: Option<Step>) -> Texts {
    match (first, second) {
        (Some(Step::Append), Some(Step::Append)) => &APPENDED_TWICE,
        (Some(Step::Append), Some(Step::Roll)) => &APPENDED_AND_ROLLED,
        (Some(Step::Roll), Some(Step::Append)) => &ROLLED_AND_APPENDED,
        (Some(Step::Roll), Some(Step::Roll)) => &ROLLED_TWICE,
        (Some(Step::Append), _) => &APPENDED,
        (Some(Step::Roll), _) => &ROLLED,
        (_, Some(Step::Append)) => &APPENDED,
        (_, Some(Step::Roll)) => &ROLLED,
        (_, _) => &FIRST,
    }
}

/// Whether nothing or an unfinished tail stands there; where bytes are given, whether just these do.
fn stands_there(rest: &[u8], just: Option<&[u8]>) -> bool {
    match just {
        Some(bytes) => rest == bytes,
        None => rest.len() < 2 || rest[0] != b'W',
    }
}

/// Whether the files hold the texts, followed by nothing or a tail, or by just these bytes.
fn hold(disk: &PartialDisk, texts: Texts, just: Option<&[u8]>) -> bool {
    let further = just.map(|_| b"".as_slice());
    let mut holds = disk.count() >= texts.len()
        && disk.count() <= texts.len() + 1
        && stands_there(disk.bytes(texts.len()), further);
    for (volume, text) in texts.iter().enumerate() {
        let is_last = volume + 1 == texts.len();
        holds = holds
            && match disk.bytes(volume).split_at_checked(text.len()) {
                Some((front, rest)) if is_last => front == *text && stands_there(rest, just),
                Some((front, rest)) => front == *text && rest.is_empty(),
                None => false,
            };
    }
    holds
}

/// The journal that is opened over a disk which holds the texts, with what may stand behind them.
fn journal_over(disk: PartialDisk, texts: Texts) -> Journal<PartialDisk> {
    let end = match texts.last() {
        Some(text) => text.len() as u64,
        None => 0,
    };
    let further = if disk.count() > texts.len() {
        Further::Unknown
    } else {
        Further::Absent
    };
    let found = Extent {
        volumes: u32::try_from(texts.len()).unwrap_or(0),
        end,
        is_dirty: true,
        further,
    };
    Journal::over(disk, found)
}

/// The first of these texts that the files hold.
fn held(disk: &PartialDisk, allowed: &[Texts]) -> Option<Texts> {
    for texts in allowed {
        if hold(disk, texts, None) {
            return Some(texts);
        }
    }
    None
}

/// Whether a text can be added to a disk that holds some of these texts, and nothing else stands behind it then.
fn goes_on(disk: PartialDisk, allowed: &[Texts]) -> bool {
    let Some(texts) = held(&disk, allowed) else {
        return false;
    };
    let mut journal = journal_over(disk, texts);
    does(&mut journal, Step::Append) && hold(journal.disk(), texts, Some(b"Wef"))
}

/// Whether each stop leaves some of these texts, to which a text can be added then.
fn leaves(disk: &PartialDisk, allowed: &[Texts]) -> Result<bool, AllocError> {
    let mut is_left = true;
    for choice in 0..10 {
        let stopped = disk.stopped(choice)?;
        is_left = goes_on(stopped, allowed) && is_left;
    }
    Ok(is_left)
}

/// What the file of the last volume holds, and a further file, if there is one.
type Behind = (&'static [u8], Option<&'static [u8]>);

/// Nothing or a tail behind the texts of two volumes.
static ROWS: [Behind; 7] = [
    (b"Wi1Wcd", None),
    (b"Wi1Wcd", Some(b"")),
    (b"Wi1Wcd-xy", None),
    (b"Wi1WcdW", None),
    (b"Wi1Wcd", Some(b"-")),
    (b"Wi1Wcd-x", Some(b"W")),
    (b"Wi1Wcd-x", Some(b"")),
];

/// A disk with two volumes and perhaps a further file, whose calls of these numbers fail.
fn disk_with(
    alloc: Global,
    (last, further): Behind,
    fails: (u64, u64),
) -> Result<PartialDisk, AllocError> {
    let mut disk = PartialDisk::new(alloc, Kind::Warc, fails);
    disk.add(FIRST[0])?;
    disk.add(last)?;
    if let Some(bytes) = further {
        disk.add(bytes)?;
    }
    Ok(disk)
}

/// Does two steps, and answers whether each stop after either leaves the texts of the last step that was done, or those
/// of one that was refused since, and those alone once a step was done.
fn keeps_texts(disk: PartialDisk, first: Step, second: Step) -> Result<bool, AllocError> {
    let mut journal = journal_over(disk, &FIRST);
    let done = does(&mut journal, first).then_some(first);
    let seen = texts_after(done, None);
    let tried = texts_after(Some(first), None);
    if !leaves(journal.disk(), &[seen, tried])? {
        return Ok(false);
    }
    let again = does(&mut journal, second).then_some(second);
    let seen = texts_after(done, again);
    let after = texts_after(done, Some(second));
    if again.is_some() {
        return Ok(hold(journal.disk(), seen, Some(b"")) && leaves(journal.disk(), &[seen])?);
    }
    leaves(journal.disk(), &[seen, tried, after])
}

/// Two steps of which a first or a second call fails.
static PAIRS: [(Step, Step); 7] = [
    (Step::Append, Step::Append),
    (Step::Append, Step::Roll),
    (Step::Append, Step::Repair),
    (Step::Roll, Step::Append),
    (Step::Roll, Step::Roll),
    (Step::Roll, Step::Repair),
    (Step::Repair, Step::Append),
];

/// The number of the first call that fails where two steps don't keep the texts, whichever fails behind it. None where they do.
fn lost_at(
    alloc: Global,
    behind: Behind,
    (first, second): (Step, Step),
) -> Result<Option<u64>, AllocError> {
    for fails in 0..24 {
        for later in [1, 99] {
            let disk = disk_with(alloc, behind, (fails, fails + later))?;
            if !keeps_texts(disk, first, second)? {
                return Ok(Some(fails));
            }
        }
    }
    Ok(None)
}

/// Whichever call fails, the texts before or after stand on the disk, and the next call goes on from them.
#[test]
fn each_failing_call_keeps_the_texts(rt: HostRuntime) -> Result<(), Fail> {
    for (row, behind) in ROWS.iter().enumerate() {
        for (number, pair) in PAIRS.iter().enumerate() {
            let lost = lost_at(rt.alloc(), *behind, *pair)?;
            assert!(rt; lost.is_none(), "row {row}, pair {number}: {lost:?}");
        }
    }
    Ok(())
}
