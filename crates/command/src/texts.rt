//! What is printed of an archive.
ghost use Rattle.std.specs.Prelude.{◌≡◌, ◌++◌, IfOk, OnOk, codes, string_bytes};
ghost use Rattle.command.specs.Texts as spec;

use archive_shelf::{Counts, ReopenFault};
use capture::{Memory, put_all, put_number};
use disk_model::Kind;
use std::alloc::{AllocError, Global};
use uuid::Uuid;

/// How much an archive holds.
#[tactic(auto, unfolding(crate::specs::Texts::counts_text))]
pub fn counts_text(alloc: Global, counts: &Counts) -> Result<Vec<u8>, Memory>
    ensures { IfOk result (λ text. text.items ≡ spec.counts_text counts.now) }
{
    let mut text = Vec::new(alloc);
    put_counts(&mut text, counts)?;
    put_all(&mut text, b"\n")?;
    Ok(text)
}

/// How many captures there are.
#[tactic(auto, unfolding(crate::specs::Texts::captures_line))]
pub fn captures_line(alloc: Global, count: u32) -> Result<Vec<u8>, Memory>
    ensures { IfOk result (λ text. text.items ≡ spec.captures_line count) }
{
    let mut text = Vec::new(alloc);
    put_all(&mut text, b"captures ")?;
    put_number(&mut text, u64::from(count))?;
    put_all(&mut text, b"\n")?;
    Ok(text)
}

/// How much an archive holds, and how many captures were brought back.
#[tactic(auto, unfolding(crate::specs::Texts::trial_text))]
pub fn trial_text(
    alloc: Global,
    counts: &Counts,
    bytes: u64,
    replayed: u32,
) -> Result<Vec<u8>, Memory>
    ensures { IfOk result (λ text. text.items ≡ spec.trial_text counts.now bytes replayed) }
{
    let mut text = Vec::new(alloc);
    put_counts(&mut text, counts)?;
    put_all(&mut text, b" bytes ")?;
    put_number(&mut text, bytes)?;
    put_all(&mut text, b" replayed ")?;
    put_number(&mut text, u64::from(replayed))?;
    put_all(&mut text, b"\n")?;
    Ok(text)
}

/// Puts how many captures, revisits and volumes there are.
#[tactic(auto, unfolding(crate::specs::Texts::counts_front))]
fn put_counts(text: &mut Vec<u8>, counts: &Counts) -> Result<(), Memory>
    ensures { OnOk result (text.new.items ≡ text.old.items ++ spec.counts_front counts.now) }
{
    put_all(text, b"captures ")?;
    put_number(text, u64::from(counts.captures))?;
    put_all(text, b" revisits ")?;
    put_number(text, u64::from(counts.revisits))?;
    put_all(text, b" volumes ")?;
    put_number(text, u64::from(counts.volumes))
}

/// Why an archive isn't opened. There is no memory for it where want of memory is why.
pub fn fault_text(alloc: Global, fault: &ReopenFault) -> Result<Vec<u8>, Memory>
    ensures { IfOk result (λ text. spec.IsFaultText fault.now text.items) }
{
    match fault {
        ReopenFault::Damaged { kind, file, place } => damage_text(alloc, *kind, *file, *place),
        ReopenFault::OtherNamespace(other) => other_text(alloc, other),
        ReopenFault::DiskFault => disk_fault_text(alloc),
        ReopenFault::Memory => Err(Memory),
    }
}

/// The file and the place in it where damage begins.
#[tactic(auto, unfolding(crate::specs::Texts::damage_text))]
fn damage_text(alloc: Global, kind: Kind, file: u32, place: u64) -> Result<Vec<u8>, Memory>
    ensures { IfOk result (λ text. text.items ≡ spec.damage_text kind file place) }
{
    let name = file_name(alloc, kind, file)?;
    let mut text = Vec::new(alloc);
    put_all(&mut text, b"damaged ")?;
    put_all(&mut text, name.as_str().as_bytes())?;
    put_all(&mut text, b" ")?;
    put_number(&mut text, place)?;
    put_all(&mut text, b"\n")?;
    Ok(text)
}

/// The namespace that the archive has in place of the one that was asked for.
#[tactic(auto, unfolding(crate::specs::Texts::other_text))]
fn other_text(alloc: Global, namespace: &Uuid) -> Result<Vec<u8>, Memory>
    ensures { IfOk result (λ text. text.items ≡ spec.other_text namespace.now) }
{
    let mut buffer = Uuid::encode_buffer();
    let written = namespace.hyphenated().encode_lower(&mut buffer);
    let mut text = Vec::new(alloc);
    put_all(&mut text, b"other namespace ")?;
    put_all(&mut text, written.as_bytes())?;
    put_all(&mut text, b"\n")?;
    Ok(text)
}

/// The line that tells that the disk failed.
fn disk_fault_text(alloc: Global) -> Result<Vec<u8>, Memory>
    ensures { IfOk result (λ text. text.items ≡ codes "disk fault\n") }
{
    let mut text = Vec::new(alloc);
    put_all(&mut text, b"disk fault\n")?;
    Ok(text)
}

/// The name of a file of the archive: `vol-`, its number in six digits or more, and its kind.
#[tactic(auto, using(crate::proofs::FileNames::padded_to_six), unfolding(crate::specs::Texts::file_name))]
pub fn file_name(alloc: Global, kind: Kind, file: u32) -> Result<String, AllocError>
    ensures { IfOk result (λ name. string_bytes name ≡ spec.file_name kind file) }
{
    let ending = ending_of(kind);
    format!(in alloc; "vol-{file:06}{ending}")
}

/// The ending of a kind of files.
#[tactic(auto, unfolding(crate::specs::Texts::ending_of))]
fn ending_of(kind: Kind) -> &'static str
    ensures { result.now ≡ spec.ending_of kind }
{
    match kind {
        Kind::Warc => ".warc",
        Kind::Cdxj => ".cdxj",
    }
}

/// Puts how many captures an archive holds that takes no more, and its limit.
#[tactic(auto, unfolding(crate::specs::Texts::full_line))]
pub fn put_full(out: &mut Vec<u8>, count: u32, limit: u32) -> Result<(), Memory>
    ensures { OnOk result (out.new.items ≡ out.old.items ++ spec.full_line count limit) }
{
    put_all(out, b"full ")?;
    put_number(out, u64::from(count))?;
    put_all(out, b" ")?;
    put_number(out, u64::from(limit))?;
    put_all(out, b"\n")
}

/// Which capture of the archive is damaged.
#[tactic(auto, unfolding(crate::specs::Texts::damaged_capture))]
pub fn damaged_capture(alloc: Global, number: u32) -> Result<Vec<u8>, Memory>
    ensures { IfOk result (λ text. text.items ≡ spec.damaged_capture number) }
{
    let mut text = Vec::new(alloc);
    put_all(&mut text, b"damaged capture ")?;
    put_number(&mut text, u64::from(number))?;
    put_all(&mut text, b"\n")?;
    Ok(text)
}
