//! What a check of an archive's volumes has found so far, and how that is told.
ghost use Rattle.std.specs.Prelude.{◌≡◌, ◌∷◌, ◌++◌, ◌||◌, if◌then◌else◌, [], false, OnOk, decimal};
ghost use Rattle.httparse.specs.Ascii.{line_feed};
ghost use Rattle.verifying.specs.Verifies as spec;

use capture::{Memory, put_all, put_number};
use command::{Status, file_name};
use disk_model::Kind;
use fixity::Verdict;
use std::alloc::Global;

/// What a check has found so far.
#[derive(Drop)]
pub struct Report {
    /// A line for each volume that was checked.
    pub lines: Vec<u8>,
    /// Whether one of them is damaged.
    pub damaged: bool,
}

impl Report {
    /// Nothing yet.
    pub fn new(alloc: Global) -> Report
        ensures lines { result.lines.items ≡ [] }
        ensures damaged { result.damaged ≡ false }
    {
        Report {
            lines: Vec::new(alloc),
            damaged: false,
        }
    }

    /// Notes the verdict on a volume.
    pub fn note(&mut self, volume: u32, verdict: Verdict) -> Result<(), Memory>
        ensures lines { OnOk result (self.new.lines.items ≡ self.old.lines.items ++ spec.verdict_line volume verdict) }
        ensures damaged { OnOk result (self.new.damaged ≡ (spec.is_damaged verdict || self.old.damaged)) }
    {
        put_line(&mut self.lines, volume, verdict)?;
        match verdict {
            Verdict::Sound { .. } => {}
            Verdict::Damaged { .. } => self.damaged = true,
        }
        Ok(())
    }

    /// The status that tells of it.
    pub fn status(&self) -> Status
        ensures { result ≡ (if self.now.damaged then Status.Archive else Status.Done) }
    {
        if self.damaged {
            Status::Archive
        } else {
            Status::Done
        }
    }
}

/// Puts the line of a volume: the name of its file, and the verdict on it.
#[tactic(auto, unfolding(crate::specs::Verifies::verdict_line))]
fn put_line(out: &mut Vec<u8>, volume: u32, verdict: Verdict) -> Result<(), Memory>
    ensures { OnOk result (out.new.items ≡ out.old.items ++ spec.verdict_line volume verdict) }
{
    let name = file_name(*out.allocator(), Kind::Warc, volume)?;
    put_all(out, name.as_str().as_bytes())?;
    match verdict {
        Verdict::Sound { bytes } => end_line(out, b" sound ", bytes),
        Verdict::Damaged { place } => end_line(out, b" damaged ", place),
    }
}

/// Ends a line by some words and a number.
fn end_line(out: &mut Vec<u8>, words: &[u8], number: u64) -> Result<(), Memory>
    ensures { OnOk result (out.new.items ≡ out.old.items ++ words.now ++ decimal number ++ (line_feed ∷ [])) }
{
    put_all(out, words)?;
    put_number(out, number)?;
    put_all(out, b"\n")
}
