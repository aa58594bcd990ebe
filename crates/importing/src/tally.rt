//! What an import has made so far, and how that is told.
ghost use Rattle.std.specs.Prelude.{◌≡◌, ◌++◌, ◌+◌, ◌<◌, ◌^◌, [], None, Some, IfOk, OnOk};
ghost use Rattle.command.specs.Texts as text;
ghost use Rattle.importing.specs.Texts as spec;

use archive_shelf::StoreFault;
use capture::{Memory, put_all, put_number};
use command::{damaged_capture, put_full};
use std::alloc::Global;
use warc_reader::{Reason, Skipped};

/// What an import has made so far.
#[derive(Drop)]
pub struct Tally {
    /// A line for each record that was skipped.
    pub lines: Vec<u8>,
    /// How many these are.
    pub skipped: u64,
    /// How many captures were stored.
    pub stored: u64,
    /// Why no more are stored.
    pub refused: Option<StoreFault>,
}

impl Tally {
    /// Nothing yet.
    pub fn new(alloc: Global) -> Tally
        ensures lines { result.lines.items ≡ [] }
        ensures skipped { result.skipped ≡ 0 }
        ensures stored { result.stored ≡ 0 }
        ensures refused { result.refused ≡ None }
    {
        Tally {
            lines: Vec::new(alloc),
            skipped: 0,
            stored: 0,
            refused: None,
        }
    }

    /// Notes a record that was skipped.
    pub fn skip(&mut self, skipped: &Skipped) -> Result<(), Memory>
        requires { self.old.skipped < 2 ^ 63 }
        ensures lines { OnOk result (self.new.lines.items ≡ self.old.lines.items ++ spec.skip_line skipped.now) }
        ensures count { OnOk result (self.new.skipped ≡ self.old.skipped + 1) }
        ensures same_stored { self.new.stored ≡ self.old.stored }
        ensures same_refused { self.new.refused ≡ self.old.refused }
    {
        put_skip(&mut self.lines, skipped)?;
        self.skipped += 1;
        Ok(())
    }
}

/// Puts the line of a record that was skipped.
#[tactic(auto, unfolding(crate::specs::Texts::skip_line))]
fn put_skip(out: &mut Vec<u8>, skipped: &Skipped) -> Result<(), Memory>
    ensures { OnOk result (out.new.items ≡ out.old.items ++ spec.skip_line skipped.now) }
{
    put_all(out, b"skipped ")?;
    put_number(out, skipped.at)?;
    put_all(out, b" ")?;
    put_all(out, reason_text(skipped.reason))?;
    put_all(out, b"\n")
}

/// Why a record gives no capture, in one word.
fn reason_text(reason: Reason) -> &'static [u8]
    ensures { result.now ≡ spec.reason_text reason }
{
    match reason {
        Reason::Revisit => b"revisit",
        Reason::ContentType => b"content-type",
        Reason::Target => b"target",
        Reason::Date => b"date",
        Reason::Message => b"message",
    }
}

/// Puts how many captures were stored and how many records skipped, and why no more were stored.
pub fn put_sums(
    out: &mut Vec<u8>,
    stored: u64,
    skipped: u64,
    refused: &Option<StoreFault>,
) -> Result<(), Memory>
    ensures { OnOk result (out.new.items ≡ out.old.items ++ (spec.summary_line stored skipped ++ spec.refusal_line refused.now)) }
{
    put_summary(out, stored, skipped)?;
    match refused {
        Some(fault) => put_refusal(out, fault),
        None => Ok(()),
    }
}

/// Puts how many captures were stored, and how many records skipped.
#[tactic(auto, unfolding(crate::specs::Texts::summary_line))]
fn put_summary(out: &mut Vec<u8>, stored: u64, skipped: u64) -> Result<(), Memory>
    ensures { OnOk result (out.new.items ≡ out.old.items ++ spec.summary_line stored skipped) }
{
    put_all(out, b"imported ")?;
    put_number(out, stored)?;
    put_all(out, b" skipped ")?;
    put_number(out, skipped)?;
    put_all(out, b"\n")
}

/// Puts why a capture was refused. There is no memory for it where want of memory is why.
fn put_refusal(out: &mut Vec<u8>, fault: &StoreFault) -> Result<(), Memory>
    ensures { OnOk result (out.new.items ≡ out.old.items ++ spec.refusal_line (Some fault.now)) }
{
    match fault {
        StoreFault::Full { count, limit } => put_full(out, *count, *limit),
        StoreFault::DiskFault => put_all(out, b"disk fault\n"),
        StoreFault::Damaged { number, .. } => put_damaged(out, *number),
        StoreFault::Memory => Err(Memory),
    }
}

/// Puts which capture of the archive is damaged.
fn put_damaged(out: &mut Vec<u8>, number: u32) -> Result<(), Memory>
    ensures { OnOk result (out.new.items ≡ out.old.items ++ text.damaged_capture number) }
{
    let text = damaged_capture(*out.allocator(), number)?;
    put_all(out, text.as_slice())
}

/// The place in an input at which no record stands.
#[tactic(auto, unfolding(crate::specs::Texts::damaged_input))]
pub fn damaged_input(alloc: Global, at: u64) -> Result<Vec<u8>, Memory>
    ensures { IfOk result (λ text. text.items ≡ spec.damaged_input at) }
{
    let mut text = Vec::new(alloc);
    put_all(&mut text, b"damaged input ")?;
    put_number(&mut text, at)?;
    put_all(&mut text, b"\n")?;
    Ok(text)
}
