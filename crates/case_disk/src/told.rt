//! What a step of a disk tells.
use capture::{Memory, put_number};
use case_steps::{Absent, Outcome};
use std::alloc::Global;

/// What a call of a disk answers, or why it wasn't made.
#[derive(Drop)]
pub enum Told {
    Done,
    Number(u64),
    Bytes(Vec<u8>),
    /// A volume is sound, and so long.
    Sound(u64),
    /// It is damaged at this place.
    Damaged(u64),
    /// The call failed.
    DiskFault,
    /// The call wasn't made, since the file or the range isn't there.
    Absent(Absent),
    /// There is no finished checkpoint of the volume.
    NoCheckpoint,
    /// The step is no call.
    Nothing,
}

impl Told {
    /// Puts a line `answer` that says it.
    pub fn put(&self, alloc: Global, outcome: &mut Outcome) -> Result<(), Memory> {
        match self {
            Told::Done => outcome.put_answer(alloc, b"done"),
            Told::Number(number) => put_count(alloc, outcome, *number),
            Told::Bytes(bytes) => outcome.put_answer(alloc, bytes.as_slice()),
            Told::Sound(bytes) => put_verdict(alloc, outcome, "sound", *bytes),
            Told::Damaged(place) => put_verdict(alloc, outcome, "damaged", *place),
            Told::DiskFault => outcome.put_answer(alloc, b"DiskFault"),
            Told::Absent(Absent::File) => outcome.put_answer(alloc, b"NoFile"),
            Told::Absent(Absent::Range) => outcome.put_answer(alloc, b"NoRange"),
            Told::NoCheckpoint => outcome.put_answer(alloc, b"none"),
            Told::Nothing => Ok(()),
        }
    }
}

/// Puts a line `answer` with a number.
fn put_count(alloc: Global, outcome: &mut Outcome, number: u64) -> Result<(), Memory> {
    let mut digits = Vec::new(alloc);
    put_number(&mut digits, number)?;
    outcome.put_answer(alloc, digits.as_slice())
}

/// Puts a line `answer` with what was found of a volume.
fn put_verdict(
    alloc: Global,
    outcome: &mut Outcome,
    found: &str,
    number: u64,
) -> Result<(), Memory> {
    let text = format!(in alloc; "{found} {number}")?;
    outcome.put_answer(alloc, text.as_bytes())
}
