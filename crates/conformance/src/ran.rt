//! What a run gives, as lines of a case.
use crate::objects::Objects;
use capture::{Memory, put_number};
use case_outcomes::put_sent;
use case_steps::Outcome;
use command::Status;
use outside::Heard;
use std::alloc::Global;

/// Puts the lines of all but the files: the status, what was written on each connection and sent over each link, and what
/// was printed.
pub fn put_told(
    alloc: Global,
    outcome: &mut Outcome,
    status: Status,
    objects: &Objects,
) -> Result<(), Memory> {
    put_status(alloc, outcome, status)?;
    put_heard(alloc, outcome, objects.gate.heard())?;
    if let Some(member) = objects.crew.members.first() {
        put_sent(alloc, outcome, member.0.transcripts())?;
    }
    match objects.out.written() {
        [] => Ok(()),
        printed => outcome.put(alloc, b"printed ", printed),
    }
}

/// `status NUMBER`
fn put_status(alloc: Global, outcome: &mut Outcome, status: Status) -> Result<(), Memory> {
    let mut text = Vec::new(alloc);
    put_number(&mut text, number_of(status))?;
    outcome.put(alloc, b"status ", text.as_slice())
}

/// The number that the process would end with.
fn number_of(status: Status) -> u64 {
    match status {
        Status::Done => 0,
        Status::Words => 1,
        Status::Archive => 2,
        Status::Outside => 3,
        Status::Memory => 4,
    }
}

/// `written TEXT` for each connection that was hung up.
fn put_heard(alloc: Global, outcome: &mut Outcome, heard: &[Heard]) -> Result<(), Memory> {
    for connection in heard {
        outcome.put(alloc, b"written ", connection.written.as_slice())?;
    }
    Ok(())
}
