//! Plays what is no run of the program.
use crate::objects::{client_of, dialer_of};
use crate::sent::put_sent;
use capture::{Failed, Memory};
use case_exchanges::{fetched, received_requests};
use case_folder::Origins;
use case_setting::{Played, Setting};
use case_steps::{Change, Outcome, after, disk_of, kept};
use case_texts::Call;
use outside::{Link, MemoryClock, Transcript};
use std::alloc::Global;
use std::thread::Threads;

/// What anything but a run gives, and the files that the stop of this turn leaves behind it.
pub fn outcome_of_one<R: Threads + Sync>(
    rt: &R,
    alloc: Global,
    setting: &Setting,
    turn: u32,
) -> Result<Option<Outcome>, Memory> {
    let stop = setting.stops.at(turn);
    match &setting.played {
        Played::Program => Ok(None),
        Played::Call(call) => answered(alloc, call),
        Played::Fetch(request) => fetched_for(alloc, setting, request.as_slice()),
        Played::Requests => requests_of(alloc, setting),
        Played::Archive => stored(alloc, setting, stop),
        Played::Events => replied(alloc, setting, stop),
        Played::Altered(change) => stored_altered(alloc, setting, *change),
        Played::Opening(skip) => opened(alloc, setting, stop, *skip),
        Played::Files => worked(alloc, setting, stop),
        Played::Folder => stored_in_folder(alloc, setting, stop),
        Played::Disk => called(rt, alloc, setting, stop),
    }
}

/// What the steps of an archive tell over the case's disk.
fn stored(alloc: Global, setting: &Setting, stop: u32) -> Result<Option<Outcome>, Memory> {
    match disk_of(alloc, setting.disk())? {
        Ok(disk) => case_archive::outcome_of(alloc, disk, setting.deeds.as_slice(), stop),
        Err(Failed) => Ok(None),
    }
}

/// What the steps of an archive over a disk in a folder tell.
fn stored_in_folder(
    alloc: Global,
    setting: &Setting,
    stop: u32,
) -> Result<Option<Outcome>, Memory> {
    let origins = Origins {
        dialer: dialer_of(alloc, setting)?,
        clock: MemoryClock::new(setting.clock.clone()?),
    };
    let (calls, steps) = (setting.folder(), setting.deeds.as_slice());
    case_folder::outcome_of(alloc, calls, origins, steps, stop)
}

/// What the events reply over the case's disk.
fn replied(alloc: Global, setting: &Setting, stop: u32) -> Result<Option<Outcome>, Memory> {
    match disk_of(alloc, setting.disk())? {
        Ok(disk) => case_events::events_outcome_of(alloc, disk, setting.deeds.as_slice(), stop),
        Err(Failed) => Ok(None),
    }
}

/// What the steps tell where the disk gives another byte in one place.
fn stored_altered(
    alloc: Global,
    setting: &Setting,
    change: Change,
) -> Result<Option<Outcome>, Memory> {
    match disk_of(alloc, setting.disk())? {
        Ok(disk) => {
            case_archive::altered_outcome_of(alloc, disk, change, setting.deeds.as_slice())
        }
        Err(Failed) => Ok(None),
    }
}

/// What calls of the case's disk tell.
fn called<R: Threads + Sync>(
    rt: &R,
    alloc: Global,
    setting: &Setting,
    stop: u32,
) -> Result<Option<Outcome>, Memory> {
    match disk_of(alloc, setting.disk())? {
        Ok(disk) => case_disk::outcome_of_calls(rt, alloc, disk, setting.deeds.as_slice(), stop),
        Err(Failed) => Ok(None),
    }
}

/// What is found on the case's disk, behind the steps and the stop.
fn opened(
    alloc: Global,
    setting: &Setting,
    stop: u32,
    skip: Option<u32>,
) -> Result<Option<Outcome>, Memory> {
    match disk_of(alloc, setting.disk())? {
        Ok(disk) => case_disk::outcome_of(alloc, disk, setting.steps.as_slice(), stop, skip),
        Err(Failed) => Ok(None),
    }
}

/// What the case's disk holds, behind the steps and the stop.
fn worked(alloc: Global, setting: &Setting, stop: u32) -> Result<Option<Outcome>, Memory> {
    match disk_of(alloc, setting.disk())? {
        Ok(disk) => case_disk::files_behind(alloc, disk, setting.steps.as_slice(), stop),
        Err(Failed) => Ok(None),
    }
}

/// What is fetched from the case's origins for a client's request, and what is sent to them.
fn fetched_for(
    alloc: Global,
    setting: &Setting,
    request: &[u8],
) -> Result<Option<Outcome>, Memory> {
    let mut dialer = dialer_of(alloc, setting)?;
    let text = fetched(alloc, &mut dialer, request);
    let mut outcome = Outcome::new(alloc);
    let done = put_fetched(alloc, &mut outcome, text, dialer.transcripts());
    kept(outcome, done)
}

fn put_fetched(
    alloc: Global,
    outcome: &mut Outcome,
    text: Result<Option<Vec<u8>>, Memory>,
    sent: &[Transcript],
) -> Result<bool, Memory> {
    let is_fetched = put_found(alloc, outcome, text)?;
    if is_fetched {
        put_sent(alloc, outcome, sent)?;
    }
    Ok(is_fetched)
}

/// Puts a text as an answer. Whether there is one.
fn put_found(
    alloc: Global,
    outcome: &mut Outcome,
    text: Result<Option<Vec<u8>>, Memory>,
) -> Result<bool, Memory> {
    match text? {
        Some(text) => after(outcome.put_answer(alloc, text.as_slice()), true),
        None => Ok(false),
    }
}

/// The requests of the case's client. `None` where it has none.
fn requests_of(alloc: Global, setting: &Setting) -> Result<Option<Outcome>, Memory> {
    match client_of(alloc, setting)? {
        Some(mut link) => requests_on(alloc, &mut link),
        None => Ok(None),
    }
}

fn requests_on<L: Link>(alloc: Global, link: &mut L) -> Result<Option<Outcome>, Memory> {
    let texts = received_requests(alloc, link)?;
    let mut outcome = Outcome::new(alloc);
    let done = put_answers(alloc, &mut outcome, texts.as_slice());
    after(done, Some(outcome))
}

fn put_answers(alloc: Global, outcome: &mut Outcome, texts: &[Vec<u8>]) -> Result<(), Memory> {
    for text in texts {
        outcome.put_answer(alloc, text.as_slice())?;
    }
    Ok(())
}

/// What a call answers.
fn answered(alloc: Global, call: &Call) -> Result<Option<Outcome>, Memory> {
    let mut outcome = Outcome::new(alloc);
    let done = put_found(alloc, &mut outcome, answer_to(alloc, call));
    kept(outcome, done)
}

/// The answer of the crate that has a call of this name.
fn answer_to(alloc: Global, call: &Call) -> Result<Option<Vec<u8>>, Memory> {
    if let Some(text) = case_texts::answer(alloc, call)? {
        return Ok(Some(text));
    }
    if let Some(text) = case_tables::answer(alloc, call)? {
        return Ok(Some(text));
    }
    if let Some(text) = case_messages::answer(alloc, call)? {
        return Ok(Some(text));
    }
    if let Some(text) = case_exchanges::answer(alloc, call)? {
        return Ok(Some(text));
    }
    if let Some(text) = case_imports::answer(alloc, call)? {
        return Ok(Some(text));
    }
    case_objects::answer(alloc, call)
}
