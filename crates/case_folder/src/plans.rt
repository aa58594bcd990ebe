//! How calls of the file system go, and who else comes: as the case is set, and by steps, which tell nothing.
use crate::quiet::Quiet;
use capture::Memory;
use case_language::{TextWords, number_in};
use case_steps::FolderSetting;
use memory_folder::{Plan, Visit};
use std::alloc::Global;

/// The plan of the setting.
pub fn plan_of(alloc: Global, setting: FolderSetting) -> Result<Plan, Memory> {
    let mut plan = Plan::none(alloc);
    plan.fails = Vec::from_slice(alloc, setting.fails)?;
    plan.fuse = setting.fuse;
    plan.in_part = setting.in_part;
    Ok(plan)
}

/// Lets nothing change but that nobody holds the folder.
pub fn unchanged(quiet: Quiet, text: &[u8]) -> Option<Quiet> {
    if !text.is_empty() {
        return None;
    }
    Some(quiet)
}

/// Lets so many further calls of the file system pass, and each behind them fail.
pub fn fused(mut quiet: Quiet, text: &[u8]) -> Option<Quiet> {
    let calls = number_in(text)?;
    quiet.folders.plan.fuse = Some(calls);
    Some(quiet)
}

/// Lets a call that is to fail do a part of its work.
pub fn failing_in_part(mut quiet: Quiet, text: &[u8]) -> Option<Quiet> {
    if !text.is_empty() {
        return None;
    }
    quiet.folders.plan.in_part = true;
    Some(quiet)
}

/// Lets a call move so many bytes at most.
pub fn moving(mut quiet: Quiet, text: &[u8]) -> Option<Quiet> {
    let most = number_in(text)?;
    quiet.folders.plan.most = most as usize;
    Some(quiet)
}

/// Lets another process come before a call from now on, and write a file of a name.
pub fn visited(
    alloc: Global,
    mut quiet: Quiet,
    text: &[u8],
    synced: bool,
) -> Result<Option<Quiet>, Memory> {
    let calls = quiet.folders.plan.calls;
    match visit_in(alloc, calls, text, synced)? {
        Some(visit) => {
            quiet.folders.visits.push(visit)?;
            Ok(Some(quiet))
        }
        None => Ok(None),
    }
}

/// Who comes by such a text, before a call behind so many.
fn visit_in(alloc: Global, calls: u64, text: &[u8], synced: bool) -> Result<Option<Visit>, Memory> {
    match told_of(text) {
        Some(told) => Ok(Some(visit_of(alloc, calls, told, synced)?)),
        None => Ok(None),
    }
}

/// What a text tells of who comes.
#[derive(Clone, Copy)]
struct ToldVisit<'a> {
    number: u64,
    name: &'a str,
    bytes: &'a [u8],
}

/// A call's number, a file's name, and what it is to hold, each behind a space.
fn told_of(text: &[u8]) -> Option<ToldVisit<'_>> {
    let mut words = TextWords::of(text);
    Some(ToldVisit {
        number: words.number()?,
        name: words.word()?,
        bytes: words.rest,
    })
}

fn visit_of(alloc: Global, calls: u64, told: ToldVisit, synced: bool) -> Result<Visit, Memory> {
    let name = String::from_str(alloc, told.name)?;
    let bytes = Vec::from_slice(alloc, told.bytes)?;
    Ok(Visit {
        call: calls.saturating_add(told.number),
        name,
        bytes,
        synced,
    })
}
