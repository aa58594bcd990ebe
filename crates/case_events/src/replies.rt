//! What events reply, as texts.
use archive_shelf::RollFault;
use capture::Memory;
use case_captures::{
    bring_fault_bytes, brought_text, counts_text, number_text, numbers_of, receipt_text,
    reopen_fault_text, store_fault_text,
};
use case_steps::Outcome;
use checkpoint::CheckpointFault;
use event_core::{EventFault, Ran, RanEnd, Reply};
use std::alloc::Global;

/// Puts what each event replied, why the archive wasn't opened, where it wasn't, and the files that are left.
pub fn put_ran(alloc: Global, outcome: &mut Outcome, ran: Ran) -> Result<(), Memory> {
    let Ran { replies, end, disk } = ran;
    put_replies(alloc, outcome, replies.as_slice())?;
    put_end(alloc, outcome, end)?;
    let mut disk = disk;
    outcome.put_files(alloc, &mut disk)
}

fn put_replies(alloc: Global, outcome: &mut Outcome, replies: &[Reply]) -> Result<(), Memory> {
    for reply in replies {
        let text = reply_bytes(alloc, reply)?;
        outcome.put_answer(alloc, text.as_slice())?;
    }
    Ok(())
}

fn put_end(alloc: Global, outcome: &mut Outcome, end: RanEnd) -> Result<(), Memory> {
    match end {
        RanEnd::All => Ok(()),
        RanEnd::NotOpened(fault) => {
            let text = reopen_fault_text(alloc, fault)?;
            outcome.put_answer(alloc, text.as_bytes())
        }
        RanEnd::Memory => Err(Memory),
    }
}

fn reply_bytes(alloc: Global, reply: &Reply) -> Result<Vec<u8>, Memory> {
    match reply {
        Reply::Brought(brought) => brought_text(alloc, brought),
        Reply::Mapped(entries) => numbers_of(alloc, entries.as_slice()),
        Reply::Refused(EventFault::Bring(fault)) => bring_fault_bytes(alloc, *fault),
        _ => bytes_of(reply_text(alloc, reply)),
    }
}

fn bytes_of(text: Result<String, Memory>) -> Result<Vec<u8>, Memory> {
    match text {
        Ok(text) => Ok(text.into_bytes()),
        Err(Memory) => Err(Memory),
    }
}

fn reply_text(alloc: Global, reply: &Reply) -> Result<String, Memory> {
    match reply {
        Reply::Stored(receipt) => receipt_text(alloc, *receipt),
        Reply::Rolled => Ok(String::from_str(alloc, "rolled")?),
        Reply::Found(Some(entry)) => number_text(alloc, entry.number),
        Reply::Settled(written) => Ok(format!(in alloc; "settled {written}")?),
        Reply::Reopened(counts) => counts_text(alloc, *counts),
        Reply::Refused(fault) => refusal_text(alloc, *fault),
        _ => Ok(String::from_str(alloc, "None")?),
    }
}

fn refusal_text(alloc: Global, fault: EventFault) -> Result<String, Memory> {
    match fault {
        EventFault::Store(fault) => store_fault_text(alloc, fault),
        EventFault::Roll(RollFault::DiskFault) => Ok(String::from_str(alloc, "DiskFault")?),
        EventFault::Settle(CheckpointFault::DiskFault) => {
            Ok(String::from_str(alloc, "DiskFault")?)
        }
        _ => Err(Memory),
    }
}
