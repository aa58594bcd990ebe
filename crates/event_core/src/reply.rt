//! What an event answers.
use archive_shelf::{BringFault, Counts, Receipt, RollFault, StoreFault};
use capture::{Brought, Items, Memory};
use checkpoint::CheckpointFault;
use index_entry::Entry;

/// Why an event was refused.
#[derive(Clone, Copy)]
pub enum EventFault {
    /// A capture wasn't stored.
    Store(StoreFault),
    /// No volume was begun.
    Roll(RollFault),
    /// A capture wasn't brought.
    Bring(BringFault),
    /// There was no memory for what was looked up by date.
    Query(Memory),
    /// Not all checkpoints were written.
    Settle(CheckpointFault),
}

/// What an event answers.
#[derive(Drop)]
pub enum Reply {
    /// The capture was stored, as this one.
    Stored(Receipt),
    /// A volume was begun, where there was something to be begun.
    Rolled,
    /// This is the capture, with its payload.
    Brought(Brought),
    /// This is the nearest entry, if the key has one.
    Found(Option<Entry>),
    /// These are the entries of the key.
    Mapped(Items<Entry>),
    /// So many checkpoints were written.
    Settled(u32),
    /// The archive was opened again, and holds so much.
    Reopened(Counts),
    /// The event was refused.
    Refused(EventFault),
}
