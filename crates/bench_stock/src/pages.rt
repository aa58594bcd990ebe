//! Disks in memory with many pages.
ghost use Rattle.std.specs.Prelude.{◌<◌, IsTrue, OnOk};
ghost use Rattle.warc_journal.specs.Journals.{IsInStep, volumes};

use crate::journals::{add, begin, journal_of_nothing};
use capture::Memory;
use disk_model::{Disk, MemoryDisk};
use measuring::{Stopped, page_of, url_of};
use std::alloc::Global;
use uuid::Uuid;
use warc_journal::Journal;

/// Volumes of pages, each of a url and with a body of its own.
#[derive(Drop)]
pub struct Stock {
    /// How many volumes there are.
    pub volumes: u32,
    /// How many captures stand in each of them.
    pub captures: u32,
    /// The length of each body, in bytes.
    pub body: usize,
}

impl Stock {
    /// A disk with these volumes, and behind them one more with one capture.
    pub fn disk(&self, alloc: Global) -> Result<MemoryDisk, Stopped> {
        let mut journal = journal_of_nothing(alloc);
        self.fill(alloc, &mut journal)?;
        Ok(journal.into_disk())
    }

    /// How many captures stand in the volumes before the last one.
    pub fn count(&self) -> u32 {
        self.volumes.saturating_mul(self.captures)
    }

    fn fill<D: Disk>(&self, alloc: Global, journal: &mut Journal<D>) -> Result<(), Stopped>
        requires { IsTrue D.tells → IsInStep D.Disk journal.old }
    {
        let mut from = 0u32;
        'filling: for _ in 0..self.volumes {
            add_volume(alloc, journal, from, self.captures, self.body)?;
            from = from.saturating_add(self.captures);
        }
        add_volume(alloc, journal, from, 1, self.body)
    }
}

/// Begins a volume, and adds so many pages to it, with the numbers from this one on.
fn add_volume<D: Disk>(
    alloc: Global,
    journal: &mut Journal<D>,
    from: u32,
    captures: u32,
    body: usize,
) -> Result<(), Stopped>
    requires { IsTrue D.tells → IsInStep D.Disk journal.old }
    ensures { OnOk result (IsTrue D.tells → IsInStep D.Disk journal.new) }
{
    let namespace = Uuid::from_bytes([7; 16]);
    begin(alloc, journal, &namespace)?;
    'adding: for place in 0..captures {
        add_page(alloc, journal, &namespace, from.saturating_add(place), body)?;
    }
    Ok(())
}

/// Adds the page of a number, with a body of so many bytes.
fn add_page<D: Disk>(
    alloc: Global,
    journal: &mut Journal<D>,
    namespace: &Uuid,
    number: u32,
    body: usize,
) -> Result<(), Stopped>
    requires volumes { 0 < volumes journal.old }
    requires in_step { IsTrue D.tells → IsInStep D.Disk journal.old }
    ensures volumes { OnOk result (0 < volumes journal.new) }
    ensures in_step { OnOk result (IsTrue D.tells → IsInStep D.Disk journal.new) }
{
    let uri = url_of(alloc, number)?;
    let taken = page_of(alloc, uri.as_str(), body_of(alloc, number, body)?)?;
    add(alloc, journal, namespace, number, &taken)
}

/// A body of so many bytes, another one for each number.
fn body_of(alloc: Global, number: u32, len: usize) -> Result<Vec<u8>, Memory> {
    let mut body = format!(in alloc; "{number:012}")?.into_bytes();
    for _ in body.len()..len {
        body.push(b'x')?;
    }
    Ok(body)
}
