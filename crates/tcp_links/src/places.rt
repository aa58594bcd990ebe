//! How many connections of clients there are, and how many of them wait to be read.
use capture::Memory;
use std::alloc::Global;
use std::io;
use std::io::ErrorKind;
use std::sync::Arc;
use std::sync::atomic::{AtomicU64, Ordering};

/// What the threads of a server count together.
#[derive(Drop)]
struct Counts {
    clients: AtomicU64,
    unread: AtomicU64,
}

/// The places of connections. A gate, and the dialers beside it, share one count.
#[derive(Drop)]
pub struct Places {
    counts: Arc<Counts>,
}

impl Places {
    /// Places of which none is taken.
    pub fn new(alloc: Global) -> Result<Places, Memory> {
        let counts = Counts {
            clients: AtomicU64::new(0),
            unread: AtomicU64::new(0),
        };
        match Arc::new(alloc, counts) {
            Ok(counts) => Ok(Places { counts }),
            Err(_) => Err(Memory),
        }
    }

    /// The same places, for another object.
    pub fn share(&self) -> Result<Places, Memory> {
        match Arc::try_clone(&self.counts) {
            Ok(counts) => Ok(Places { counts }),
            Err(_) => Err(Memory),
        }
    }

    /// How many connections of clients there are.
    pub fn clients(&self) -> u64 {
        self.counts.clients.load(Ordering::SeqCst)
    }

    /// The place of a client's new connection, which waits to be read.
    pub fn of_client(&self) -> io::Result<Place> {
        let place = self.place(Stage::Unread)?;
        place.counts.clients.fetch_add(1, Ordering::SeqCst);
        place.counts.unread.fetch_add(1, Ordering::SeqCst);
        Ok(place)
    }

    /// The place of a connection to an origin, which isn't counted.
    pub fn of_origin(&self) -> io::Result<Place> {
        self.place(Stage::Origin)
    }

    /// A place at this stage, before it is counted.
    fn place(&self, stage: Stage) -> io::Result<Place> {
        match Arc::try_clone(&self.counts) {
            Ok(counts) => Ok(Place { counts, stage }),
            Err(_) => Err(io::Error::from(ErrorKind::OutOfMemory)),
        }
    }
}

/// How far a connection has come.
#[derive(Clone, Copy, PartialEq, Eq)]
enum Stage {
    /// A client's, which waits to be read.
    Unread,
    /// A client's, which is read.
    Served,
    /// An origin's.
    Origin,
}

/// The place of one connection, which is left where it is dropped.
pub struct Place {
    counts: Arc<Counts>,
    stage: Stage,
}

impl Place {
    /// Notes that somebody reads the connection.
    pub fn serve(&mut self) {
        if self.stage == Stage::Unread {
            self.counts.unread.fetch_sub(1, Ordering::SeqCst);
            self.stage = Stage::Served;
        }
    }

    /// Whether a client's connection waits to be read.
    pub fn is_crowded(&self) -> bool {
        self.counts.unread.load(Ordering::SeqCst) != 0
    }
}

impl Drop for Place {
    fn drop(self) {
        let Place { counts, stage } = self;
        match stage {
            Stage::Unread => {
                counts.unread.fetch_sub(1, Ordering::SeqCst);
                counts.clients.fetch_sub(1, Ordering::SeqCst);
            }
            Stage::Served => {
                counts.clients.fetch_sub(1, Ordering::SeqCst);
            }
            Stage::Origin => {}
        }
    }
}
