//! Where two threads wait for each other.
use std::rt::Clock;
use std::sync::atomic::{AtomicU64, Ordering};
use std::thread;
use std::time::Duration;

/// Two threads that wait for each other.
#[derive(Drop)]
pub struct Meeting {
    reads: AtomicU64,
    asks: AtomicU64,
}

impl Meeting {
    /// Neither has come.
    pub fn new() -> Meeting {
        Meeting {
            reads: AtomicU64::new(0),
            asks: AtomicU64::new(0),
        }
    }

    /// Says that the disk is being read, and waits until the other thread is about to ask, and a little longer.
    pub fn read<R: Clock>(&self, rt: &R) {
        self.reads.store(1, Ordering::SeqCst);
        wait_for(rt, &self.asks);
        thread::sleep(rt, Duration::from_millis(20));
    }

    /// Waits until the disk is being read, and says that this thread is about to ask.
    pub fn ask<R: Clock>(&self, rt: &R) {
        wait_for(rt, &self.reads);
        self.asks.store(1, Ordering::SeqCst);
    }
}

/// Waits until the flag is set, for ten seconds at most.
fn wait_for<R: Clock>(rt: &R, flag: &AtomicU64) {
    for _ in 0..10_000 {
        if flag.load(Ordering::SeqCst) == 1 {
            return;
        }
        thread::sleep(rt, Duration::from_millis(1));
    }
}
