//! Whether there are threads for the workers of a server.
ghost use Rattle.std.specs.Prelude.{◌≤◌};

use command::{Command, command_of};
use real_outside::RealGate;
use std::alloc::Global;
use std::sync::{Mutex, Wait};
use std::thread::{Threads, scope, scope_env};

/// Tries whether there is a thread for each worker that the words ask for. Where there are fewer the gate says so, and where there is none it
/// gives no connection. May wait.
pub(crate) fn try_threads<R: Threads + Wait + Sync>(
    rt: &R,
    alloc: Global,
    words: &[&str],
    gate: &mut RealGate<HostRuntime>,
) {
    let workers = workers_of(words);
    let there = threads_for(rt, alloc, workers);
    if there < workers {
        gate.lack_threads(there, workers);
    }
}

/// How many workers the words ask of a server, 0 where they ask for none.
fn workers_of(words: &[&str]) -> u32 {
    match command_of(words) {
        Some(Command::Serve(_, workers)) => workers,
        _ => 0,
    }
}

/// For how many of so many workers a thread can be made at once. Each waits until the last one was tried, and is joined then. May wait.
fn threads_for<R: Threads + Wait + Sync>(rt: &R, alloc: Global, workers: u32) -> u32
    ensures { result ≤ workers }
{
    let tried = Mutex::new(());
    let shared = &tried;
    let made = scope(scope_env(), rt, |scope| -> usize {
        let trying = shared.lock(rt);
        let mut threads = Vec::new(alloc);
        for _ in 0..workers {
            if let Ok(thread) = scope.spawn(move || pass(rt, shared)) {
                let _ = threads.push(thread);
            }
        }
        drop(trying);
        let made = threads.len();
        for thread in threads {
            thread.join(rt);
        }
        made
    });
    u32::try_from(made).unwrap_or(workers).min(workers)
}

/// Waits until all threads were tried.
fn pass<R: Wait>(rt: &R, tried: &Mutex<()>) {
    drop(tried.lock(rt));
}
