//! A lock in eight threads, and the numbers of its passes. No case can say it: a case has one thread, and passes have no text.
ghost use Rattle.std.specs.Prelude.{◌≡◌, ◌≤◌, [], ◌∷◌, IfOk, MatchBool};
ghost use Rattle.std.specs.List.{All};

use history_lock::{HistoryLock, Pass, Told, Work};
use std::alloc::{AllocError, Global};
use std::process::Abort;
use std::sync::Wait;
use std::test::*;
use std::thread;
use std::thread::Threads;

// What a pass said, beside the pass's number.
#[derive(Clone, Copy)]
struct Saying {
    by: u32,
    serial: u32,
}

// What was said in the turns, in order.
#[derive(Drop)]
struct Tally {
    said: Vec<Saying>,
}

impl Told for Tally {
    type Entry = Saying;

    ghost list = { λ t. t.said.items };

    ghost by = { λ e. e.by };

    fn told(&self) -> u64 {
        self.said.len() as u64
    }
}

// Says this serial number, if there is room. The reply is whether it did.
struct Say {
    serial: u32,
}

impl Work<Tally> for Say {
    type Reply = bool;

    ghost ready = { λ _ _. Unit {0} };

    ghost does = { λ work by found added said. MatchBool said (added ≡ record { by = by; serial = work.serial } ∷ []) (added ≡ []) };

    fn act(self, by: u32, value: &mut Tally) -> bool {
        let Say { serial } = self;
        if value.said.len() == value.said.capacity() {
            return false;
        }
        value.said.push_reserved(Saying { by, serial });
        true
    }
}

fn say_often<R: Wait>(
    rt: &R,
    lock: &HistoryLock<Tally>,
    mut pass: Pass<Saying>,
    count: u32,
) -> Pass<Saying>
    requires { pass.lock ≡ lock.now }
    ensures { result.lock ≡ lock.now }
{
    for serial in 0..count {
        lock.turn(rt, &mut pass, Say { serial });
    }
    pass
}

// How often the pass said something, if its serial numbers rise by one from 0.
fn count_in_order(tally: &Tally, by: u32) -> Option<u32> {
    let mut next: u32 = 0;
    for saying in tally.said.as_slice() {
        if saying.by == by {
            if saying.serial != next {
                return None;
            }
            next = next.saturating_add(1);
        }
    }
    Some(next)
}

// The lock and its passes, where one thing was said before and there is room for so many in all.
fn made<R: Abort>(
    rt: &R,
    alloc: Global,
    room: usize,
    passes: u32,
) -> (HistoryLock<Tally>, Vec<Pass<Saying>>)
    requires { (1 ≤ room) × (1 ≤ passes) }
    ensures { All (λ p. p.lock ≡ result.0) result.1.items }
{
    let Ok(mut said) = Vec::with_capacity(alloc, room) else {
        panic!(rt; "no memory")
    };
    said.push_reserved(Saying { by: 0, serial: 0 });
    let Ok(made) = HistoryLock::new(alloc, Tally { said }, passes) else {
        panic!(rt; "no memory")
    };
    made
}

fn take_last<R: Abort>(
    rt: &R,
    lock: &HistoryLock<Tally>,
    passes: &mut Vec<Pass<Saying>>,
) -> Pass<Saying>
    requires { All (λ p. p.lock ≡ lock.now) passes.old.items }
    ensures pass { result.lock ≡ lock.now }
    ensures others { All (λ p. p.lock ≡ lock.now) passes.new.items }
{
    passes.pop().expect(rt, "a pass is left")
}

#[test]
fn eight_threads_make_a_thousand_turns_each(rt: HostRuntime) -> Result<(), Fail> {
    taken_by_eight(&rt, rt.alloc());
    Ok(())
}

fn taken_by_eight<R: Threads + Wait + Abort + Sync>(rt: &R, alloc: Global) {
    let (lock, passes) = made(rt, alloc, 8001, 8);
    let Ok(mut passes) = said_by_all(rt, &lock, passes) else {
        panic!(rt; "no memory")
    };
    let first = take_last(rt, &lock, &mut passes);
    let all = joined(&lock, first, passes);
    let tally = lock.close(rt, all);
    assert!(rt; tally.said.len() == 8001);
    assert!(rt; count_in_order(&tally, 0) == Some(1));
    for by in 1..9 {
        assert!(rt; count_in_order(&tally, by) == Some(1000));
    }
}

// Each pass takes a thousand turns, in a thread of its own.
fn said_by_all<R: Threads + Wait + Sync>(
    rt: &R,
    lock: &HistoryLock<Tally>,
    passes: Vec<Pass<Saying>>,
) -> Result<Vec<Pass<Saying>>, AllocError>
    requires { All (λ p. p.lock ≡ lock.now) passes.items }
    ensures { IfOk result (λ after. All (λ p. p.lock ≡ lock.now) after.items) }
{
    thread::map_vec(
        rt,
        passes,
        &|pass: Pass<Saying>| -> Pass<Saying>
            requires { pass.lock ≡ lock.now }
            ensures { result.lock ≡ lock.entry.now }
        { say_often(rt, lock, pass, 1000) },
    )
}

fn joined(
    lock: &HistoryLock<Tally>,
    first: Pass<Saying>,
    mut others: Vec<Pass<Saying>>,
) -> Pass<Saying>
    requires first { first.lock ≡ lock.now }
    requires others { All (λ p. p.lock ≡ lock.now) others.items }
    ensures { result.lock ≡ lock.now }
{
    let mut all = first;
    while let Some(other) = others.pop() {
        all = lock.join(all, other);
    }
    all
}

#[test]
fn one_pass_has_the_number_one(rt: HostRuntime) -> Result<(), Fail> {
    numbers_rise(&rt, rt.alloc(), 1);
    Ok(())
}

#[test]
fn seventeen_passes_have_their_numbers_in_order(rt: HostRuntime) -> Result<(), Fail> {
    numbers_rise(&rt, rt.alloc(), 17);
    Ok(())
}

fn numbers_rise<R: Wait + Abort>(rt: &R, alloc: Global, count: u32)
    requires { 1 ≤ count }
{
    let (lock, mut passes) = made(rt, alloc, 1, count);
    assert!(rt; passes.len() == count as usize);
    for k in 0..passes.len() {
        assert!(rt; passes[k].number() as usize == k + 1);
    }
    let mut last = take_last(rt, &lock, &mut passes);
    assert!(rt; !lock.turn(rt, &mut last, Say { serial: 0 }));
    let tally = lock.close(rt, last);
    assert!(rt; tally.said.len() == 1);
}
