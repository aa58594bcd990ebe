//! A vault compares before its committing turn. No clause says so: one that compares within it would hold up all other passes meanwhile.
ghost use Rattle.std.specs.Prelude.{◌≡◌};

use crate::passes::{begun, stored_at, vault_over};
use crate::seats::two_seated;
use archive_core::Archive;
use archive_shelf::Shelf;
use disk_model::Disk;
use shelf_samples::{Meeting, Sample, StoreAnswer, WaitingDisk, brings, stored};
use std::alloc::Global;
use std::marker::Brand;
use std::process::Abort;
use std::rt::Clock;
use std::sync::{Arc, Wait};
use std::thread::{Threads, join};
use vault::{At, Naming, Unnamed};

#[test]
fn another_pass_reads_between_a_comparison_and_its_commit(rt: HostRuntime) {
    let mut often = 0u32;
    for _ in 0..10 {
        if is_asked_between(&rt, rt) {
            often = often.saturating_add(1);
        }
    }
    assert!(rt; often > 0);
}

/// One round. Whether the other pass read its capture between the comparison and the first write of a store.
fn is_asked_between<R: Threads + Wait + Clock + Abort + Sync>(rt: &R, host: HostRuntime) -> bool {
    let alloc = host.alloc();
    let Ok(meeting) = Arc::new(alloc, Meeting::new()) else {
        panic!(rt; "no memory")
    };
    let Ok(other) = Arc::try_clone(&meeting) else {
        panic!(rt; "no memory")
    };
    let disk = WaitingDisk::new(host, alloc, other);
    let Some(unnamed) = vault_over(rt, alloc, disk, 2) else {
        panic!(rt; "no vault")
    };
    let archive = met::<Brand, R, WaitingDisk>(rt, alloc, unnamed, &meeting);
    archive.close().was_asked_between()
}

/// Two captures are stored by one pass, and then a third one, which is compared while the other pass brings the second one.
fn met<J: Naming + Send + Sync, R: Threads + Wait + Clock + Abort + Sync, D: Disk + Send>(
    rt: &R,
    alloc: Global,
    unnamed: Unnamed<D>,
    meeting: &Meeting,
) -> Archive<D>
    requires name { unnamed ≡ J.vault }
{
    let (vault, passes) = begun::<J, D>(unnamed);
    let (mut first, second) = two_seated::<J, R, D>(rt, &vault, passes);
    store_two(alloc, &mut first);
    let (first, second) = third_stored(rt, alloc, first, second, meeting);
    let all = vault.join(first.into_pass(), second.into_pass());
    vault.close(rt, all)
}

/// Stores two captures of different payloads.
fn store_two<S: Shelf>(alloc: Global, shelf: &mut S) {
    let _first = stored(alloc, shelf, Sample::First);
    let _second = stored(alloc, shelf, Sample::Different);
}

/// Stores a third capture, with the payload of the first, while the other pass brings the second one.
fn third_stored<
    'a,
    J: Naming + Send + Sync,
    R: Threads + Wait + Clock + Abort + Sync,
    D: Disk + Send,
>(
    rt: &'a R,
    alloc: Global,
    first: At<'a, R, D, J>,
    second: At<'a, R, D, J>,
    meeting: &Meeting,
) -> (At<'a, R, D, J>, At<'a, R, D, J>) {
    let ((first, answer), second) = stored_while_asked(rt, alloc, first, second, meeting);
    assert!(rt; answer.number == 2 && answer.same == Some(0));
    (first, second)
}

/// One pass stores, and another one asks meanwhile, each in a thread of its own.
fn stored_while_asked<
    'a,
    J: Naming + Send + Sync,
    R: Threads + Wait + Clock + Sync,
    D: Disk + Send,
>(
    rt: &'a R,
    alloc: Global,
    first: At<'a, R, D, J>,
    second: At<'a, R, D, J>,
    meeting: &Meeting,
) -> ((At<'a, R, D, J>, StoreAnswer), At<'a, R, D, J>) {
    join(
        rt,
        move || -> (At<R, D, J>, StoreAnswer) { stored_at(alloc, first, Sample::Second) },
        move || -> At<R, D, J> { asked(rt, alloc, second, meeting) },
    )
}

/// Brings the second capture once the disk is being read.
fn asked<'a, J: Naming, R: Wait + Clock, D: Disk>(
    rt: &R,
    alloc: Global,
    mut at: At<'a, R, D, J>,
    meeting: &Meeting,
) -> At<'a, R, D, J> {
    meeting.ask(rt);
    let _is_there = brings(alloc, &mut at, 1, Sample::Different);
    at
}
