//! Two passes store in two threads, and a third one looks before and behind them.
ghost use Rattle.std.specs.Prelude.{◌≡◌};

use crate::answers::{are_first_and_second, has_both};
use crate::passes::{begun, counted, stored_at, vault_over};
use crate::seats::three_seated;
use archive_core::Archive;
use archive_shelf::Finder;
use disk_model::{Disk, MemoryDisk};
use shelf_samples::{Sample, StoreAnswer, found};
use std::alloc::Global;
use std::marker::Brand;
use std::process::Abort;
use std::sync::Wait;
use std::thread::{Threads, join};
use vault::{At, Naming, Unnamed};

/// Two captures are stored by two shelves, each in a thread of its own.
fn stored_beside<'a, J: Naming + Send + Sync, R: Threads + Wait + Sync, D: Disk + Send>(
    rt: &'a R,
    alloc: Global,
    first: At<'a, R, D, J>,
    second: At<'a, R, D, J>,
) -> (
    (At<'a, R, D, J>, StoreAnswer),
    (At<'a, R, D, J>, StoreAnswer),
) {
    join(
        rt,
        move || -> (At<R, D, J>, StoreAnswer) { stored_at(alloc, first, Sample::First) },
        move || -> (At<R, D, J>, StoreAnswer) { stored_at(alloc, second, Sample::Second) },
    )
}

/// Whether nothing is found by date.
fn finds_none<F: Finder>(alloc: Global, finder: &mut F) -> bool {
    found(alloc, finder, Sample::First).is_none() && found(alloc, finder, Sample::Second).is_none()
}

/// Whether both captures are found by date, whichever came first.
fn finds_both<F: Finder>(alloc: Global, finder: &mut F) -> bool {
    let one = found(alloc, finder, Sample::First);
    let other = found(alloc, finder, Sample::Second);
    (one == Some(0) && other == Some(1)) || (one == Some(1) && other == Some(0))
}

#[test]
fn two_passes_store_in_two_threads(rt: HostRuntime) {
    both_stored(&rt, rt.alloc());
}

/// Has two passes store, each in a thread of its own.
fn both_stored<R: Threads + Wait + Abort + Sync>(rt: &R, alloc: Global) {
    let disk = MemoryDisk::new(alloc, Vec::new(alloc));
    let Some(unnamed) = vault_over(rt, alloc, disk, 3) else {
        panic!(rt; "no vault")
    };
    let archive = stored_in_threads::<Brand, R, MemoryDisk>(rt, alloc, unnamed);
    assert!(rt; has_both(counted(archive)));
}

/// Two of three passes store, and the third one, which takes no turn, looks before and behind them.
fn stored_in_threads<J: Naming + Send + Sync, R: Threads + Wait + Abort + Sync, D: Disk + Send>(
    rt: &R,
    alloc: Global,
    unnamed: Unnamed<D>,
) -> Archive<D>
    requires { unnamed ≡ J.vault }
{
    let (vault, passes) = begun::<J, D>(unnamed);
    let (first, second, mut third) = three_seated::<J, R, D>(rt, &vault, passes);
    assert!(rt; finds_none(alloc, &mut third));
    let (first, second) = both_beside(rt, alloc, first, second);
    assert!(rt; finds_both(alloc, &mut third));
    let both = vault.join(first.into_pass(), second.into_pass());
    let all = vault.join(both, third.into_pass());
    vault.close(rt, all)
}

/// Two captures of one payload are stored beside each other. Whichever came first, the other one refers to it.
fn both_beside<'a, J: Naming + Send + Sync, R: Threads + Wait + Abort + Sync, D: Disk + Send>(
    rt: &'a R,
    alloc: Global,
    first: At<'a, R, D, J>,
    second: At<'a, R, D, J>,
) -> (At<'a, R, D, J>, At<'a, R, D, J>) {
    let ((first, one), (second, other)) = stored_beside(rt, alloc, first, second);
    assert!(rt; are_first_and_second(one, other) || are_first_and_second(other, one));
    (first, second)
}
