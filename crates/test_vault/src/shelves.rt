//! Shelves of one vault: each finds, brings and ships what the other one stored.
ghost use Rattle.std.specs.Prelude.{◌≡◌};

use crate::answers::{are_first_and_second, has_both};
use crate::passes::{begun, counted, vault_over};
use crate::seats::two_seated;
use archive_core::Archive;
use archive_shelf::Shelf;
use disk_model::{Disk, MemoryDisk};
use shelf_samples::{Sample, brings, found, ship_alike, stored};
use std::alloc::Global;
use std::marker::Brand;
use std::process::Abort;
use std::sync::Wait;
use vault::{Naming, Unnamed};

#[test]
fn shelves_find_bring_and_ship_what_others_stored(rt: HostRuntime) {
    both_shelved(&rt, rt.alloc());
}

/// Has both shelves store, find and bring.
fn both_shelved<R: Wait + Abort>(rt: &R, alloc: Global) {
    let disk = MemoryDisk::new(alloc, Vec::new(alloc));
    let Some(unnamed) = vault_over(rt, alloc, disk, 2) else {
        panic!(rt; "no vault")
    };
    let archive = stored_by_shelves::<Brand, R, MemoryDisk>(rt, alloc, unnamed);
    assert!(rt; has_both(counted(archive)));
}

/// Two passes are shelves, and end the vault.
fn stored_by_shelves<J: Naming, R: Wait + Abort, D: Disk>(
    rt: &R,
    alloc: Global,
    unnamed: Unnamed<D>,
) -> Archive<D>
    requires { unnamed ≡ J.vault }
{
    let (vault, passes) = begun::<J, D>(unnamed);
    let (mut first, mut second) = two_seated::<J, R, D>(rt, &vault, passes);
    assert!(rt; first.number() == 1 && second.number() == 2);
    store_and_find(rt, alloc, &mut first, &mut second);
    let mut all = vault.join(first.into_pass(), second.into_pass());
    vault.flush(rt, alloc, &mut all);
    vault.close(rt, all)
}

/// Each of two shelves stores a capture, and finds, brings and ships that of the other.
fn store_and_find<R: Abort, S: Shelf>(rt: &R, alloc: Global, first: &mut S, second: &mut S) {
    let own = stored(alloc, first, Sample::First);
    assert!(rt; found(alloc, first, Sample::First) == Some(0));
    let other = stored(alloc, second, Sample::Second);
    assert!(rt; are_first_and_second(own, other));
    assert!(rt; found(alloc, second, Sample::First) == Some(0));
    assert!(rt; found(alloc, first, Sample::Second) == Some(1));
    assert!(rt; brings(alloc, second, 0, Sample::First));
    assert!(rt; brings(alloc, first, 1, Sample::Second));
    assert!(rt; ship_alike(alloc, first, second, 0) && ship_alike(alloc, second, first, 1));
}
