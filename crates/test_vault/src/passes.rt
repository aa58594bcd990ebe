//! A vault over an archive without captures, and its passes.
ghost use Rattle.std.specs.Prelude.{◌≡◌, ◌<◌, ◌≤◌, false, IfSome};
ghost use Rattle.std.specs.List.{All};
ghost use Rattle.vault.specs.Members.{IsMember};

use archive_core::Archive;
use archive_reopening::reopen;
use archive_shelf::{Counts, Depth};
use capture::Limits;
use disk_model::Disk;
use shelf_samples::{Sample, StoreAnswer, stored};
use shown::Shown;
use std::alloc::Global;
use std::sync::Wait;
use vault::{At, Naming, Unnamed, Vault, VaultPass};
use vault_turns::Sure;

/// It isn't said what a crash may leave of the archive.
fn not_said<R>(rt: &R) -> Shown<Sure>
    ensures calm { result.value.calm ≡ false }
    ensures right { result.value.right ≡ false }
    ensures lasts { result.value.lasts ≡ false }
{
    Shown::told_by(rt)
}

/// The vault and its passes.
pub(crate) fn begun<J: Naming, D: Disk>(unnamed: Unnamed<D>) -> (Vault<D>, Vec<VaultPass>)
    requires { unnamed ≡ J.vault }
    ensures vault { result.0 ≡ J.vault.lock }
    ensures passes { All (λ p. IsMember J.vault p.known) result.1.items }
{
    unnamed.named::<J>()
}

/// The last pass of these, if there is one.
fn next_pass<J: Naming>(passes: &mut Vec<VaultPass>) -> Option<VaultPass>
    requires { All (λ p. IsMember J.vault p.known) passes.old.items }
    ensures member { IfSome result (λ pass. IsMember J.vault pass.known) }
    ensures others { All (λ p. IsMember J.vault p.known) passes.new.items }
{
    passes.pop()
}

/// The last pass of these at its vault, if there is one.
pub(crate) fn seated<'a, J: Naming, R, D: Disk>(
    rt: &'a R,
    vault: &'a Vault<D>,
    passes: &mut Vec<VaultPass>,
) -> Option<At<'a, R, D, J>>
    requires vault { vault.now ≡ J.vault.lock }
    requires members { All (λ p. IsMember J.vault p.known) passes.old.items }
    ensures { All (λ p. IsMember J.vault p.known) passes.new.items }
{
    let Some(pass) = next_pass::<J>(passes) else {
        return None;
    };
    Some(At::new(rt, vault, pass))
}

/// Stores a capture by a pass, which is given back.
pub(crate) fn stored_at<'a, J: Naming, R: Wait, D: Disk>(
    alloc: Global,
    mut at: At<'a, R, D, J>,
    sample: Sample,
) -> (At<'a, R, D, J>, StoreAnswer) {
    let answer = stored(alloc, &mut at, sample);
    (at, answer)
}

/// The passes that are left are over.
pub(crate) fn let_go(_passes: Vec<VaultPass>) {}

/// How much an archive holds, which is closed, and its disk too.
pub(crate) fn counted<D: Disk + Drop>(archive: Archive<D>) -> Counts {
    let counts = archive.counts();
    drop(archive.close());
    counts
}

/// A vault round the archive of a disk, with so many passes. `None` where there is no memory, or the disk has no archive.
pub(crate) fn vault_over<R: Wait, D: Disk + Drop>(
    rt: &R,
    alloc: Global,
    disk: D,
    passes: u32,
) -> Option<Unnamed<D>>
    requires { (0 < passes) × (passes ≤ 17) }
{
    match reopen(alloc, disk, None, limits(), Depth::Whole) {
        Ok(archive) => round(rt, alloc, archive, passes),
        Err(_) => None,
    }
}

/// A vault round an archive. `None` where there is no memory.
fn round<R: Wait, D: Disk + Drop>(
    rt: &R,
    alloc: Global,
    archive: Archive<D>,
    passes: u32,
) -> Option<Unnamed<D>>
    requires { (0 < passes) × (passes ≤ 17) }
{
    match Unnamed::new(alloc, rt, archive, passes, not_said(rt)) {
        Ok(unnamed) => Some(unnamed),
        Err(archive) => {
            drop(archive.close());
            None
        }
    }
}

/// What is more than enough for a test.
fn limits() -> Limits
    ensures { result ≡ record { volume_bytes = 1000000; captures = 100 } }
{
    Limits {
        volume_bytes: 1_000_000,
        captures: 100,
    }
}
