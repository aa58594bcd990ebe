//! How a vault of a measurement is made, and how its passes are taken.
ghost use Rattle.std.specs.Prelude.{◌≡◌, ◌<◌, ◌≤◌, false, IfOk, IfSome, length};
ghost use Rattle.std.specs.List.{All};
ghost use Rattle.vault.specs.Members.{IsMember};

use archive_core::Archive;
use disk_model::Disk;
use measuring::Stopped;
use shown::Shown;
use std::alloc::Global;
use std::sync::Wait;
use vault::{Naming, Unnamed, Vault, VaultPass};
use vault_turns::Sure;

/// A vault round an archive, and so many passes.
pub fn vault_of<R: Wait, D: Disk + Drop>(
    rt: &R,
    alloc: Global,
    archive: Archive<D>,
    passes: u32,
) -> Result<Unnamed<D>, Stopped>
    requires { (0 < passes) × (passes ≤ 17) }
    ensures { IfOk result (λ unnamed. unnamed.passes ≡ passes) }
{
    match Unnamed::new(alloc, rt, archive, passes, not_said(rt)) {
        Ok(unnamed) => Ok(unnamed),
        Err(archive) => {
            drop(archive.close());
            Err(Stopped::Memory)
        }
    }
}

/// It isn't said what a crash may leave of the archive.
fn not_said<R>(rt: &R) -> Shown<Sure>
    ensures calm { result.value.calm ≡ false }
    ensures right { result.value.right ≡ false }
    ensures lasts { result.value.lasts ≡ false }
{
    Shown::told_by(rt)
}

/// The vault and its passes, of which there is one at least.
pub fn begun<J: Naming, D: Disk>(unnamed: Unnamed<D>) -> (Vault<D>, Vec<VaultPass>)
    requires name { unnamed ≡ J.vault }
    requires some { 0 < unnamed.passes }
    ensures vault { result.0 ≡ J.vault.lock }
    ensures passes { All (λ p. IsMember J.vault p.known) result.1.items }
    ensures some { 0 < length result.1.items }
{
    unnamed.named::<J>()
}

/// The last pass of these.
pub fn take_pass<J: Naming>(passes: &mut Vec<VaultPass>) -> VaultPass
    requires some { 0 < length passes.old.items }
    requires members { All (λ p. IsMember J.vault p.known) passes.old.items }
    ensures member { IsMember J.vault result.known }
    ensures lock { result.known.lock ≡ J.vault.lock }
    ensures others { All (λ p. IsMember J.vault p.known) passes.new.items }
{
    let Some(pass) = passes.pop() else {
        unreachable!()
    };
    pass
}

/// The last pass of these, if there is one.
pub fn next_pass<J: Naming>(passes: &mut Vec<VaultPass>) -> Option<VaultPass>
    requires { All (λ p. IsMember J.vault p.known) passes.old.items }
    ensures member { IfSome result (λ pass. IsMember J.vault pass.known) }
    ensures others { All (λ p. IsMember J.vault p.known) passes.new.items }
{
    passes.pop()
}
