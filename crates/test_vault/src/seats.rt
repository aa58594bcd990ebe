//! Passes at their vault.
ghost use Rattle.std.specs.Prelude.{◌≡◌};
ghost use Rattle.std.specs.List.{All};
ghost use Rattle.vault.specs.Members.{IsMember};

use crate::passes::{let_go, seated};
use disk_model::Disk;
use std::process::Abort;
use vault::{At, Naming, Vault, VaultPass};

/// The first and the second of two passes.
pub(crate) fn two_seated<'a, J: Naming, R: Abort, D: Disk>(
    rt: &'a R,
    vault: &'a Vault<D>,
    mut passes: Vec<VaultPass>,
) -> (At<'a, R, D, J>, At<'a, R, D, J>)
    requires vault { vault.now ≡ J.vault.lock }
    requires members { All (λ p. IsMember J.vault p.known) passes.items }
{
    let second = seated::<J, R, D>(rt, vault, &mut passes).expect(rt, "a pass is left");
    let first = seated::<J, R, D>(rt, vault, &mut passes).expect(rt, "a pass is left");
    let_go(passes);
    (first, second)
}

/// The first, the second and the third of three passes.
pub(crate) fn three_seated<'a, J: Naming, R: Abort, D: Disk>(
    rt: &'a R,
    vault: &'a Vault<D>,
    mut passes: Vec<VaultPass>,
) -> (At<'a, R, D, J>, At<'a, R, D, J>, At<'a, R, D, J>)
    requires vault { vault.now ≡ J.vault.lock }
    requires members { All (λ p. IsMember J.vault p.known) passes.items }
{
    let third = seated::<J, R, D>(rt, vault, &mut passes).expect(rt, "a pass is left");
    let second = seated::<J, R, D>(rt, vault, &mut passes).expect(rt, "a pass is left");
    let first = seated::<J, R, D>(rt, vault, &mut passes).expect(rt, "a pass is left");
    let_go(passes);
    (first, second, third)
}
