//! Where passes wait for their turns.
ghost use Rattle.std.specs.Prelude.{◌≡◌, ◌<◌, length, vec_len, IfOk};

use std::alloc::{AllocError, Global};
use std::thread::Parker;

/// As many doors as there are passes.
pub(crate) fn make_doors(alloc: Global, passes: u32) -> Result<Vec<Parker>, AllocError>
    ensures { IfOk result (λ doors. vec_len doors ≡ passes) }
{
    let count = passes as usize;
    let mut doors = Vec::with_capacity(alloc, count)?;
    'making: while doors.len() < count {
        doors.push_reserved(Parker::new());
    }
    Ok(doors)
}

/// The door at which the pass with this ticket waits.
///
/// Each pass has one ticket at most, and the tickets that are out follow each other, so no two of them share a door. Who
/// hands the turn on opens the next door alone, without a call of the system where nobody waits there.
pub(crate) fn door_of(doors: &[Parker], ticket: u64) -> &Parker
    requires { 0 < length doors.now }
{
    &doors[(ticket % doors.len() as u64) as usize]
}
