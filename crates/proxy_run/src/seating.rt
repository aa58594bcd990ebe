//! The passes of a vault as the shelves of a crew.
ghost use Rattle.std.specs.Prelude.{◌≡◌, ◌<◌, ◌≤◌, ◌^◌, [], false, drop, vec_len, All, IsTrue};
ghost use Rattle.std.specs.Vec.{vec_capacity};
ghost use Rattle.crew.specs.Crews.{IsEnd, ServesAll};
ghost use Rattle.crew.specs.Shifts.{hands_of};
ghost use Rattle.vault.specs.Company.{told_at};
ghost use Rattle.vault.specs.Members.{AreMembers, IsMember};

use capture::Site;
use command::Status;
use crew::{Shift, serve_crew};
use disk_model::Disk;
use outside::{Clock, Dialer, Gate};
use std::alloc::Global;
use std::mem;
use std::sync::Wait;
use std::thread::Threads;
use vault::{At, Naming, Vault, VaultPass};

/// Serves the gate's connections over a vault, each pass of which is the shelf of a member. All come back in their places. Where there is no
/// memory nothing is accepted. May wait.
pub(crate) fn serve_by<R, D, G, N, C, J>(
    rt: &R,
    alloc: Global,
    vault: &Vault<D>,
    passes: &mut Vec<VaultPass>,
    site: &Site,
    gate: &mut G,
    crew: &mut Vec<(N, C)>,
) -> Status
where
    R: Threads + Wait + Sync,
    D: Disk + Send,
    G: Gate + Send,
    G::Link: Send,
    G::Past: Send,
    N: Dialer + Send,
    N::Link: Send,
    C: Clock + Send,
    J: Naming + Send,
    requires vault { vault.now ≡ J.vault.lock }
    requires members { AreMembers J.vault passes.old.items }
    requires some { 0 < vec_len passes.old }
    requires few { vec_len passes.old ≤ vec_len crew.old }
    requires small { vec_len passes.old < 2 ^ 32 }
    ensures serves { IsTrue G.Link.tells → IsTrue N.Link.tells
        → ServesAll (record { alone = false; told = told_at; setting = record { site = site.now; clock_tells = C.tells } })
        (G.connections gate.old) (G.connections gate.new)
        (hands_of N.Dialer C.Clock passes.old.items crew.old.items) (hands_of N.Dialer C.Clock passes.new.items crew.new.items) }
    ensures ended { IsEnd (G.closed gate.new) (G.faults gate.old) (G.faults gate.new) result }
    ensures same_others { drop (vec_len passes.old) crew.new.items ≡ drop (vec_len passes.old) crew.old.items }
    ensures members { AreMembers J.vault passes.new.items }
{
    let Ok(mut shelves) = Vec::with_capacity(alloc, passes.len()) else {
        return Status::Memory;
    };
    let Ok(room) = Vec::with_capacity(alloc, passes.len()) else {
        shelves.destroy_empty();
        return Status::Memory;
    };
    let seats = mem::replace(passes, room);
    seat_all::<R, D, J>(rt, vault, seats, &mut shelves);
    let shift = serve_crew(rt, alloc, site, shelves, gate, crew);
    let Shift { shelves, status } = shift;
    stand_up::<R, D, J>(shelves, passes);
    status
}

/// Each pass as a shelf, in order.
fn seat_all<'a, R, D: Disk, J: Naming>(
    rt: &'a R,
    vault: &'a Vault<D>,
    passes: Vec<VaultPass>,
    shelves: &mut Vec<At<'a, R, D, J>>,
)
    requires vault { vault.now ≡ J.vault.lock }
    requires members { All (λ p. IsMember J.vault p.known) passes.items }
    requires none { shelves.old.items ≡ [] }
    requires room { vec_len passes ≤ vec_capacity shelves.old }
    ensures { shelves.new.items ≡ passes.items }
{
    let mut rest = passes.into_iter();
    'seating: while let Some(pass) = rest.next() {
        shelves.push_reserved(At::new(rt, vault, pass));
    }
    rest.destroy_empty();
}

/// The passes again, in order.
fn stand_up<'a, R, D: Disk, J: Naming>(shelves: Vec<At<'a, R, D, J>>, passes: &mut Vec<VaultPass>)
    requires none { passes.old.items ≡ [] }
    requires room { vec_len shelves ≤ vec_capacity passes.old }
    ensures same { passes.new.items ≡ shelves.entry.items }
    ensures members { All (λ p. IsMember J.vault p.known) passes.new.items }
{
    let mut rest = shelves.into_iter();
    'rising: while let Some(at) = rest.next() {
        passes.push_reserved(at.into_pass());
    }
    rest.destroy_empty();
}
