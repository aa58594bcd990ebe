//! Hangs up what a gate gave.
ghost use Rattle.std.specs.Prelude.{◌≡◌, ◌<◌, IsTrue};
ghost use Rattle.outside.specs.Gate.{heard_of, one_hung_up};

use outside::Gate;

/// Hangs a connection up, so that what was heard on it stands in the gate's log.
pub fn hang_up<G: Gate>(gate: &mut G, link: G::Link)
    requires { IsTrue G.Link.tells → 0 < (G.connections gate.old).out }
    ensures logs { IsTrue G.Link.tells
        → G.connections gate.new ≡ one_hung_up (G.connections gate.old) (heard_of (G.Link.traffic link) (G.Link.faults link)) }
    ensures same_faults { G.faults gate.new ≡ G.faults gate.old }
{
    gate.hang_up(G::end(link));
}
