//! Answers for which there is no memory.
ghost use Rattle.std.specs.Prelude.{◌≡◌, ◌≤◌, IsTrue};
ghost use Rattle.outside.specs.Gate.{heard_of};
ghost use Rattle.exchange.specs.Refusals as spec;
ghost use Rattle.session.specs.steps.Wire.{Tries};

use crate::Served;
use capture::Failed;
use exchange::memory_text;
use outside::Link;
use request_answer::say;

/// Answers that there is no memory.
pub fn give_up<L: Link>(client: &mut L) -> Served
    requires { L.faults client.old ≡ 0 }
    ensures ends { result ≡ Served.WantOfMemory }
    ensures tries { IsTrue L.tells → Tries spec.memory_text
        (heard_of (L.traffic client.old) (L.faults client.old)) (heard_of (L.traffic client.new) (L.faults client.new)) }
    ensures later { L.faults client.old ≤ L.faults client.new }
{
    match say(client, memory_text()) {
        Ok(()) => Served::WantOfMemory,
        Err(Failed) => Served::WantOfMemory,
    }
}
