//! Writes answers.
ghost use Rattle.std.specs.Prelude.{◌≡◌, ◌++◌, IsTrue, OnOk, MatchResult};
ghost use Rattle.capture.specs.Faults.{CountsFaults};
ghost use Rattle.outside.specs.Gate.{heard_of};
ghost use Rattle.request_answer.specs.steps.Wire.{Breaks, Writes};

use capture::Failed;
use exchange::write_all;
use outside::Link;

/// Writes a text to a client whose link is whole.
pub fn say<L: Link>(client: &mut L, text: &[u8]) -> Result<(), Failed>
    requires { L.faults client.old ≡ 0 }
    ensures says { IsTrue L.tells → MatchResult result
        (λ _. Writes text.now (heard_of (L.traffic client.old) (L.faults client.old)) (heard_of (L.traffic client.new) (L.faults client.new)))
        (λ _. Breaks text.now (heard_of (L.traffic client.old) (L.faults client.old)) (heard_of (L.traffic client.new) (L.faults client.new))) }
    ensures whole { OnOk result (L.faults client.new ≡ 0) }
    ensures counts { CountsFaults (L.faults client.old) (L.faults client.new) result }
{
    match write_all(client, text) {
        Ok(()) => Ok(()),
        Err(Failed) => Err(Failed),
    }
}

/// Writes a head and a body, one after the other, to a client whose link is whole: they are one text.
pub fn say_both<L: Link>(client: &mut L, head: &[u8], body: &[u8]) -> Result<(), Failed>
    requires { L.faults client.old ≡ 0 }
    ensures says { IsTrue L.tells → MatchResult result
        (λ _. Writes (head.now ++ body.now) (heard_of (L.traffic client.old) (L.faults client.old)) (heard_of (L.traffic client.new) (L.faults client.new)))
        (λ _. Breaks (head.now ++ body.now) (heard_of (L.traffic client.old) (L.faults client.old)) (heard_of (L.traffic client.new) (L.faults client.new))) }
    ensures whole { OnOk result (L.faults client.new ≡ 0) }
    ensures counts { CountsFaults (L.faults client.old) (L.faults client.new) result }
{
    match say(client, head) {
        Ok(()) => say(client, body),
        Err(Failed) => Err(Failed),
    }
}
