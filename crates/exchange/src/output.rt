//! Writes whole texts.
ghost use Rattle.std.specs.Prelude.{◌≡◌, ◌++◌, IsTrue, OnOk, OnErr};
ghost use Rattle.capture.specs.Faults.{CountsFaults};
ghost use Rattle.exchange.specs.Writing.{GrowsByProperFront};
ghost use Rattle.outside.specs.Calls.{one_more};

use capture::Failed;
use outside::{Link, Sink};

/// Writes the whole text to a link. Where the link fails, its count of faults rose, and a proper front of the text was
/// taken.
pub fn write_all<L: Link>(link: &mut L, text: &[u8]) -> Result<(), Failed>
    ensures takes { IsTrue L.tells → OnOk result (L.traffic link.new ≡ record (L.traffic link.old) {
      taken = (L.traffic link.old).taken ++ text.now;
    }) }
    ensures breaks_off { IsTrue L.tells → OnErr result (L.traffic link.new ≡ record (L.traffic link.old) {
      taken = (L.traffic link.new).taken;
      failed_writes = one_more (L.traffic link.old).failed_writes;
    }) }
    ensures takes_front { IsTrue L.tells → OnErr result (GrowsByProperFront (L.traffic link.old).taken (L.traffic link.new).taken text.now) }
    ensures counts { CountsFaults (L.faults link.old) (L.faults link.new) result }
{
    let mut rest = text;
    'writing: while !rest.is_empty() {
        let n = link.write(rest)?;
        let (_, others) = rest.split_at(n);
        rest = others;
    }
    Ok(())
}

/// Prints the whole text. Where the sink fails, its count of faults rose, and a proper front of the text was written.
pub fn print_all<S: Sink>(sink: &mut S, text: &[u8]) -> Result<(), Failed>
    ensures writes { IsTrue S.tells → OnOk result (S.written sink.new ≡ S.written sink.old ++ text.now) }
    ensures writes_front { IsTrue S.tells →
        OnErr result (GrowsByProperFront (S.written sink.old) (S.written sink.new) text.now) }
    ensures counts { CountsFaults (S.faults sink.old) (S.faults sink.new) result }
{
    let mut rest = text;
    'printing: while !rest.is_empty() {
        let n = sink.write(rest)?;
        let (_, others) = rest.split_at(n);
        rest = others;
    }
    Ok(())
}
