//! Two kinds of work side by side, on values whose types may share a parameter.
ghost use denote.Param.Send.{IsSync, IsSend};
ghost use Rattle.std.specs.Fork.{AcceptsAt, ChangesAt};

use std::thread::{Threads, join_mut};

/// Calls `f` on the value, as at place 0.
fn at_one<T, F: Fn(usize, &mut T)>(f: &F, value: &mut T)
    requires { AcceptsAt F.Fn f.now 0 value.old }
    ensures { ChangesAt F.Fn f.now 0 value.old value.new }
{
    f(0, value);
}

/// Calls `f` on `a` in a new thread, or last where none can be made, and `g` on `b` in this one.
///
/// So whatever `f` waits for has to come of `g`, and not the other way round.
pub fn side_by_side<
    R: Threads + Sync,
    A: Send,
    B: Send,
    F: Fn(usize, &mut A) + Sync,
    G: Fn(usize, &mut B) + Sync,
>(rt: &R, f: &F, g: &G, a: &mut A, b: &mut B)
    requires front { AcceptsAt F.Fn f.now 0 a.old }
    requires back { AcceptsAt G.Fn g.now 0 b.old }
    ensures front { ChangesAt F.Fn f.now 0 a.old a.new }
    ensures back { ChangesAt G.Fn g.now 0 b.old b.new }
{
    let mut front = ||
        requires { IsSync F.row × IsSend A.row × AcceptsAt F.Fn f.now 0 a.now }
        ensures { ChangesAt F.Fn f.entry.now 0 a.entry.now a.exit.now }
    { at_one(f, a) };
    let mut back = ||
        requires { IsSync G.row × IsSend B.row × AcceptsAt G.Fn g.now 0 b.now }
        ensures { ChangesAt G.Fn g.entry.now 0 b.entry.now b.exit.now }
    { at_one(g, b) };
    join_mut(rt, &mut front, &mut back);
}
