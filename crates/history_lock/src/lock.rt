//! The lock, and its calls.
ghost use Rattle.std.specs.Prelude.{◌≡◌, ◌⊎◌, ℕ, ◌+◌, ◌<◌, ◌≤◌, ◌++◌, List, [], length, slice_get, IfSome, IfOk, IfErr};
ghost use Rattle.std.specs.Vec.{vec_capacity};
ghost use Rattle.history_lock.specs.Seen.{All, Shows, Turn};
ghost use Rattle.history_lock.specs.Known.{newcomer, IsSamePass};
ghost use Rattle.history_lock.specs.Phases.{IsTable, maker};

use crate::doors::make_doors;
use crate::key::{Board, Desk, ENTRIES, Key, Place, SERVING, VALUE};
use crate::pass::{Pass, take_seat};
use crate::plays::{Fill, Merges, Opens, Settle};
use crate::steps::{enter, give, leave_empty, pass_on, take, work_at};
use crate::told::{Told, Work};
use atomic_table::Table;
use std::alloc::Global;
use std::marker::Model;
use std::snapshot::Snapshot;
use std::sync::Wait;
use std::thread::Parker;

/// A value that passes take turns at. It isn't `Drop`, since the value may not be: end it by `close`.
pub struct HistoryLock<T: Told> {
    table: Board<T, T::Entry>,
    // A door for each pass.
    doors: Vec<Parker>,
}

impl<T: Told> Model for HistoryLock<T> {
    ghost use Rattle.std.specs.Prelude.{◌<◌, vec_len};
    ghost use Rattle.history_lock.specs.Known.{LockId};
    ghost use Rattle.history_lock.specs.Phases.{IsTable};

    ghost Value = { LockId };

    ghost view = { λ l. l.table.shared.table_id };

    ghost invariant = { λ l. IsTable l.table.shared.table_id × (0 < vec_len l.doors) };
}

/// Makes the passes in the order of their numbers. Each is split off from the first seat, which goes to the last of them.
fn make_passes<T: Told>(
    desk: &Desk<T, T::Entry>,
    mut seat: Place<T, T::Entry>,
    passes: u32,
    made: &mut Vec<Pass<T::Entry>>,
)
    requires table { IsTable desk.now.table_id × (seat.table_id ≡ desk.now.table_id) × (desk.now.key.passes ≡ passes) }
    requires some { 1 ≤ passes }
    requires first { seat.me ≡ (maker seat.me.0.seen passes 1, []) }
    requires room { (made.old.items ≡ []) × (passes ≤ vec_capacity made.old) }
    ensures count { length made.new.items ≡ passes }
    ensures each { (k : ℕ) → IfSome (slice_get made.new.items k) (λ p. p ≡ newcomer desk.now.table_id passes (k + 1) seat.me.0.seen) }
{
    for number in 1..passes {
        let next = desk.split_seat::<Opens>(&mut seat);
        made.push_reserved(Pass {
            badge: next.into_badge(),
            number,
        });
    }
    made.push_reserved(Pass {
        badge: seat.into_badge(),
        number: passes,
    });
}

impl<T: Told> HistoryLock<T> {
    /// The lock with its passes, which have the numbers from 1 on in order. At `Err` there was no memory, and the value
    /// comes back.
    pub fn new(
        alloc: Global,
        value: T,
        passes: u32,
    ) -> Result<(HistoryLock<T>, Vec<Pass<T::Entry>>), T>
        requires some { 1 ≤ passes }
        requires before { All (λ e. T.by e ≡ 0) (T.list value) }
        ensures count { IfOk result (λ r. length r.1.items ≡ passes) }
        ensures each { IfOk result (λ r. (k : ℕ) → IfSome (slice_get r.1.items k) (λ p. p ≡ newcomer r.0 passes (k + 1) (T.list value))) }
        ensures err { IfErr result (λ v. v ≡ value) }
    {
        let Ok(mut made) = Vec::with_capacity(alloc, passes as usize) else {
            return Err(value);
        };
        let Ok(doors) = make_doors(alloc, passes) else {
            return Err(value);
        };
        let key = Key {
            first: Snapshot::of(&value),
            passes,
        };
        let Ok((table, mut seat)) = Table::vacant(alloc, &[value.told(), 1, 0], 1, &key) else {
            return Err(value);
        };
        let desk = &table.shared;
        desk.load::<Fill>(&mut seat, SERVING);
        give(desk, &mut seat, value);
        pass_on(desk, doors.as_slice(), &mut seat, 0);
        make_passes(desk, seat, passes, &mut made);
        Ok((HistoryLock { table, doors }, made))
    }

    /// Does the work at the list that is found, which begins with all that the pass has seen. Behind that, the list found
    /// has entries of other passes alone. May wait.
    pub fn turn<R: Wait, W: Work<T>>(&self, rt: &R, pass: &mut Pass<T::Entry>, work: W) -> W::Reply
        requires pass { pass.old.lock ≡ self.now }
        requires ready { (found : List T.Entry) → Shows T.by pass.old.passes pass.old.numbers pass.old.seen found → W.ready work found }
        ensures turn { Turn T.by pass.old pass.new.seen (λ found added. W.does work pass.old.number found added result) }
        ensures same { IsSamePass pass.old pass.new }
    {
        let desk = &self.table.shared;
        let doors = self.doors.as_slice();
        let Pass { badge, number } = pass;
        let mut seat = take_seat(badge);
        let ticket = enter(rt, desk, doors, &mut seat);
        let reply = work_at(desk, &mut seat, *number, work);
        pass_on(desk, doors, &mut seat, ticket);
        *badge = seat.into_badge();
        reply
    }

    /// One pass for two, with the number of the first and the numbers of both. It has seen the longer of the two lists,
    /// in which behind the other there is no entry of that other's pass.
    pub fn join(&self, pass: Pass<T::Entry>, other: Pass<T::Entry>) -> Pass<T::Entry>
        requires pass { pass.lock ≡ self.now }
        requires other { other.lock ≡ self.now }
        ensures of_lock { result.lock ≡ self.now }
        ensures numbers { (result.number ≡ pass.number) × (result.numbers ≡ pass.numbers ++ other.numbers) × (result.passes ≡ pass.passes) }
        ensures one { (result.seen ≡ pass.seen) ⊎ (result.seen ≡ other.seen) }
        ensures pass { Shows T.by pass.passes pass.numbers pass.seen result.seen }
        ensures other { Shows T.by pass.passes other.numbers other.seen result.seen }
    {
        let desk = &self.table.shared;
        let (mut seat, number) = pass.into_parts();
        let (joined, _) = other.into_parts();
        desk.join_seat::<Merges>(&mut seat, joined);
        desk.load::<Settle>(&mut seat, ENTRIES);
        Pass {
            badge: seat.into_badge(),
            number,
        }
    }

    /// Takes a last turn, and gives the value out. Its list begins with all that the pass has seen, and behind that has
    /// entries of other passes alone. May wait. Passes that are left can't be used any more.
    pub fn close<R: Wait>(self, rt: &R, pass: Pass<T::Entry>) -> T
        requires { pass.lock ≡ self }
        ensures { Shows T.by pass.passes pass.numbers pass.seen (T.list result) }
    {
        let HistoryLock { table, doors } = self;
        let (mut seat, _) = pass.into_parts();
        enter(rt, &table.shared, doors.as_slice(), &mut seat);
        let value = take(&table.shared, &mut seat);
        leave_empty(&table.shared, &mut seat);
        let mut closed = table.close_with(seat);
        let left = closed.take(VALUE);
        let None = left else { unreachable!() };
        closed.free();
        value
    }
}
