//! The steps of a turn.
ghost use Rattle.std.specs.Prelude.{◌≡◌, ◌<◌, ℕ, true, ◌∷◌, [], drop, length, Some, None};
ghost use Rattle.history_lock.specs.Rule.{has_turn, number_of};
ghost use Rattle.history_lock.specs.Phases.{IsTable, IsSame, Entered, HasLeft, HasNoted, HoldsSeen, Worked};
ghost use Rattle.history_lock.specs.declared.view.Stage.TheVariants.{Idle, Empty};

use crate::doors::door_of;
use crate::key::{Desk, ENTRIES, Place, SERVING, TICKET, VALUE};
use crate::plays::{Draw, LeaveEmpty, Look, Note, PassOn};
use crate::told::{Told, Work};
use std::hint;
use std::sync::Wait;
use std::thread::Parker;

/// How often a pass looks at the ticket that is served, before it sleeps: for less than a call of the system takes.
const LOOKS: u32 = 100;

/// Draws a ticket and waits until it is served.
pub(crate) fn enter<T: Told, R: Wait>(
    rt: &R,
    desk: &Desk<T, T::Entry>,
    doors: &[Parker],
    seat: &mut Place<T, T::Entry>,
) -> u64
    requires table { IsTable desk.now.table_id × (seat.old.table_id ≡ desk.now.table_id) }
    requires doors { 0 < length doors.now }
    requires idle { (seat.old.me.0.stage ≡ Idle) × (seat.old.me.1 ≡ []) × (0 < length seat.old.me.0.numbers) }
    ensures same { IsSame seat.old seat.new }
    ensures entered { Entered T.list T.by seat.old.me.0 result seat.new.me }
{
    let ticket = desk.fetch_add::<Draw>(seat, TICKET, 1);
    for _ in rt.forever() {
        let serving = desk.load::<Look>(seat, SERVING);
        if serving == ticket {
            return ticket;
        }
        if !comes_soon(desk, ticket) {
            door_of(doors, ticket).park(rt);
        }
    }
    unreachable!()
}

/// Looks at the ticket that is served, until it is this one or `LOOKS` are made.
fn comes_soon<T: Told>(desk: &Desk<T, T::Entry>, ticket: u64) -> bool
    requires { IsTable desk.now.table_id }
{
    for _ in 0..LOOKS {
        if desk.peek(SERVING) == ticket {
            return true;
        }
        hint::spin_loop();
    }
    false
}

/// Takes the value out of the slot in hand.
pub(crate) fn take<T: Told>(desk: &Desk<T, T::Entry>, seat: &mut Place<T, T::Entry>) -> T
    requires table { seat.old.table_id ≡ desk.now.table_id }
    requires full { (x : T) × (seat.old.me.1 ≡ (0, Some x) ∷ []) }
    ensures same { IsSame seat.old seat.new }
    ensures taken { (seat.old.me.1 ≡ (0, Some result) ∷ []) × (seat.new.me ≡ (seat.old.me.0, (0, None) ∷ [])) }
{
    desk.exchange(seat, VALUE, None).unwrap()
}

/// Puts the value into the empty slot in hand.
pub(crate) fn give<T: Told>(desk: &Desk<T, T::Entry>, seat: &mut Place<T, T::Entry>, value: T)
    requires table { seat.old.table_id ≡ desk.now.table_id }
    requires empty { seat.old.me.1 ≡ (0, None) ∷ [] }
    ensures same { IsSame seat.old seat.new }
    ensures given { seat.new.me ≡ (seat.old.me.0, (0, Some value) ∷ []) }
{
    let left = desk.exchange(seat, VALUE, Some(value));
    let None = left else { unreachable!() };
}

/// Does the work at the value in hand, for the pass of this number, and notes the entries that it added.
pub(crate) fn work_at<T: Told, W: Work<T>>(
    desk: &Desk<T, T::Entry>,
    seat: &mut Place<T, T::Entry>,
    number: u32,
    work: W,
) -> W::Reply
    requires table { IsTable desk.now.table_id × (seat.old.table_id ≡ desk.now.table_id) }
    requires holds { (ticket : ℕ) × HoldsSeen T.list ticket seat.old.me }
    requires numbered { seat.old.me.0.numbers ≡ number ∷ drop 1 seat.old.me.0.numbers }
    requires ready { W.ready work seat.old.me.0.seen }
    ensures same { IsSame seat.old seat.new }
    ensures worked { Worked T.list T.by number seat.old.me seat.new.me (λ added. W.does work number seat.old.me.0.seen added result) }
{
    let mut value = take(desk, seat);
    let found = value.told();
    let reply = work.act(number, &mut value);
    let count = value.told() - found;
    give(desk, seat, value);
    note_all(desk, seat, count);
    reply
}

/// Notes so many entries of the value in hand.
pub(crate) fn note_all<T: Told>(desk: &Desk<T, T::Entry>, seat: &mut Place<T, T::Entry>, count: u64)
    requires table { IsTable desk.now.table_id × (seat.old.table_id ≡ desk.now.table_id) }
    requires left { HasLeft T.list T.by count seat.old.me }
    ensures same { IsSame seat.old seat.new }
    ensures noted { HasNoted T.list T.by seat.old.me seat.new.me }
{
    let mut left = count;
    while left > 0 {
        desk.fetch_add::<Note>(seat, ENTRIES, 1);
        left -= 1;
    }
}

/// Ends the turn of the ticket, and wakes the pass that is next.
pub(crate) fn pass_on<T: Told>(
    desk: &Desk<T, T::Entry>,
    doors: &[Parker],
    seat: &mut Place<T, T::Entry>,
    ticket: u64,
)
    requires doors { 0 < length doors.now }
    requires table { IsTable desk.now.table_id × (seat.old.table_id ≡ desk.now.table_id) }
    requires holds { HoldsSeen T.list ticket seat.old.me }
    ensures same { IsSame seat.old seat.new }
    ensures rests { seat.new.me ≡ (record seat.old.me.0 { stage = Idle }, []) }
{
    let next = ticket.wrapping_add(1);
    desk.store::<PassOn>(seat, SERVING, next);
    door_of(doors, next).unpark();
}

/// Ends the last turn of all, with nothing in the slot.
pub(crate) fn leave_empty<T: Told>(desk: &Desk<T, T::Entry>, seat: &mut Place<T, T::Entry>)
    requires table { IsTable desk.now.table_id × (seat.old.table_id ≡ desk.now.table_id) }
    requires holds { (has_turn seat.old.me.0.stage ≡ true) × (seat.old.me.1 ≡ (0, None) ∷ []) }
    ensures same { IsSame seat.old seat.new }
    ensures empty { seat.new.me ≡ (record seat.old.me.0 { stage = Empty (number_of seat.old.me.0.stage) }, []) }
{
    desk.load::<LeaveEmpty>(seat, ENTRIES);
}
