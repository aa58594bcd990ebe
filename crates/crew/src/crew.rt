//! A crew serves the connections of a gate.
ghost use Rattle.std.specs.Prelude.{◌≡◌, ◌+◌, ◌&&◌, ◌||◌, ◌<◌, ◌≤◌, ◌^◌, [], ◌++◌, drop, length, map, vec_len, if◌then◌else◌, IfSome, IsTrue};
ghost use Rattle.std.specs.Vec.{vec_capacity};
ghost use Rattle.std.specs.Vec.Iter.{into_iter_items};
ghost use Rattle.crew.specs.Crews.{IsEnd, ServesAll};
ghost use Rattle.command.specs.Gates.{gate_told};
ghost use Rattle.crew.specs.Shifts.{GoOn, hands_of};
ghost use Rattle.command.specs.declared.status.Status.TheVariants.{Memory};
ghost use Rattle.crew.specs.steps.Working.{Finishes, ServesOn, Works, all_ended, any_starved, desk_of, door_of, hung_up, left_over, new_desk};

use crate::accepting::Accepting;
use crate::fresh::Fresh;
use crate::member::{Member, none_ended, serve_one};
use archive_shelf::Shelf;
use capture::Site;
use command::Status;
use core::mem::replace_with;
use link_queue::{Served, Unserved, serve_beside};
use outside::{Clock, Dialer, Gate};
use std::alloc::Global;
use std::collections::VecDeque;
use std::mem;
use std::sync::Wait;
use std::thread::Threads;
use std::vec::IntoIter;

/// What a crew leaves: its shelves, in their order, and the status.
#[derive(Drop)]
pub struct Shift<S> {
    /// The shelves that the crew was given.
    pub shelves: Vec<S>,
    /// Why no more connections were accepted.
    pub status: Status,
}

/// Accepts the gate's connections, and serves them by as many members of the crew as there are shelves, each in a thread of its own,
/// until the gate gives no more or there is no memory. What is left then is served by the first member. All that the gate gave is hung
/// up, in the members' order. May wait.
pub fn serve_crew<R, S, G, N, C>(
    rt: &R,
    alloc: Global,
    site: &Site,
    shelves: Vec<S>,
    gate: &mut G,
    crew: &mut Vec<(N, C)>,
) -> Shift<S>
where
    R: Threads + Wait + Sync,
    S: Shelf + Send,
    G: Gate + Send,
    G::Link: Send,
    G::Past: Send,
    N: Dialer + Send,
    N::Link: Send,
    C: Clock + Send,
    requires some { 0 < vec_len shelves }
    requires few { vec_len shelves ≤ vec_len crew.old }
    requires small { vec_len shelves < 2 ^ 32 }
    ensures serves { IsTrue G.Link.tells → IsTrue N.Link.tells
        → ServesAll (record { alone = S.alone; told = S.told; setting = record { site = site.now; clock_tells = C.tells } })
        (G.connections gate.old) (G.connections gate.new)
        (hands_of N.Dialer C.Clock shelves.items crew.old.items) (hands_of N.Dialer C.Clock result.shelves.items crew.new.items) }
    ensures go_on { GoOn S.alone S.told (hands_of N.Dialer C.Clock shelves.items crew.old.items)
        (hands_of N.Dialer C.Clock result.shelves.items crew.new.items) }
    ensures ended { IsEnd (G.closed gate.new) (G.faults gate.old) (G.faults gate.new) result.status }
    ensures later { G.faults gate.old ≤ G.faults gate.new }
    ensures same_others { drop (vec_len shelves) crew.new.items ≡ drop (vec_len shelves) crew.old.items }
    ensures same_count { vec_len result.shelves ≡ vec_len shelves }
{
    let Some(room) = room_for(alloc, shelves.len(), crew.len()) else {
        return lacking(shelves);
    };
    let Room {
        mut members,
        shelves: mut kept,
        crew: empty,
    } = room;
    let mut others = mem::replace(crew, empty).into_iter();
    enlist(alloc, site, shelves, &mut others, &mut members);
    let worked = work_at(rt, alloc, gate, members);
    let Worked { members, status } = worked;
    let starved = disband(members, gate, crew, &mut kept);
    rejoin(others, crew);
    Shift {
        shelves: kept,
        status: status_of(status, starved),
    }
}

/// Room for members at work, and for their shelves and the crew behind it.
struct Room<'a, S, G: Gate, N, C> {
    members: Vec<Member<'a, S, G, N, C>>,
    shelves: Vec<S>,
    crew: Vec<(N, C)>,
}

/// Room for so many at work, of a crew of so many, if there is memory.
fn room_for<'a, S, G: Gate, N, C>(
    alloc: Global,
    workers: usize,
    all: usize,
) -> Option<Room<'a, S, G, N, C>>
    ensures empty { IfSome result (λ room. (room.members.items ≡ []) × (room.shelves.items ≡ []) × (room.crew.items ≡ [])) }
    ensures members { IfSome result (λ room. workers ≤ vec_capacity room.members) }
    ensures shelves { IfSome result (λ room. workers ≤ vec_capacity room.shelves) }
    ensures crew { IfSome result (λ room. all ≤ vec_capacity room.crew) }
{
    let Ok(members) = Vec::with_capacity(alloc, workers) else {
        return None;
    };
    let Ok(shelves) = Vec::with_capacity(alloc, workers) else {
        members.destroy_empty();
        return None;
    };
    let Ok(crew) = Vec::with_capacity(alloc, all) else {
        members.destroy_empty();
        shelves.destroy_empty();
        return None;
    };
    Some(Room {
        members,
        shelves,
        crew,
    })
}

/// There was no memory to begin.
fn lacking<S>(shelves: Vec<S>) -> Shift<S>
    ensures { (result.shelves ≡ shelves) × (result.status ≡ Memory) }
{
    Shift {
        shelves,
        status: Status::Memory,
    }
}

/// The status, unless a member had no room.
fn status_of(status: Status, starved: bool) -> Status
    ensures { result ≡ (if starved then Memory else status) }
{
    if starved {
        return Status::Memory;
    }
    status
}

/// A member for each shelf, with the dialers and clocks that come first.
fn enlist<'a, S, G: Gate, N: Dialer, C: Clock>(
    alloc: Global,
    site: &'a Site,
    shelves: Vec<S>,
    crew: &mut IntoIter<(N, C)>,
    members: &mut Vec<Member<'a, S, G, N, C>>,
)
    requires few { vec_len shelves ≤ length (into_iter_items crew.old) }
    requires none { members.old.items ≡ [] }
    requires room { vec_len shelves ≤ vec_capacity members.old }
    ensures desks { map (desk_of N.Dialer C.Clock) members.new.items ≡ map (new_desk site.now) (hands_of N.Dialer C.Clock shelves.items (into_iter_items crew.old)) }
    ensures count { vec_len members.new ≡ vec_len shelves }
    ensures rest { into_iter_items crew.new ≡ drop (vec_len shelves) (into_iter_items crew.old) }
{
    let mut rest = shelves.into_iter();
    'enlisting: while let Some(shelf) = rest.next() {
        let Some(member) = crew.next() else {
            unreachable!()
        };
        members.push_reserved(Member {
            alloc,
            site,
            shelf,
            member,
            ended: none_ended(alloc),
            starved: false,
        });
    }
    rest.destroy_empty();
}

/// The members behind their work, and the status of the one who accepted.
#[derive(Drop)]
struct Worked<'a, S, G: Gate, N, C> {
    members: Vec<Member<'a, S, G, N, C>>,
    status: Status,
}

/// Accepts connections and has them served beside that; then the first member is done with what is left.
fn work<'a, R, S, G, N, C>(
    rt: &R,
    alloc: Global,
    gate: G,
    members: Vec<Member<'a, S, G, N, C>>,
) -> (G, Worked<'a, S, G, N, C>)
where
    R: Threads + Wait + Sync,
    S: Shelf + Send,
    G: Gate + Send,
    G::Link: Send,
    G::Past: Send,
    N: Dialer + Send,
    N::Link: Send,
    C: Clock + Send,
    requires some { 0 < vec_len members }
    requires few { vec_len members < 2 ^ 32 }
    requires none { all_ended (map (desk_of N.Dialer C.Clock) members.items) ≡ [] }
    ensures works { Works S.alone S.told C.tells G.kept (G.Link.tells && N.Link.tells) G.Link.tells
        (door_of G.Gate gate Memory) (door_of G.Gate result.0 result.1.status)
        (map (desk_of N.Dialer C.Clock) members.entry.items) (map (desk_of N.Dialer C.Clock) result.1.members.items) }
    ensures count { vec_len result.1.members ≡ vec_len members.entry }
{
    let accepting = Accepting {
        gate,
        status: Status::Memory,
    };
    match serve_beside(rt, alloc, accepting, members) {
        Ok(served) => {
            let Served {
                acceptor,
                workers: mut members,
                refused,
                left,
            } = served;
            let Accepting { mut gate, status } = acceptor;
            finish(&mut gate, &mut members[0], left, refused);
            (gate, Worked { members, status })
        }
        Err(unserved) => {
            let Unserved {
                acceptor,
                workers: members,
            } = unserved;
            let Accepting { gate, status } = acceptor;
            (gate, Worked { members, status })
        }
    }
}

/// The same in place.
fn work_at<'a, R, S, G, N, C>(
    rt: &R,
    alloc: Global,
    gate: &mut G,
    members: Vec<Member<'a, S, G, N, C>>,
) -> Worked<'a, S, G, N, C>
where
    R: Threads + Wait + Sync,
    S: Shelf + Send,
    G: Gate + Send,
    G::Link: Send,
    G::Past: Send,
    N: Dialer + Send,
    N::Link: Send,
    C: Clock + Send,
    requires some { 0 < vec_len members }
    requires few { vec_len members < 2 ^ 32 }
    requires none { all_ended (map (desk_of N.Dialer C.Clock) members.items) ≡ [] }
    ensures works { Works S.alone S.told C.tells G.kept (G.Link.tells && N.Link.tells) G.Link.tells
        (door_of G.Gate gate.old Memory) (door_of G.Gate gate.new result.status)
        (map (desk_of N.Dialer C.Clock) members.entry.items) (map (desk_of N.Dialer C.Clock) result.members.items) }
    ensures count { vec_len result.members ≡ vec_len members.entry }
{
    replace_with(
        gate,
        members,
        |gate: G, members: Vec<Member<S, G, N, C>>|
            requires some { 0 < vec_len members }
            requires few { vec_len members < 2 ^ 32 }
            requires none { all_ended (map (desk_of N.Dialer C.Clock) members.items) ≡ [] }
        { work(rt, alloc, gate, members) },
    )
}

/// Hangs up what a member has served, and has it serve what is left and the connection that the queue refused. Each of these is hung up at
/// once, so that nothing has to be kept.
fn finish<S: Shelf, G: Gate, N: Dialer, C: Clock>(
    gate: &mut G,
    member: &mut Member<S, G, N, C>,
    left: VecDeque<Fresh<G::Link>>,
    refused: Option<Fresh<G::Link>>,
)
    requires { IsTrue G.Link.tells → length member.old.ended.items + (left_over left.items refused) ≤ (G.connections gate.old).out }
    ensures { Finishes S.alone S.told C.tells G.kept (G.Link.tells && N.Link.tells) G.Link.tells (left_over left.items refused) (gate_told G.Gate gate.old) (gate_told G.Gate gate.new)
        (desk_of N.Dialer C.Clock member.old) (desk_of N.Dialer C.Clock member.new) }
{
    let ended = mem::replace(&mut member.ended, Vec::new(member.alloc));
    hang_up_all(gate, ended);
    serve_last(gate, member, left, refused);
}

/// Has a member serve what is left in the queue, in its order, and then the connection that it refused.
fn serve_last<S: Shelf, G: Gate, N: Dialer, C: Clock>(
    gate: &mut G,
    member: &mut Member<S, G, N, C>,
    left: VecDeque<Fresh<G::Link>>,
    refused: Option<Fresh<G::Link>>,
)
    requires { IsTrue G.Link.tells → left_over left.items refused ≤ (G.connections gate.old).out }
    ensures { ServesOn S.alone S.told C.tells G.kept (G.Link.tells && N.Link.tells) G.Link.tells (left_over left.items refused) (gate_told G.Gate gate.old) (gate_told G.Gate gate.new)
        (desk_of N.Dialer C.Clock member.old) (desk_of N.Dialer C.Clock member.new) }
{
    serve_left(gate, member, left);
    let Some(fresh) = refused else {
        return;
    };
    serve_through(gate, member, fresh);
}

/// Has a member serve what is left in the queue, in its order.
fn serve_left<S: Shelf, G: Gate, N: Dialer, C: Clock>(
    gate: &mut G,
    member: &mut Member<S, G, N, C>,
    left: VecDeque<Fresh<G::Link>>,
)
    requires { IsTrue G.Link.tells → length left.items ≤ (G.connections gate.old).out }
    ensures { ServesOn S.alone S.told C.tells G.kept (G.Link.tells && N.Link.tells) G.Link.tells (length left.items) (gate_told G.Gate gate.old) (gate_told G.Gate gate.new)
        (desk_of N.Dialer C.Clock member.old) (desk_of N.Dialer C.Clock member.new) }
{
    let mut rest = left;
    'serving: loop {
        match rest.pop_front() {
            Some(fresh) => serve_through(gate, member, fresh),
            None => return,
        }
    }
}

/// Serves a connection by a member, and hangs it up at once.
fn serve_through<S: Shelf, G: Gate, N: Dialer, C: Clock>(
    gate: &mut G,
    member: &mut Member<S, G, N, C>,
    fresh: Fresh<G::Link>,
)
    requires { IsTrue G.Link.tells → 0 < (G.connections gate.old).out }
    ensures { ServesOn S.alone S.told C.tells G.kept (G.Link.tells && N.Link.tells) G.Link.tells 1 (gate_told G.Gate gate.old) (gate_told G.Gate gate.new)
        (desk_of N.Dialer C.Clock member.old) (desk_of N.Dialer C.Clock member.new) }
{
    let Fresh { link } = fresh;
    let Member {
        alloc,
        site,
        shelf,
        member: by,
        ended: _,
        starved: _,
    } = member;
    let past = serve_one::<S, G, N, C>(*alloc, site, shelf, by, link);
    gate.hang_up(past);
}

/// Hangs up all that the members have served, in their order, and gives back what they worked with. Whether one of them had no room.
fn disband<S: Shelf, G: Gate, N: Dialer, C: Clock>(
    members: Vec<Member<S, G, N, C>>,
    gate: &mut G,
    crew: &mut Vec<(N, C)>,
    shelves: &mut Vec<S>,
) -> bool
    requires out { IsTrue G.Link.tells → length (all_ended (map (desk_of N.Dialer C.Clock) members.items)) ≤ (G.connections gate.old).out }
    requires no_crew { crew.old.items ≡ [] }
    requires room { vec_len members ≤ vec_capacity crew.old }
    requires none { shelves.old.items ≡ [] }
    requires place { vec_len members ≤ vec_capacity shelves.old }
    ensures starved { result ≡ any_starved (map (desk_of N.Dialer C.Clock) members.entry.items) }
    ensures logs { IsTrue G.Link.tells → G.connections gate.new ≡ hung_up G.kept (all_ended (map (desk_of N.Dialer C.Clock) members.entry.items)) (G.connections gate.old) }
    ensures same_closed { G.closed gate.new ≡ G.closed gate.old }
    ensures same_faults { G.faults gate.new ≡ G.faults gate.old }
    ensures crew { crew.new.items ≡ map (λ m. m.member) members.entry.items }
    ensures shelves { shelves.new.items ≡ map (λ m. m.shelf) members.entry.items }
    ensures same_room { vec_capacity crew.new ≡ vec_capacity crew.old }
{
    let mut starved = false;
    let mut rest = members.into_iter();
    'disbanding: while let Some(done) = rest.next() {
        let Member {
            alloc: _,
            site: _,
            shelf,
            member,
            ended,
            starved: lacked,
        } = done;
        hang_up_all(gate, ended);
        crew.push_reserved(member);
        shelves.push_reserved(shelf);
        starved = either(starved, lacked);
    }
    rest.destroy_empty();
    starved
}

/// Whether one of the two holds.
fn either(one: bool, other: bool) -> bool
    ensures { result ≡ (one || other) }
{
    one || other
}

/// Those who didn't work stand behind those who did.
fn rejoin<M>(others: IntoIter<M>, crew: &mut Vec<M>)
    requires room { vec_len crew.old + length (into_iter_items others) ≤ vec_capacity crew.old }
    ensures { crew.new.items ≡ crew.old.items ++ into_iter_items others }
{
    let mut rest = others;
    'joining: while let Some(member) = rest.next() {
        crew.push_reserved(member);
    }
    rest.destroy_empty();
}

/// Hangs up connections, in order.
fn hang_up_all<G: Gate>(gate: &mut G, ended: Vec<G::Past>)
    requires out { IsTrue G.Link.tells → length ended.items ≤ (G.connections gate.old).out }
    ensures logs { IsTrue G.Link.tells → G.connections gate.new ≡ hung_up G.kept ended.items (G.connections gate.old) }
    ensures same_closed { G.closed gate.new ≡ G.closed gate.old }
    ensures same_faults { G.faults gate.new ≡ G.faults gate.old }
{
    let mut rest = ended.into_iter();
    'ending: while let Some(past) = rest.next() {
        gate.hang_up(past);
    }
    rest.destroy_empty();
}
