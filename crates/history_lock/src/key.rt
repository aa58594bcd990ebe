//! The table behind the lock. Word 0 is the number of entries, word 1 the next ticket, word 2 the ticket that is served.
//! Slot 0 has the value.
use crate::told::Told;
use crate::view::View;
use atomic_table::{Seat, Shared, Table, TableRule};
use std::alloc::Global;
use std::snapshot::Snapshot;

pub(crate) const ENTRIES: usize = 0;

pub(crate) const TICKET: usize = 1;

pub(crate) const SERVING: usize = 2;

pub(crate) const VALUE: usize = 0;

/// What the table is told when it is made: the value then, and how many passes there will be.
#[derive(Drop)]
pub struct Key<T> {
    pub first: Snapshot<T>,
    pub passes: u32,
}

/// The rule: turns come one after the other, and what each pass has seen begins one list.
pub struct Turns;

impl<T: Told> TableRule<Option<T>, View<T::Entry>, Key<T>> for Turns {
    ghost use Rattle.history_lock.specs.Rule.{Kept, founder};

    ghost holds = { λ key. Kept T.list T.by key.passes };

    ghost first = { λ key. founder (T.list key.first.value) key.passes };
}

pub(crate) type Desk<T, E> = Shared<Option<T>, View<E>, Key<T>, Turns>;

pub(crate) type Board<T, E> = Table<Option<T>, View<E>, Key<T>, Turns, Global>;

pub(crate) type Place<T, E> = Seat<Option<T>, View<E>>;
