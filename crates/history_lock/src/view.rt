//! What a seat at the lock's table knows. No value of these types is made.
use std::collections::LinkedList;

/// Where a pass stands in its turn. A ticket counts up from 0 without end.
pub enum Stage<E> {
    /// It has no ticket.
    Idle,
    /// It has this ticket, and waits.
    Waits(u64),
    /// Its ticket is served, and it has the slot in hand.
    Holds(u64),
    /// Its ticket is served, and the slot is at home with nothing in it.
    Empty(u64),
    /// It was made of two passes, which had seen these lists and had these numbers.
    Joined(LinkedList<E>, LinkedList<u32>, LinkedList<E>, LinkedList<u32>),
}

pub struct View<E> {
    /// The entries that the pass has seen, which the value's list begins with.
    pub seen: LinkedList<E>,
    /// The numbers of the pass. A view without any is spent.
    pub numbers: LinkedList<u32>,
    /// How many passes the lock was made for.
    pub passes: u32,
    /// For the seat that makes the others, how many were made. 0 for each other one.
    pub opens: u32,
    pub stage: Stage<E>,
}
