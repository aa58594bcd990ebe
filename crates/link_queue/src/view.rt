//! What a seat at the ledger's table knows. No value of this type is made.
use std::collections::LinkedList;

pub struct Holding<K> {
    /// How many of the ledger's parts it has. A view without any has no links.
    pub parts: u64,
    /// The links that were put by it.
    pub put: LinkedList<K>,
    /// The links that were taken by it.
    pub taken: LinkedList<K>,
    /// The links that wait, where it is the queue's own.
    pub held: LinkedList<K>,
}
