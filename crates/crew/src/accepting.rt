//! One who accepts connections at the gate.

use crate::fresh::Fresh;
use command::Status;
use link_queue::Acceptor;
use outside::{Accepted, Gate};

/// The gate, and the status of a server that ends here: for want of memory, unless the gate has said another reason.
#[derive(Drop)]
pub(crate) struct Accepting<G> {
    pub(crate) gate: G,
    pub(crate) status: Status,
}

impl<G: Gate> Acceptor<Fresh<G::Link>> for Accepting<G> {
    ghost use Rattle.crew.specs.steps.Working.{Takes, door_of};

    ghost accepts = { λ was answer is. Takes G.Link.tells (door_of G.Gate was.gate was.status) answer (door_of G.Gate is.gate is.status) };

    fn accept(&mut self) -> Option<Fresh<G::Link>> {
        let Accepting { gate, status } = self;
        match gate.accept() {
            Accepted::Connection(link) => Some(Fresh::new(link)),
            Accepted::Closed => {
                *status = Status::Done;
                None
            }
            Accepted::Failed => {
                *status = Status::Outside;
                None
            }
            Accepted::Memory => {
                *status = Status::Memory;
                None
            }
        }
    }
}
