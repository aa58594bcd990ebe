//! How a connection ended.
use capture::Refusal;

/// How a connection ended.
#[derive(Clone, Copy)]
pub enum Served {
    /// The client ended between messages, or an answer that is no refusal of its bytes closed the connection.
    Done,
    /// The client's link failed: its count of faults rose.
    ClientBroke,
    /// The client ended inside a message.
    ClientEndedEarly,
    /// A request was refused for its head, its target or its body, which closed the connection.
    ClientRefused(Refusal),
    /// There was no memory, which closed the connection.
    WantOfMemory,
}
