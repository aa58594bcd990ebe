//! What an accept's error is of: of one connection, of the system's room, or of the listener.
use std::io;
use std::io::ErrorKind;

/// What an accept that failed means for the next.
#[derive(Clone, Copy)]
pub(crate) enum AcceptFault {
    /// One connection failed before it was given. Others come.
    Connection,
    /// The system or this process has no room for a connection now.
    Room,
    /// There was no memory.
    Memory,
    /// The listener gives none any more.
    Listener,
}

// Linux's numbers of errors that have no kind of their own, on x86-64 and aarch64.
/// A firewall refused the connection.
const EPERM: i32 = 1;

/// The system has no descriptor left.
const ENFILE: i32 = 23;

/// The process has no descriptor left.
const EMFILE: i32 = 24;

/// The machine isn't on the network.
const ENONET: i32 = 64;

/// The connection broke the protocol.
const EPROTO: i32 = 71;

/// The protocol lacks an option.
const ENOPROTOOPT: i32 = 92;

/// The connection can't be accepted.
const EOPNOTSUPP: i32 = 95;

/// The system has no room for a socket.
const ENOBUFS: i32 = 105;

/// The peer's machine is down.
const EHOSTDOWN: i32 = 112;

/// What an error of an accept means. A connection's own errors come to the accept that would have given it
/// (accept(2), "Error handling"), a firewall's refusal among them.
pub(crate) fn fault_of(error: &io::Error) -> AcceptFault {
    match error.kind() {
        ErrorKind::OutOfMemory => AcceptFault::Memory,
        ErrorKind::ConnectionAborted => AcceptFault::Connection,
        ErrorKind::ConnectionReset => AcceptFault::Connection,
        ErrorKind::HostUnreachable => AcceptFault::Connection,
        ErrorKind::NetworkUnreachable => AcceptFault::Connection,
        ErrorKind::NetworkDown => AcceptFault::Connection,
        ErrorKind::TimedOut => AcceptFault::Connection,
        ErrorKind::Interrupted => AcceptFault::Connection,
        ErrorKind::WouldBlock => AcceptFault::Connection,
        _ => fault_of_number(error.raw_os_error()),
    }
}

/// What an error means that has a number alone.
fn fault_of_number(number: Option<i32>) -> AcceptFault {
    match number {
        Some(EMFILE) => AcceptFault::Room,
        Some(ENFILE) => AcceptFault::Room,
        Some(ENOBUFS) => AcceptFault::Room,
        Some(EPERM) => AcceptFault::Connection,
        Some(EPROTO) => AcceptFault::Connection,
        Some(ENOPROTOOPT) => AcceptFault::Connection,
        Some(ENONET) => AcceptFault::Connection,
        Some(EOPNOTSUPP) => AcceptFault::Connection,
        Some(EHOSTDOWN) => AcceptFault::Connection,
        _ => AcceptFault::Listener,
    }
}

/// Whether an error is want of memory: ENOMEM, or EAI_MEMORY of a host's look-up.
pub fn is_memory(error: &io::Error) -> bool {
    error.kind() == ErrorKind::OutOfMemory
}
