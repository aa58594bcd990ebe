//! How standard streams are read and written that a signal interrupts or that are set not to wait.
//! No case can say it: the input of a case is all there, its output takes all, and no signal comes.
use crate::checked::check;
use crate::recorded_network::{Peer, QUIET, RecordedNetwork, RecordedSocket};
use call_log::{Written, answered, joined, then};
use std::io::ErrorKind;
use std::process::Abort;
use system_network::{EndingInput, print_when_taken, read_some, write_some};

/// What two reads of a standard input ask of a network, and what they answer.
fn reads(stream: RecordedSocket) -> Written {
    let mut network = RecordedNetwork::new(QUIET);
    let mut input = EndingInput::new(stream);
    let mut into = [0u8; 4];
    let first = answered(input.read_when_there(&mut network, &mut into));
    let both = then(first, input.read_when_there(&mut network, &mut into));
    joined(joined(network.calls, " "), both.as_str())
}

/// The same, and what one read and one write answer that don't wait.
fn calls_of(stream: RecordedSocket) -> Written {
    let waited = joined(reads(stream), " ");
    let mut from = stream;
    let came = joined(then(waited, read_some(&mut from, &mut [0u8; 4])), " ");
    let mut to = stream;
    then(came, write_some(&mut to, b"four"))
}

/// How often a call fails and how, how much comes or is taken then, and what is asked and answered.
static ROWS: [(u32, ErrorKind, usize, &str); 6] = [
    (0, ErrorKind::Interrupted, 3, " 3;3; 3; 3;"),
    (2, ErrorKind::Interrupted, 9, " 4;4; 4; 4;"),
    (2, ErrorKind::Interrupted, 0, " 0;0; 0; failed;"),
    (
        1_000,
        ErrorKind::Interrupted,
        3,
        " failed;3; failed; failed;",
    ),
    (
        2,
        ErrorKind::WouldBlock,
        1,
        "pause 10;pause 10; 1;1; failed; failed;",
    ),
    (1, ErrorKind::BrokenPipe, 1, " failed;1; failed; failed;"),
];

/// What a write to an output asks of a network that takes nothing for 20 milliseconds and then three bytes, and what it
/// answers.
fn writes(piece: &[u8]) -> Written {
    let mut network = RecordedNetwork::new(QUIET);
    let taken = print_when_taken(&mut network, piece);
    then(joined(network.calls, " "), taken)
}

/// Asserts what is asked and answered in each row.
fn check_rows<R: Abort>(rt: &R, rows: &[(u32, ErrorKind, usize, &str)]) {
    for (often, kind, then, want) in rows {
        let peer = Peer::Fails(*often, *kind, *then);
        check(rt, calls_of(RecordedSocket::new(peer)), want);
    }
}

#[test]
fn what_has_not_come_yet_is_no_fault(rt: HostRuntime) {
    check_rows(&rt, &ROWS);
    check(&rt, writes(b"four"), "pause 10;pause 10; 3;");
}
