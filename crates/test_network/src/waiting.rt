//! How long links wait, and what a connection still reads when it ends.
//! No case can say it: the links of a case hold all their bytes, and no time goes by.
use crate::checked::check;
use crate::recorded_network::{LIMITS, Peer, RecordedSocket};
use call_log::{Written, joined, then, written};
use std::alloc::Global;
use std::io;
use std::io::ErrorKind;
use std::process::Abort;
use tcp_links::{Limits, Place, Places, TcpLink};

/// One call of a link.
#[derive(Clone, Copy)]
enum Step {
    Read,
    Answer,
    Await,
    End,
}

use Step::{Answer, Await, End, Read};

/// Takes one step.
fn take(link: &mut TcpLink<RecordedSocket>, step: Step) -> io::Result<usize> {
    match step {
        Read => link.read(&mut [0u8; 4_096]),
        Answer => link.write(b"HTTP/1.1 200 OK\r\n\r\n"),
        Await => {
            link.await_request();
            Ok(0)
        }
        End => {
            link.end();
            Ok(0)
        }
    }
}

/// What the steps answered.
fn answers_of(link: &mut TcpLink<RecordedSocket>, steps: &[Step]) -> Written {
    let mut answers = Written::new();
    for step in steps {
        answers = then(answers, take(link, *step));
    }
    answers
}

/// Who is at the other end of a connection.
#[derive(Clone, Copy)]
enum Who {
    Client,
    Origin,
}

use Who::{Client, Origin};

/// Who is at the other end, whether another connection waits to be read, what the peer does, what is done with the
/// link, and what is called and answered then.
type Row = (Who, bool, Peer, &'static [Step], &'static str);

/// The link of a connection to this peer.
fn link_to(
    places: &Places,
    who: Who,
    peer: Peer,
    limits: &Limits,
) -> io::Result<TcpLink<RecordedSocket>> {
    let socket = RecordedSocket::new(peer);
    match who {
        Client => TcpLink::of_client(socket, places.of_client()?, limits),
        Origin => TcpLink::of_origin(socket, places.of_origin()?, limits),
    }
}

/// Another connection, which waits to be read or doesn't.
fn other(places: &Places, waits: bool) -> io::Result<Place> {
    if waits {
        places.of_client()
    } else {
        places.of_origin()
    }
}

/// A connection beside another.
#[derive(Drop)]
struct Beside {
    link: TcpLink<RecordedSocket>,
    _other: Place,
}

/// The connection to this peer, beside one that waits to be read or doesn't.
fn connection(
    alloc: Global,
    who: Who,
    crowded: bool,
    peer: Peer,
    limits: &Limits,
) -> io::Result<Beside> {
    let Ok(places) = Places::new(alloc) else {
        return Err(io::Error::from(ErrorKind::OutOfMemory));
    };
    let _other = other(&places, crowded)?;
    let link = link_to(&places, who, peer, limits)?;
    Ok(Beside { link, _other })
}

/// What is called of the socket of a row, what the steps answer, how many milliseconds go by, and the causes that are told.
fn waited(alloc: Global, row: &Row) -> Written {
    let (who, crowded, peer, steps, _) = row;
    match connection(alloc, *who, *crowded, *peer, &LIMITS) {
        Ok(mut beside) => told(&mut beside.link, steps),
        Err(_) => Written::new(),
    }
}

/// The same of a link.
fn told(link: &mut TcpLink<RecordedSocket>, steps: &[Step]) -> Written {
    let answers = answers_of(link, steps);
    let socket = link.socket();
    let millis = written(format_args!(" {}", socket.millis));
    let told = joined(joined(socket.calls, " "), answers.as_str());
    joined(joined(told, millis.as_str()), socket.causes.as_str())
}

static ROWS: [Row; 33] = [
    (
        Client,
        false,
        Peer::Silent,
        &[Read, Read],
        "at once;out 500;in 100;read;read;read;read;read; failed;failed; 500",
    ),
    (
        Client,
        true,
        Peer::Silent,
        &[Read, Read],
        "at once;out 500;in 100;read;read; failed;failed; 200",
    ),
    (
        Client,
        false,
        Peer::Silent,
        &[Await, Read],
        "at once;out 500;in 100;read;read;read;read;read; 0;failed; 500",
    ),
    (
        Client,
        false,
        Peer::SendsOnce(10),
        &[Read, Answer, Read],
        "at once;out 500;in 100;read;write;in 3000;read;in 2000;read; 10;19;failed; 5000 10.0.0.7:80: read: timed out;",
    ),
    (
        Client,
        false,
        Peer::SendsOnce(10),
        &[Read, Answer, Await, Read],
        "at once;out 500;in 100;read;write;read;read;read; 10;19;0;failed; 300",
    ),
    (
        Client,
        true,
        Peer::SendsOnce(10),
        &[Read, Answer, Await, Read],
        "at once;out 500;in 100;read;write;read; 10;19;0;failed; 100",
    ),
    (
        Client,
        true,
        Peer::Trickles(10),
        &[Read, Read, Read, Read],
        "at once;out 500;in 100;read;in 3000;read;read;in 2030;read; 10;10;10;failed; 8030 10.0.0.7:80: read: timed out;",
    ),
    (
        Client,
        false,
        Peer::Trickles(10),
        &[Read, Read, Read, Answer, Await, Read, Read],
        "at once;out 500;in 100;read;in 3000;read;read;write;in 100;read;in 3000;read; 10;10;10;19;0;10;10; 9000",
    ),
    (
        Client,
        false,
        Peer::TakesNothing,
        &[Answer, Answer, End],
        "at once;out 500;write;write;write;write;write;write;write;write; failed;failed;0; 4000",
    ),
    (
        Client,
        true,
        Peer::TakesNothing,
        &[Answer, Answer],
        "at once;out 500;write;write;write;write;write;write; failed;failed; 3000",
    ),
    (
        Client,
        false,
        Peer::Keeps(10),
        &[Answer, Answer],
        "at once;out 500;write;write;write;write;write; 10;failed; 2500",
    ),
    (
        Client,
        true,
        Peer::Keeps(10),
        &[Answer, Answer],
        "at once;out 500;write;write;write;write; 10;failed; 2000",
    ),
    (
        Client,
        false,
        Peer::TakesBytes,
        &[Answer, Answer, Answer],
        "at once;out 500;write;write;write;write;write;write;write;write;out 202;write; 1;1;failed; 4002",
    ),
    (
        Client,
        true,
        Peer::TakesBytes,
        &[Answer, Answer],
        "at once;out 500;write;write;write;write;write;out 101;write; 1;failed; 2501",
    ),
    (
        Client,
        false,
        Peer::TakesBytes,
        &[Answer, Answer, Await, Answer],
        "at once;out 500;write;write;write;write;write;write;write;write;write; 1;1;0;1; 4200",
    ),
    (
        Client,
        false,
        Peer::Ended,
        &[Read, Read, Answer, End],
        "at once;out 500;in 100;read;write; 0;0;19;0; 0",
    ),
    (
        Client,
        false,
        Peer::Reset,
        &[Read, Read, End],
        "at once;out 500;in 100;read; failed;failed;0; 0",
    ),
    (
        Client,
        false,
        Peer::Slow(10_000),
        &[Answer, End],
        "at once;out 500;write;end output;in 200;read;in 200;read;in 100;read; 19;0; 400",
    ),
    (
        Client,
        true,
        Peer::Slow(10_000),
        &[Answer, End],
        "at once;out 500;write;end output;in 200;read;in 200;read; 19;0; 300",
    ),
    (
        Client,
        false,
        Peer::Silent,
        &[Answer, End],
        "at once;out 500;write;end output;in 200;read;in 200;read; 19;0; 400",
    ),
    (
        Client,
        true,
        Peer::Silent,
        &[Answer, End],
        "at once;out 500;write;end output;in 200;read; 19;0; 200",
    ),
    (
        Client,
        false,
        Peer::Ended,
        &[Answer, End],
        "at once;out 500;write;end output;in 200;read; 19;0; 0",
    ),
    (
        Client,
        false,
        Peer::Silent,
        &[Read, End],
        "at once;out 500;in 100;read;read;read;read;read; failed;0; 500",
    ),
    (
        Origin,
        false,
        Peer::Silent,
        &[Answer, Read],
        "at once;out 500;write;in 3000;read; 19;failed; 3000 10.0.0.7:80: read: timed out;",
    ),
    (
        Origin,
        false,
        Peer::SendsOnce(10),
        &[Read, Read],
        "at once;out 500;in 3000;read;read; 10;failed; 3000 10.0.0.7:80: read: timed out;",
    ),
    (
        Origin,
        false,
        Peer::Trickles(10),
        &[Read, Read, Read],
        "at once;out 500;in 3000;read;read;in 1020;read; 10;10;failed; 4020 10.0.0.7:80: read: timed out;",
    ),
    (
        Origin,
        false,
        Peer::Trickles(3_000),
        &[Read, Read, Read, Read],
        "at once;out 500;in 3000;read;read;read;read; 3000;3000;3000;3000; 9000",
    ),
    (
        Origin,
        true,
        Peer::Trickles(10),
        &[Read, Read],
        "at once;out 500;in 2500;read;in 2510;read; 10;failed; 2510 10.0.0.7:80: read: timed out;",
    ),
    (
        Origin,
        false,
        Peer::TakesNothing,
        &[Answer, Read],
        "at once;out 500;write;write;write;write;in 3000;read; failed;failed; 5000 10.0.0.7:80: write: timed out; 10.0.0.7:80: read: timed out;",
    ),
    (
        Origin,
        true,
        Peer::TakesNothing,
        &[Answer],
        "at once;out 500;write;write;write;write; failed; 2000 10.0.0.7:80: write: timed out;",
    ),
    (
        Client,
        false,
        Peer::SendsOnce(10),
        &[Read, Read, Read],
        "at once;out 500;in 100;read;in 3000;read;in 2000;read; 10;failed;failed; 5000 10.0.0.7:80: read: timed out;",
    ),
    (
        Client,
        true,
        Peer::SendsOnce(10),
        &[Read, Read],
        "at once;out 500;in 100;read;in 3000;read; 10;failed; 3000 10.0.0.7:80: read: timed out;",
    ),
    (
        Origin,
        false,
        Peer::Reset,
        &[Read],
        "at once;out 500;in 3000;read; failed; 0 10.0.0.7:80: read: connection reset;",
    ),
];

/// Asserts what is called and answered in each row.
fn check_rows<R: Abort>(rt: &R, alloc: Global, rows: &[Row]) {
    for row in rows {
        check(rt, waited(alloc, row), row.4);
    }
}

#[test]
fn each_wait_has_its_limit(rt: HostRuntime) {
    check_rows(&rt, rt.alloc(), &ROWS);
}

/// Who is at the other end, whether another connection waits to be read, what the peer does, what is done once and what is
/// done from then on, and how many milliseconds go by until that fails.
type Lasting = (Who, bool, Peer, &'static [Step], Step, u64);

/// What a user meets, by the limits of the program: a client that says nothing, one that stops, a head of which a byte a
/// second comes, an idle one, an origin that says nothing, events of 20 bytes a second, and peers that take nothing, or
/// nothing but what their system keeps for them, or a byte now and then. Behind an end, 2,000 milliseconds or 100 where another
/// waits, there is nothing to read but by the limits of a new connection.
static LASTING: [Lasting; 19] = [
    (Client, false, Peer::Silent, &[], Read, 10_000),
    (Client, true, Peer::Silent, &[], Read, 2_000),
    (Client, true, Peer::SendsOnce(10), &[], Read, 5_000),
    (Client, false, Peer::SendsOnce(10), &[], Read, 30_000),
    (Client, false, Peer::Trickles(3), &[], Read, 60_063),
    (
        Client,
        false,
        Peer::SendsOnce(10),
        &[Read, Answer, Await],
        Read,
        5_500,
    ),
    (
        Client,
        true,
        Peer::SendsOnce(10),
        &[Read, Answer, Await],
        Read,
        50,
    ),
    (Origin, true, Peer::Silent, &[Answer], Read, 60_000),
    (Origin, false, Peer::Trickles(60), &[Answer], Read, 612_300),
    (Origin, true, Peer::Trickles(60), &[Answer], Read, 61_260),
    (Client, false, Peer::TakesNothing, &[], Answer, 30_000),
    (Client, true, Peer::TakesNothing, &[], Answer, 5_000),
    (Client, false, Peer::Keeps(10), &[], Answer, 31_000),
    (Client, true, Peer::Keeps(10), &[], Answer, 6_000),
    (Origin, true, Peer::TakesNothing, &[], Answer, 30_000),
    (Client, false, Peer::TakesBytes, &[], Answer, 600_428),
    (Client, true, Peer::TakesBytes, &[], Answer, 60_042),
    (Client, false, Peer::Silent, &[Answer, End], Read, 12_000),
    (Client, true, Peer::Silent, &[Answer, End], Read, 2_100),
];

/// More calls than succeed on any of these connections.
const CALLS: u32 = 1_000;

/// The milliseconds at which a step fails that is taken again and again behind others.
fn millis_to_failure(link: &mut TcpLink<RecordedSocket>, steps: &[Step], step: Step) -> u64 {
    let _answers = answers_of(link, steps);
    for _ in 0..CALLS {
        if take(link, step).is_err() {
            break;
        }
    }
    link.socket().millis
}

/// How long the program stays on the connection of a row, or 0 where there is no memory.
fn lasts(alloc: Global, row: &Lasting) -> u64 {
    let (who, crowded, peer, steps, last, _) = row;
    match connection(alloc, *who, *crowded, *peer, &tcp_links::LIMITS) {
        Ok(mut beside) => millis_to_failure(&mut beside.link, steps, *last),
        Err(_) => 0,
    }
}

/// Asserts how long the program stays on the connection of each row.
fn check_lasting<R: Abort>(rt: &R, alloc: Global, rows: &[Lasting]) {
    for row in rows {
        let want = written(row.5);
        check(rt, written(lasts(alloc, row)), want.as_str());
    }
}

#[test]
fn nobody_holds_a_worker_for_long(rt: HostRuntime) {
    check_lasting(&rt, rt.alloc(), &LASTING);
}
