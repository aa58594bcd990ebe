//! Two connections that a server serves at once.
ghost use Rattle.std.specs.Prelude.{◌≡◌, ◌≤◌, [], false, length};
ghost use Rattle.outside.specs.Link.{no_traffic};
ghost use Rattle.outside.specs.Gate.{heard_of, no_connections};
ghost use Rattle.outside.specs.Records.{nothing_out};

use command::{Status, Unknown};
use disk_model::MemoryDisk;
use outside::{Accepted, DialError, Dialer, Failed, Gate, Link, MemoryClock, MemorySink};
use proxy_run::{CREW, Crew, run};
use std::alloc::Global;
use std::process::Abort;
use std::sync::Wait;
use std::sync::atomic::{AtomicU64, Ordering};
use std::test::*;
use std::thread;
use std::thread::Threads;
use std::time::{Clock, Duration};

// One request.
const FIRST: &[u8] = b"GET http://a.test/ HTTP/1.1\r\nHost: a.test\r\n\r\n";

// Two requests.
const SECOND: &[u8] =
    b"GET http://b.test/ HTTP/1.1\r\nHost: b.test\r\n\r\nGET http://c.test/ HTTP/1.1\r\nHost: c.test\r\n\r\n";

// The length of each request, in bytes.
const REQUEST: usize = 45;

// How many bytes a client sends at once. The end of a request and the front of the next one come in one piece.
const PIECE: usize = 30;

const ANSWER: &[u8] = b"HTTP/1.1 200 OK\r\nContent-Length: 5\r\nConnection: close\r\n\r\nhello";

// How many requests were answered, and how often that was awaited in vain, or a call came out of its turn.
#[derive(Clone, Copy)]
struct Told<'a> {
    answered: &'a AtomicU64,
    wrong: &'a AtomicU64,
}

// Waits until so many requests were answered, for ten seconds at most.
fn await_answers<R: Clock>(rt: &R, told: Told, count: u64) {
    for _ in 0..10_000 {
        if told.answered.load(Ordering::SeqCst) >= count {
            return;
        }
        thread::sleep(rt, Duration::from_millis(1));
    }
    told.wrong.fetch_add(1, Ordering::SeqCst);
}

// Gives what comes next of a text, and says how much that is.
fn give(text: &[u8], at: &mut usize, into: &mut [u8]) -> usize
    ensures { result ≤ length into.old }
{
    let place = (*at).min(text.len());
    let left = &text[place..];
    let count = left.len().min(into.len());
    into[..count].copy_from_slice(&left[..count]);
    *at = place + count;
    count
}

// The front of a text, up to the piece that comes next.
fn front(text: &'static [u8], at: usize) -> &'static [u8] {
    &text[..at.saturating_add(PIECE).min(text.len())]
}

// A client, who sends requests in pieces, and nothing more. It notes where it isn't told that a request is awaited, is told so
// inside one, or is asked for more while it waits for an answer.
#[derive(Drop)]
struct Client<'a> {
    requests: &'static [u8],
    at: usize,
    // How many of these bytes are requests that were answered.
    answered: usize,
    told: Told<'a>,
    is_awaited: bool,
}

impl<'a> Client<'a> {
    // Whether each request that has begun was answered.
    fn is_between(&self) -> bool {
        self.at == self.answered
    }

    // Whether a request is whole that wasn't answered.
    fn waits(&self) -> bool {
        self.at >= self.answered.saturating_add(REQUEST)
    }

    // Whether it may be asked for more.
    fn may_send(&self) -> bool {
        if self.is_between() {
            return self.is_awaited;
        }
        !self.waits()
    }

    // Counts a call that comes out of its turn.
    fn note(&self, is_right: bool) {
        if !is_right {
            self.told.wrong.fetch_add(1, Ordering::SeqCst);
        }
    }
}

impl<'a> Link for Client<'a> {
    ghost tells = { false };

    ghost traffic = { λ _. no_traffic [] 0 };

    ghost faults = { λ _. 0 };

    fn read(&mut self, into: &mut [u8]) -> Result<usize, Failed> {
        self.note(self.may_send());
        self.is_awaited = false;
        Ok(give(front(self.requests, self.at), &mut self.at, into))
    }

    fn write(&mut self, piece: &[u8]) -> Result<usize, Failed> {
        if self.waits() {
            self.told.answered.fetch_add(1, Ordering::SeqCst);
            self.answered = self.answered.saturating_add(REQUEST);
        }
        Ok(piece.len())
    }

    fn await_request(&mut self) {
        self.note(self.is_between());
        self.is_awaited = true;
    }
}

// An origin, which may answer only once both requests of the other connection were answered.
#[derive(Drop)]
struct Origin<'a, R> {
    rt: &'a R,
    at: usize,
    told: Told<'a>,
    waits: bool,
}

impl<'a, R: Clock> Link for Origin<'a, R> {
    ghost tells = { false };

    ghost traffic = { λ _. no_traffic [] 0 };

    ghost faults = { λ _. 0 };

    fn read(&mut self, into: &mut [u8]) -> Result<usize, Failed> {
        if self.waits {
            await_answers(self.rt, self.told, 2);
        }
        self.waits = false;
        Ok(give(ANSWER, &mut self.at, into))
    }

    fn write(&mut self, piece: &[u8]) -> Result<usize, Failed> {
        Ok(piece.len())
    }

    fn await_request(&mut self) {}
}

// The ways to the origins. That of `a.test` waits.
#[derive(Drop)]
struct Origins<'a, R> {
    rt: &'a R,
    told: Told<'a>,
}

impl<'a, R: Clock> Dialer for Origins<'a, R> {
    type Link = Origin<'a, R>;

    ghost links = { λ _. nothing_out };

    ghost faults = { λ _. 0 };

    fn dial(&mut self, host: &str, _port: u16) -> Result<Origin<'a, R>, DialError> {
        Ok(Origin {
            rt: self.rt,
            at: 0,
            told: self.told,
            waits: host == "a.test",
        })
    }

    fn hang_up(&mut self, _link: Origin<'a, R>) {}
}

// A gate that gives two connections, and closes only once all their requests were answered.
#[derive(Drop)]
struct Door<'a, R> {
    rt: &'a R,
    told: Told<'a>,
    given: u32,
    closed: bool,
}

impl<'a, R: Clock> Gate for Door<'a, R> {
    type Link = Client<'a>;

    type Past = ();

    ghost connections = { λ _. no_connections };

    ghost closed = { λ door. door.closed };

    ghost faults = { λ _. 0 };

    ghost kept = { λ _. heard_of (no_traffic [] 0) 0 };

    fn accept(&mut self) -> Accepted<Client<'a>> {
        if self.closed {
            return Accepted::Closed;
        }
        if self.given == 2 {
            await_answers(self.rt, self.told, 3);
            self.closed = true;
            return Accepted::Closed;
        }
        let requests = if self.given == 0 { FIRST } else { SECOND };
        self.given = self.given.saturating_add(1);
        Accepted::Connection(Client {
            requests,
            at: 0,
            answered: 0,
            told: self.told,
            is_awaited: false,
        })
    }

    fn end(_link: Client<'a>) {}

    fn hang_up(&mut self, _past: ()) {}
}

fn door_of<'a, R>(rt: &'a R, told: Told<'a>) -> Door<'a, R> {
    Door {
        rt,
        told,
        given: 0,
        closed: false,
    }
}

// A whole crew, each with a clock that says one time.
fn crew_of<'a, R: Clock + Abort>(
    rt: &'a R,
    alloc: Global,
    told: Told<'a>,
) -> Crew<Origins<'a, R>, MemoryClock>
    ensures { length result.members.items ≡ CREW }
{
    let Ok(mut members) = Vec::with_capacity(alloc, CREW) else {
        panic!(rt; "no memory")
    };
    'making: for _place in 0..CREW {
        members.push_reserved((Origins { rt, told }, MemoryClock::new(Vec::new(alloc))));
    }
    Crew { members }
}

// The origin of the first connection answers only once both requests of the second one were answered, and the gate closes only once all
// were. Each client is told that a request is awaited before its first and behind the last answer, and not inside one, also where
// the front of that came with the request before it; and it isn't asked for more while it waits for an answer.
#[test]
fn two_connections_are_served_at_once(rt: HostRuntime) -> Result<(), Fail> {
    serve_two(&rt, rt.alloc());
    Ok(())
}

fn serve_two<R: Threads + Wait + Clock + Abort + Sync>(rt: &R, alloc: Global) {
    let answered = AtomicU64::new(0);
    let wrong = AtomicU64::new(0);
    let told = Told {
        answered: &answered,
        wrong: &wrong,
    };
    let mut crew = crew_of(rt, alloc, told);
    let mut door = door_of(rt, told);
    let mut out = MemorySink::new(alloc, Vec::new(alloc));
    let disk = MemoryDisk::new(alloc, Vec::new(alloc));
    let words = [
        "serve",
        "6ba7b810-9dad-11d1-80b4-00c04fd430c8",
        "http://localhost:8000",
        "2",
    ];
    let ran = run::<_, _, _, _, _, _, Unknown>(
        rt, alloc, &words, disk, &mut door, &mut crew, &mut out,
    );
    assert!(rt; ran.status == Status::Done);
    assert!(rt; wrong.load(Ordering::SeqCst) == 0);
    assert!(rt; out.written() == b"captures 3\n".as_slice());
}
