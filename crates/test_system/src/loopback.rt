//! Connections on the loopback, once each.
//! No case can say it: a case has no sockets, so nothing there is reset, waited for or lost on its way.
use crate::checked::check;
use call_log::{Written, joined, then, written};
use outside::{Accepted, Dialer, Failed, Gate, Link};
use real_outside::{RealDialer, RealGate, RealLink};
use std::io::{Read, Write};
use std::net::{Ipv4Addr, Shutdown, SocketAddr, TcpListener, TcpStream};
use std::process::Abort;
use std::thread::Threads;
use std::time::{Duration, Instant};
use std::{io, thread};
use tcp_links::{Address, LIMITS, Limits, Places, TcpDialer, TcpGate};

const HOST: &str = "127.0.0.1";

/// An address that is for documents alone (RFC 5737), so none of this machine's.
const ELSEWHERE: &str = "192.0.2.1";

/// Limits that a test can wait for.
const SHORT: Limits = Limits {
    fresh: 50,
    fresh_crowded: 50,
    idle: 50,
    idle_crowded: 50,
    piece: 5_000,
    piece_crowded: 5_000,
    request: 5_000,
    origin: 50,
    write: 50,
    write_crowded: 50,
    write_turn: 50,
    whole: 1_000,
    whole_crowded: 1_000,
    connect: 200,
    linger: 50,
    linger_crowded: 50,
    pause: 1,
    most_pauses: 1,
    most_clients: 1,
};

type HostGate = RealGate<HostRuntime>;

type HostLink = RealLink<HostRuntime>;

/// A port of the system's choice at which nobody listens any more, or 0.
pub(crate) fn free_port(rt: HostRuntime) -> u16 {
    match TcpListener::bind(&rt, (Ipv4Addr::LOCALHOST, 0)) {
        Ok(listener) => match listener.local_addr() {
            Ok(address) => address.port(),
            Err(_) => 0,
        },
        Err(_) => 0,
    }
}

/// A gate at a port of the system's choice, which listens where it can.
fn gate_at(rt: HostRuntime, host: &str, limits: Limits) -> Option<HostGate> {
    let address = Address::new(rt.alloc(), host, 0).ok()?;
    let places = Places::new(rt.alloc()).ok()?;
    let mut gate = TcpGate::new(rt, Some(address), places, limits);
    gate.bind();
    Some(RealGate::Tcp { gate, faults: 0 })
}

/// The port at which a gate listens, or 0.
fn port_of(gate: &HostGate) -> u16 {
    match gate.own_address() {
        Some(address) => address.port(),
        None => 0,
    }
}

/// A dialer with these limits.
fn dialer_on(rt: HostRuntime, limits: Limits) -> Option<RealDialer<HostRuntime>> {
    let places = Places::new(rt.alloc()).ok()?;
    Some(RealDialer::Tcp {
        dialer: TcpDialer::new(rt, places, limits, None),
        faults: 0,
    })
}

/// A gate, a client of it and others that crowd it, a dialer, and an end of a connection that one of them gave.
#[derive(Drop)]
struct Scene {
    rt: HostRuntime,
    gate: HostGate,
    client: Option<TcpStream>,
    crowd: Vec<TcpStream>,
    dialer: RealDialer<HostRuntime>,
    link: Option<HostLink>,
}

/// A gate at a host, to which a client has connected if it could.
fn scene_at(rt: HostRuntime, host: &str, limits: Limits) -> Option<Scene> {
    let dialer = dialer_on(rt, limits)?;
    let gate = gate_at(rt, host, limits)?;
    Some(scene_of(rt, gate, dialer))
}

/// The same with its gate and its dialer.
fn scene_of(rt: HostRuntime, gate: HostGate, dialer: RealDialer<HostRuntime>) -> Scene {
    let client = client_of(rt, port_of(&gate));
    Scene {
        rt,
        gate,
        client,
        crowd: Vec::new(rt.alloc()),
        dialer,
        link: None,
    }
}

/// A client's connection to a port.
fn client_of(rt: HostRuntime, port: u16) -> Option<TcpStream> {
    TcpStream::connect(&rt, (HOST, port)).ok()
}

/// What the client, the gate, the dialer or an end of a connection does.
#[derive(Clone, Copy)]
enum Step {
    /// The client sends this.
    Says(&'static [u8]),
    /// The client sends more than is read.
    Floods,
    /// The client ends its output.
    Ends,
    /// The client reads up to 16 bytes.
    Hears,
    /// The client closes its connection.
    Goes,
    /// So many more clients connect, each of which sends a byte of its own.
    Crowds(u8),
    /// The gate gives its next connection.
    Accepts,
    /// The gate gives so many connections, and a byte comes on each: the bytes come in turn.
    AcceptsAll(u8),
    /// The dialer connects to the gate.
    Dials,
    /// The dialer connects to a port at which nobody listens any more.
    DialsNobody,
    /// The link reads up to 16 bytes.
    Reads,
    /// The link writes this.
    Writes(&'static [u8]),
    /// The link writes until a call fails, or so often that it never will.
    Fills,
    /// The link is told that a next request is awaited.
    Awaits,
    /// The link tells whether it has failed: 1 where it has.
    Tells,
    /// The gate's link is hung up.
    HangsUp,
    /// The dialer's link is hung up.
    Leaves,
}

use Step::{
    Accepts, AcceptsAll, Awaits, Crowds, Dials, DialsNobody, Ends, Fills, Floods, Goes, HangsUp,
    Hears, Leaves, Reads, Says, Tells, Writes,
};

/// An answer of the system as a link's.
fn passed(answer: io::Result<usize>) -> Result<usize, Failed> {
    match answer {
        Ok(n) => Ok(n),
        Err(_) => Err(Failed),
    }
}

/// Takes a step of the client.
fn of_client(client: &mut TcpStream, step: Step) -> Result<usize, Failed> {
    match step {
        Says(bytes) => passed(client.write(bytes)),
        Floods => passed(client.write(&[b'x'; 100_000])),
        Hears => passed(client.read(&mut [0u8; 16])),
        Ends => match client.shutdown(Shutdown::Write) {
            Ok(()) => Ok(0),
            Err(_) => Err(Failed),
        },
        _ => Err(Failed),
    }
}

/// Writes until a call fails, or so often that it never will.
fn fills(link: &mut HostLink) -> Result<usize, Failed> {
    for _ in 0..10_000 {
        link.write(&[b'x'; 8_192])?;
    }
    Ok(0)
}

/// Writes what isn't empty.
fn writes(link: &mut HostLink, bytes: &[u8]) -> Result<usize, Failed> {
    if bytes.is_empty() {
        return Err(Failed);
    }
    link.write(bytes)
}

/// Takes a step of an end of a connection.
fn of_link(link: &mut HostLink, step: Step) -> Result<usize, Failed> {
    match step {
        Reads => link.read(&mut [0u8; 16]),
        Writes(bytes) => writes(link, bytes),
        Fills => fills(link),
        Awaits => {
            link.await_request();
            Ok(0)
        }
        Tells => Ok(usize::from(link.has_failed())),
        _ => Err(Failed),
    }
}

/// Hangs the link up.
fn hangs_up(link: Option<HostLink>) -> Result<usize, Failed> {
    match link {
        Some(link) => {
            HostGate::end(link);
            Ok(0)
        }
        None => Err(Failed),
    }
}

/// Hangs the link of a dialer up.
fn leaves(dialer: &mut RealDialer<HostRuntime>, link: Option<HostLink>) -> Result<usize, Failed> {
    match link {
        Some(link) => {
            dialer.hang_up(link);
            Ok(0)
        }
        None => Err(Failed),
    }
}

/// Puts the end of a connection in the place of another.
fn put(link: &mut Option<HostLink>, came: HostLink) -> Result<usize, Failed> {
    drop(link.replace(came));
    Ok(0)
}

/// The next connection of a gate.
fn accepts(gate: &mut HostGate, link: &mut Option<HostLink>) -> Result<usize, Failed> {
    match gate.accept() {
        Accepted::Connection(came) => put(link, came),
        Accepted::Closed => Ok(1),
        Accepted::Failed => Err(Failed),
        Accepted::Memory => Ok(2),
    }
}

/// How many of so many connections come in the order in which they were made.
fn accepts_all(
    gate: &mut HostGate,
    link: &mut Option<HostLink>,
    many: u8,
) -> Result<usize, Failed> {
    for byte in 0..many {
        accepts(gate, link)?;
        if byte_of(link) != Some(byte) {
            return Ok(usize::from(byte));
        }
    }
    Ok(usize::from(many))
}

/// The byte that comes on a connection.
fn byte_of(link: &mut Option<HostLink>) -> Option<u8> {
    let mut into = [0u8; 1];
    match link {
        Some(link) => match link.read(&mut into) {
            Ok(1) => Some(into[0]),
            Ok(_) => None,
            Err(_) => None,
        },
        None => None,
    }
}

/// A connection of a dialer to a port.
fn dials(
    dialer: &mut RealDialer<HostRuntime>,
    link: &mut Option<HostLink>,
    port: u16,
) -> Result<usize, Failed> {
    match dialer.dial(HOST, port) {
        Ok(came) => put(link, came),
        Err(_) => Err(Failed),
    }
}

/// Makes one more client of a port, which sends this byte, and answers whether that was taken.
fn joins(rt: HostRuntime, port: u16, byte: u8, crowd: &mut Vec<TcpStream>) -> bool {
    let address = SocketAddr::from((Ipv4Addr::LOCALHOST, port));
    match TcpStream::connect_timeout(&rt, &address, Duration::from_millis(200)) {
        Ok(mut client) => client.write(&[byte]).is_ok() && crowd.push(client).is_ok(),
        Err(_) => false,
    }
}

/// Makes so many more clients of a port, and fails at the first that isn't taken.
fn crowds(
    rt: HostRuntime,
    port: u16,
    crowd: &mut Vec<TcpStream>,
    many: u8,
) -> Result<usize, Failed> {
    for byte in 0..many {
        if !joins(rt, port, byte, crowd) {
            return Err(Failed);
        }
    }
    Ok(crowd.len())
}

/// Takes one step.
fn take(scene: &mut Scene, step: Step) -> Result<usize, Failed> {
    let (rt, port) = (scene.rt, port_of(&scene.gate));
    match step {
        Goes => {
            scene.client = None;
            Ok(0)
        }
        Crowds(many) => crowds(rt, port, &mut scene.crowd, many),
        Accepts => accepts(&mut scene.gate, &mut scene.link),
        AcceptsAll(many) => accepts_all(&mut scene.gate, &mut scene.link, many),
        Dials => dials(&mut scene.dialer, &mut scene.link, port),
        DialsNobody => dials(&mut scene.dialer, &mut scene.link, free_port(rt)),
        HangsUp => hangs_up(scene.link.take()),
        Leaves => leaves(&mut scene.dialer, scene.link.take()),
        Says(_) | Floods | Ends | Hears => match &mut scene.client {
            Some(client) => of_client(client, step),
            None => Err(Failed),
        },
        _ => match &mut scene.link {
            Some(link) => of_link(link, step),
            None => Err(Failed),
        },
    }
}

/// How many faults a gate and a dialer count.
fn faults_of(scene: &Scene) -> (u64, u64) {
    let gate = match &scene.gate {
        RealGate::Once { .. } => 0,
        RealGate::Tcp { faults, .. } => *faults,
    };
    match &scene.dialer {
        RealDialer::Echo { .. } => (gate, 0),
        RealDialer::Tcp { faults, .. } => (gate, *faults),
    }
}

/// What the steps answer, and whether all that took less than 4 seconds.
fn played(scene: &mut Scene, steps: &[Step]) -> Written {
    let start = Instant::now(&scene.rt);
    let mut told = Written::new();
    for step in steps {
        told = then(told, take(scene, *step));
    }
    let in_time = written(is_within(scene.rt, start, 4));
    joined(joined(told, " "), in_time.as_str())
}

/// Whether so many seconds haven't gone by since a start.
fn is_within(rt: HostRuntime, start: io::Result<Instant>, seconds: u64) -> bool {
    let Ok(start) = start else {
        return false;
    };
    match start.elapsed(&rt) {
        Ok(gone) => gone < Duration::from_secs(seconds),
        Err(_) => false,
    }
}

/// What the steps answer at a host with these limits, whether in time, whether the gate was refused, and how many faults
/// gate and dialer count.
fn told_of(rt: HostRuntime, host: &str, limits: Limits, steps: &[Step]) -> Written {
    match scene_at(rt, host, limits) {
        Some(mut scene) => {
            let told = played(&mut scene, steps);
            let refused = scene.gate.was_refused();
            let (gate, dialer) = faults_of(&scene);
            let told = told.as_str();
            written(format_args!("{told} {refused} {gate} {dialer}"))
        }
        None => Written::new(),
    }
}

/// What is done at a host, and what is told then.
type Row = (&'static str, Limits, &'static [Step], &'static str);

/// A client that ended its output is answered; one that closes its connection before it reads isn't one that ended; an
/// answer arrives before what nobody read; a client that says nothing, takes nothing or sends no next request is left; of
/// many that come at once each is taken; and a gate that can't listen fails.
static CLIENTS: [Row; 7] = [
    (
        HOST,
        LIMITS,
        &[
            Accepts,
            Says(b"ask"),
            Ends,
            Reads,
            Reads,
            Writes(b"answer"),
            Reads,
            Tells,
            HangsUp,
            Hears,
            Hears,
        ],
        "0;3;0;3;0;6;0;0;0;6;0; true false 0 0",
    ),
    (
        HOST,
        LIMITS,
        &[Accepts, Writes(b"unread"), Goes, Reads, Reads, Tells],
        "0;6;0;failed;failed;1; true false 0 0",
    ),
    (
        HOST,
        LIMITS,
        &[
            Accepts,
            Floods,
            Ends,
            Writes(b"refused"),
            HangsUp,
            Hears,
            Hears,
        ],
        "0;100000;0;7;0;7;0; true false 0 0",
    ),
    (
        HOST,
        SHORT,
        &[Accepts, Reads, Fills],
        "0;failed;failed; true false 0 0",
    ),
    (
        HOST,
        SHORT,
        &[Accepts, Says(b"x"), Reads, Awaits, Reads],
        "0;1;1;0;failed; true false 0 0",
    ),
    (
        HOST,
        LIMITS,
        &[Accepts, Crowds(64), AcceptsAll(64)],
        "0;64;64; true false 0 0",
    ),
    (ELSEWHERE, LIMITS, &[Accepts], "failed; true true 1 0"),
];

/// A gate that doesn't answer is an origin that says nothing; a dial is refused where nobody listens; and one to a listener
/// whose backlog is full is given up.
static ORIGINS: [Row; 3] = [
    (
        HOST,
        SHORT,
        &[Dials, Reads, Leaves],
        "0;failed;0; true false 0 1",
    ),
    (HOST, LIMITS, &[DialsNobody], "failed; true false 0 1"),
    (
        HOST,
        SHORT,
        &[Crowds(200), Dials],
        "failed;failed; true false 0 1",
    ),
];

/// Asserts that rows are told so.
fn check_rows<R: Abort>(abort: &R, rt: HostRuntime, rows: &[Row]) {
    for (host, limits, steps, want) in rows {
        check(abort, told_of(rt, host, *limits, steps), want);
    }
}

/// A piece of what goes both ways.
const PIECE: usize = 32 * 251;

/// How many bytes go both ways: a megabyte and some.
const MANY: usize = 131 * PIECE;

/// Bytes of which none is one of the 250 behind it.
fn pattern() -> [u8; PIECE] {
    let mut bytes = [0u8; PIECE];
    for (i, byte) in bytes.iter_mut().enumerate() {
        *byte = (i % 251) as u8;
    }
    bytes
}

/// Sends so many bytes, and answers how many were taken.
fn sends(link: &mut HostLink) -> usize {
    let bytes = pattern();
    let mut at = 0usize;
    for _ in 0..MANY {
        if at >= MANY {
            break;
        }
        let Some(rest) = bytes.get(at % PIECE..) else {
            break;
        };
        if rest.is_empty() {
            break;
        }
        let Ok(n) = link.write(rest) else {
            break;
        };
        at = at.saturating_add(n);
    }
    at
}

/// Whether bytes are those that stand at a place of what is sent.
fn stands_at(came: &[u8], at: usize) -> bool {
    for (byte, place) in came.iter().zip(at..MANY) {
        if usize::from(*byte) != place % 251 {
            return false;
        }
    }
    true
}

/// Reads so many bytes, and answers how many came as they were sent.
fn takes(link: &mut HostLink) -> usize {
    let mut into = [0u8; PIECE];
    let mut at = 0usize;
    for _ in 0..MANY {
        let n = link.read(&mut into).unwrap_or(0);
        let came = into.get(..n).unwrap_or(&[]);
        if came.is_empty() || !stands_at(came, at) {
            return at;
        }
        at = at.saturating_add(n);
        if at >= MANY {
            return at;
        }
    }
    at
}

/// How many bytes a dialer's end sends and takes, and what it reads then.
fn asks(link: Option<HostLink>) -> Written {
    match link {
        Some(mut link) => {
            let (sent, taken) = (sends(&mut link), takes(&mut link));
            let told = written(format_args!("{sent};{taken};"));
            then(told, link.read(&mut [0u8; 1]))
        }
        None => Written::new(),
    }
}

/// How many bytes a gate's end takes and sends before it is hung up.
fn gives(link: Option<HostLink>) -> Written {
    match link {
        Some(mut link) => {
            let (taken, sent) = (takes(&mut link), sends(&mut link));
            HostGate::end(link);
            written(format_args!("{taken};{sent};"))
        }
        None => Written::new(),
    }
}

/// What both ends of a connection tell.
fn goes_both_ways<T: Threads>(threads: &T, rt: HostRuntime) -> Written {
    let Some(mut scene) = scene_at(rt, HOST, LIMITS) else {
        return Written::new();
    };
    let _told = played(&mut scene, &[Accepts, Dials]);
    let near = scene.link.take();
    let _told = played(&mut scene, &[Accepts]);
    let far = scene.link.take();
    let (first, second) = thread::join(threads, move || gives(far), move || asks(near));
    joined(first, second.as_str())
}

/// How many clients a gate has.
fn clients_of(gate: &HostGate) -> u64 {
    match gate {
        RealGate::Once { .. } => 0,
        RealGate::Tcp { gate, .. } => gate.places().clients(),
    }
}

/// What the next accept of a gate answers, and how many clients there are then.
fn accepts_one(gate: &mut HostGate, link: &mut Option<HostLink>) -> Written {
    let came = accepts(gate, link);
    then(joined(written(clients_of(gate)), " "), came)
}

/// The same of a gate in a thread of its own.
fn accepts_alone(mut gate: HostGate) -> Written {
    accepts_one(&mut gate, &mut None)
}

/// Ends a connection after a tenth of a second.
fn ends_later(rt: HostRuntime, link: Option<HostLink>) {
    thread::sleep(&rt, Duration::from_millis(100));
    let _told = hangs_up(link);
}

/// What is told where the one place of a gate is taken and a second client waits for it, and whether it came within a minute.
fn waits_for_a_place<T: Threads>(threads: &T, rt: HostRuntime) -> Written {
    let Some(mut scene) = scene_at(rt, HOST, SHORT) else {
        return Written::new();
    };
    let _told = played(&mut scene, &[Accepts, Crowds(1)]);
    let Scene {
        gate,
        link,
        client: _client,
        crowd: _crowd,
        ..
    } = scene;
    let start = Instant::now(&rt);
    let (later, ()) = thread::join(
        threads,
        move || accepts_alone(gate),
        move || ends_later(rt, link),
    );
    let in_time = written(is_within(rt, start, 60));
    joined(later, in_time.as_str())
}

#[test]
fn clients_are_served_and_left(rt: HostRuntime) {
    check_rows(&rt, rt, &CLIENTS);
    check(&rt, waits_for_a_place(&rt, rt), "1 0;true");
    check(
        &rt,
        goes_both_ways(&rt, rt),
        "1052192;1052192;1052192;1052192;0;",
    );
}

#[test]
fn origins_are_dialed_and_left(rt: HostRuntime) {
    check_rows(&rt, rt, &ORIGINS);
}
