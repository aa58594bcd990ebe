//! One end of a TCP connection, with limits of time.
ghost use Rattle.std.specs.Prelude.{◌≡◌, ◌<◌, ◌≤◌, true, false, length, IfOk, OnOk, OnErr, IsErr};
ghost use Rattle.std.specs.Io.{ReadsAtMost};

use crate::limits::Limits;
use crate::lingering::{linger, millis_since};
use crate::places::Place;
use std::io;
use std::io::ErrorKind;
use std::time::Duration;
use system_network::{Socket, read_some, write_some};

/// What a read waits for.
#[derive(Clone, Copy, PartialEq, Eq)]
enum Awaited {
    /// The first byte on a client's new connection.
    First,
    /// The first byte of a client's next request.
    Next,
    /// More of a client's request.
    More,
    /// A piece of an origin's response.
    Response,
}

/// A socket with its limits of time. A read that passes its limit fails, as one of a connection that broke; what a
/// read of such a connection gives is no end, so no read succeeds after one that failed.
#[derive(Drop)]
pub struct TcpLink<S> {
    socket: S,
    limits: Limits,
    place: Place,
    awaited: Awaited,
    /// How long reads of this message may still take, in milliseconds.
    to_read: u64,
    /// How long writes of this message may still take, in milliseconds.
    to_write: u64,
    /// What the socket's reads are limited to now, or 0.
    reads_within: u64,
    /// What the socket's writes are limited to now, or 0.
    writes_within: u64,
    answered: bool,
    ended: bool,
    failed: bool,
}

impl<S: Socket> TcpLink<S> {
    /// The connection of a client.
    pub fn of_client(socket: S, place: Place, limits: &Limits) -> io::Result<TcpLink<S>>
    where
        S: Drop,
    {
        TcpLink::new(socket, place, limits, Awaited::First, limits.request)
    }

    /// The connection to an origin.
    pub fn of_origin(socket: S, place: Place, limits: &Limits) -> io::Result<TcpLink<S>>
    where
        S: Drop,
    {
        TcpLink::new(socket, place, limits, Awaited::Response, limits.whole)
    }

    /// A link whose socket sends at once and has its limit of writes.
    fn new(
        mut socket: S,
        place: Place,
        limits: &Limits,
        awaited: Awaited,
        to_read: u64,
    ) -> io::Result<TcpLink<S>>
    where
        S: Drop,
    {
        socket.send_at_once()?;
        socket.limit_writes(limits.write_turn)?;
        Ok(TcpLink {
            socket,
            limits: *limits,
            place,
            awaited,
            to_read,
            to_write: limits.whole,
            reads_within: 0,
            writes_within: limits.write_turn,
            answered: false,
            ended: false,
            failed: false,
        })
    }

    /// Its socket.
    pub fn socket(&self) -> &S {
        &self.socket
    }

    /// Notes that nothing but a next request is awaited, until a byte of it has come. A new connection stays new.
    pub fn await_request(&mut self)
        ensures same_end { self.new.ended ≡ self.old.ended }
        ensures same_failure { self.new.failed ≡ self.old.failed }
    {
        if self.awaited == Awaited::More {
            self.awaited = Awaited::Next;
        }
        self.to_read = self.limits.request;
        self.to_write = self.limits.whole;
    }

    /// Reads once, within the limits, and answers 0 from the end on.
    pub fn read(&mut self, into: &mut [u8]) -> io::Result<usize>
        ensures bound { ReadsAtMost result into.new }
        ensures meets_end { IfOk result (λ n. n ≡ 0 → self.new.ended ≡ true) }
        ensures stays_ended { self.old.ended ≡ true → self.old.failed ≡ false → result ≡ Ok 0 }
        ensures stays_failed { self.old.failed ≡ true → IsErr result }
        ensures fails { OnErr result (self.new.failed ≡ true) }
        ensures same_failure { OnOk result (self.new.failed ≡ self.old.failed) }
        ensures same_end { IfOk result (λ n. 0 < n → self.new.ended ≡ self.old.ended) }
        ensures same_end_failed { OnErr result (self.new.ended ≡ self.old.ended) }
    {
        if self.failed {
            return Err(io::Error::from(ErrorKind::NotConnected));
        }
        if self.ended {
            return Ok(0);
        }
        match self.read_within(into) {
            Ok(0) => {
                self.ended = true;
                Ok(0)
            }
            Ok(n) => Ok(n),
            Err(error) => {
                self.failed = true;
                self.tell("read", &error);
                Err(error)
            }
        }
    }

    /// Reads once, within the limits of what is awaited.
    fn read_within(&mut self, into: &mut [u8]) -> io::Result<usize>
        ensures bound { ReadsAtMost result into.new }
        ensures same_end { self.new.ended ≡ self.old.ended }
        ensures same_failure { self.new.failed ≡ self.old.failed }
    {
        let limits = self.limits;
        match self.awaited {
            Awaited::First => self.read_request(
                into,
                limits.fresh,
                limits.fresh_crowded,
                limits.idle_crowded,
            ),
            Awaited::Next => self.read_request(
                into,
                limits.idle,
                limits.idle_crowded,
                limits.idle_crowded,
            ),
            Awaited::More => {
                let most = limits.piece.min(self.to_read);
                self.read_request(into, most, limits.piece_crowded, limits.piece_crowded)
            }
            Awaited::Response => {
                let whole = self.left_of_whole(self.to_read);
                self.read_response(into, limits.origin.min(whole))
            }
        }
    }

    /// Reads some bytes of a request within so many milliseconds, or within the lower limit where another connection
    /// waits then, which it asks so often.
    fn read_request(
        &mut self,
        into: &mut [u8],
        most: u64,
        crowded: u64,
        asks: u64,
    ) -> io::Result<usize>
        ensures bound { ReadsAtMost result into.new }
        ensures same_end { self.new.ended ≡ self.old.ended }
        ensures same_failure { self.new.failed ≡ self.old.failed }
    {
        self.place.serve();
        let start = self.socket.time()?;
        let mut gone = 0;
        for _ in 0..most {
            self.limit_reads(asks.min(most.saturating_sub(gone)))?;
            match read_some(&mut self.socket, into) {
                Ok(n) => {
                    self.to_read = left_after(self.to_read, self.spent_since(start)?, n);
                    self.awaited = Awaited::More;
                    return Ok(n);
                }
                Err(error) => {
                    if error.kind() != ErrorKind::WouldBlock {
                        return Err(error);
                    }
                }
            }
            gone = millis_since(&mut self.socket, start)?;
            if gone >= most || (gone >= crowded && self.place.is_crowded()) {
                break;
            }
        }
        Err(io::Error::from(ErrorKind::TimedOut))
    }

    /// How much of a request's own time has gone since a read began: none before its first byte.
    fn spent_since(&mut self, start: Duration) -> io::Result<u64>
        ensures same_end { self.new.ended ≡ self.old.ended }
        ensures same_failure { self.new.failed ≡ self.old.failed }
    {
        match self.awaited {
            Awaited::More => millis_since(&mut self.socket, start),
            _ => Ok(0),
        }
    }

    /// Reads a piece of a response within so many milliseconds.
    fn read_response(&mut self, into: &mut [u8], most: u64) -> io::Result<usize>
        ensures bound { ReadsAtMost result into.new }
        ensures same_end { self.new.ended ≡ self.old.ended }
        ensures same_failure { self.new.failed ≡ self.old.failed }
    {
        self.limit_reads(most)?;
        let start = self.socket.time()?;
        let n = match read_some(&mut self.socket, into) {
            Ok(n) => n,
            Err(error) => return Err(in_words(error)),
        };
        self.to_read = left_after(self.to_read, millis_since(&mut self.socket, start)?, n);
        Ok(n)
    }

    /// Writes once, within the limits.
    pub fn write(&mut self, piece: &[u8]) -> io::Result<usize>
        ensures some { IfOk result (λ n. 0 < n) }
        ensures fits { IfOk result (λ n. n ≤ length piece.now) }
        ensures same_end { self.new.ended ≡ self.old.ended }
        ensures same_failure { self.new.failed ≡ self.old.failed }
    {
        self.place.serve();
        match self.write_within(piece) {
            Ok(n) => Ok(n),
            Err(error) => {
                self.tell("write", &error);
                Err(error)
            }
        }
    }

    /// Writes once, within the limits of a piece and of the message.
    fn write_within(&mut self, piece: &[u8]) -> io::Result<usize>
        ensures some { IfOk result (λ n. 0 < n) }
        ensures fits { IfOk result (λ n. n ≤ length piece.now) }
        ensures same_end { self.new.ended ≡ self.old.ended }
        ensures same_failure { self.new.failed ≡ self.old.failed }
    {
        let most = self.limits.write.min(self.left_of_whole(self.to_write));
        let start = self.socket.time()?;
        let n = self.write_by_turns(piece, most, start)?;
        self.to_write = left_after(self.to_write, millis_since(&mut self.socket, start)?, n);
        self.answered = true;
        Ok(n)
    }

    /// Writes once within so many milliseconds of a start, or until the peer is to give way to another connection, in
    /// writes that wait for a turn each.
    fn write_by_turns(&mut self, piece: &[u8], most: u64, start: Duration) -> io::Result<usize>
        ensures some { IfOk result (λ n. 0 < n) }
        ensures fits { IfOk result (λ n. n ≤ length piece.now) }
        ensures same_end { self.new.ended ≡ self.old.ended }
        ensures same_failure { self.new.failed ≡ self.old.failed }
    {
        let turn = self.limits.write_turn;
        let mut gone = 0;
        for _ in 0..most {
            self.limit_writes(turn.min(most.saturating_sub(gone)))?;
            match write_some(&mut self.socket, piece) {
                Ok(n) => return Ok(n),
                Err(error) => {
                    if error.kind() != ErrorKind::WouldBlock {
                        return Err(error);
                    }
                }
            }
            gone = millis_since(&mut self.socket, start)?;
            if gone >= most || self.gives_way_after(gone) {
                break;
            }
        }
        Err(io::Error::from(ErrorKind::TimedOut))
    }

    /// Whether a peer that took nothing for so many milliseconds is a client that gives way to another connection.
    fn gives_way_after(&self, gone: u64) -> bool {
        let is_client = self.awaited != Awaited::Response;
        is_client && gone >= self.limits.write_crowded && self.place.is_crowded()
    }

    /// What is left for a message, which is given for where no other connection waits.
    fn left_of_whole(&self, left: u64) -> u64 {
        if !self.place.is_crowded() {
            return left;
        }
        let lower = self.limits.whole.saturating_sub(self.limits.whole_crowded);
        left.saturating_sub(lower)
    }

    /// Tells why a call failed. A connection on which a request was awaited is let go without a word.
    fn tell(&mut self, call: &str, error: &io::Error)
        ensures same_end { self.new.ended ≡ self.old.ended }
        ensures same_failure { self.new.failed ≡ self.old.failed }
    {
        if self.awaited == Awaited::More || self.awaited == Awaited::Response {
            let peer = self.socket.peer();
            self.socket.tell(peer, call, error);
        }
    }

    /// Limits the socket's reads, where they aren't limited so. No time left is a failure.
    fn limit_reads(&mut self, millis: u64) -> io::Result<()>
        ensures same_end { self.new.ended ≡ self.old.ended }
        ensures same_failure { self.new.failed ≡ self.old.failed }
    {
        if millis == 0 {
            return Err(io::Error::from(ErrorKind::TimedOut));
        }
        if self.reads_within != millis {
            self.socket.limit_reads(millis)?;
            self.reads_within = millis;
        }
        Ok(())
    }

    /// Limits the socket's writes, likewise.
    fn limit_writes(&mut self, millis: u64) -> io::Result<()>
        ensures same_end { self.new.ended ≡ self.old.ended }
        ensures same_failure { self.new.failed ≡ self.old.failed }
    {
        if millis == 0 {
            return Err(io::Error::from(ErrorKind::TimedOut));
        }
        if self.writes_within != millis {
            self.socket.limit_writes(millis)?;
            self.writes_within = millis;
        }
        Ok(())
    }

    /// Ends the connection of a client, so that what was written last arrives.
    pub fn end(&mut self) {
        if self.answered && !self.ended && !self.failed {
            linger(&mut self.socket, &self.place, &self.limits);
        }
    }
}

/// The same error. One of a call that waited past its limit says so.
fn in_words(error: io::Error) -> io::Error {
    if error.kind() == ErrorKind::WouldBlock {
        return io::Error::from(ErrorKind::TimedOut);
    }
    error
}

/// What is left for a message after a call that took so many milliseconds and carried so many bytes.
fn left_after(left: u64, millis: u64, bytes: usize) -> u64 {
    left.saturating_sub(millis).saturating_add(bytes as u64)
}
