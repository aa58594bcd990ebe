//! The close of a connection whose peer may still send.
use crate::limits::Limits;
use crate::places::Place;
use std::io;
use std::io::ErrorKind;
use std::time::Duration;
use system_network::{Socket, read_some};

/// How much is read at once of what nobody asked for.
const PIECE: usize = 8_192;

/// Tells the peer that nothing more comes, and reads what it still sends within the limit, however much it is, or within
/// the lower one where another connection waits then. Where a socket is closed with bytes that nobody has read, the peer's
/// system may drop the answer that it hasn't read yet (RFC 9112, section 9.6). The connection is closed in any case, so
/// nothing is to be done about an error.
pub(crate) fn linger<S: Socket>(socket: &mut S, place: &Place, limits: &Limits) {
    let _ = drain(socket, place, limits);
}

/// Ends the output, and reads until the peer's end or the limit.
fn drain<S: Socket>(socket: &mut S, place: &Place, limits: &Limits) -> io::Result<()> {
    socket.end_output()?;
    let start = socket.time()?;
    let mut unread = [0u8; PIECE];
    for _ in 0..u64::MAX {
        let gone = millis_since(socket, start)?;
        let left = limits.linger.saturating_sub(gone);
        if left == 0 || (gone >= limits.linger_crowded && place.is_crowded()) {
            return Ok(());
        }
        if !read_on(socket, limits.linger_crowded.min(left), &mut unread)? {
            return Ok(());
        }
    }
    Ok(())
}

/// Reads once within so many milliseconds, and answers whether more may come.
fn read_on<S: Socket>(socket: &mut S, millis: u64, unread: &mut [u8]) -> io::Result<bool> {
    socket.limit_reads(millis)?;
    match read_some(socket, unread) {
        Ok(n) => Ok(n > 0),
        Err(error) => {
            if error.kind() != ErrorKind::WouldBlock {
                return Err(error);
            }
            Ok(true)
        }
    }
}

/// How many whole milliseconds have gone by since a time of this socket.
pub(crate) fn millis_since<S: Socket>(socket: &mut S, start: Duration) -> io::Result<u64> {
    let gone = socket.time()?.saturating_sub(start).as_millis();
    Ok(u64::try_from(gone).unwrap_or(u64::MAX))
}
