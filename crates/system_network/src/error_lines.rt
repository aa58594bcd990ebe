//! Lines on standard error for which nobody waits.
use libc::STDERR_FILENO;
use libc::net::{POLLOUT, poll};
use libc::types::pollfd;
use std::fmt::{Display, InlineText};

/// How many threads may write a line at once: one that accepts connections, and those that serve them.
pub const MOST_WRITERS: usize = 17;

/// What a pipe that takes anything has room for: a page (pipe(7)).
const PAGE: usize = 4_096;

/// The most bytes of a line, its end among them. Each thread may have been told that a pipe takes a line while the same last page was free: a line of each goes into it.
const LINE: usize = PAGE / MOST_WRITERS;

/// The most bytes of its text.
const TEXT: usize = LINE - 1;

/// Where this process has its standard error.
const STANDARD_ERROR: &[u8] = b"/dev/stderr";

/// The name that a process has for the terminal that controls it.
const CONTROLLING_TERMINAL: &[u8] = b"/dev/tty";

/// Writes a line on standard error, by one write of at most `LINE` bytes: what is longer is cut, and a byte that isn't printable ASCII is a `?`. It doesn't wait: a line that
/// isn't taken at once is left out.
pub(crate) fn put_line<D: Display + Drop>(line: D) {
    let text = InlineText::<TEXT>::of(line);
    let text = text.as_str().as_bytes();
    let mut bytes = [b'\n'; LINE];
    for (place, byte) in bytes.iter_mut().zip(text.iter()) {
        *place = printable(*byte);
    }
    put(&bytes[..=text.len()]);
}

/// The byte, or `?` where it could begin another line or steer a terminal.
fn printable(byte: u8) -> u8 {
    match byte {
        b' '..=b'~' => byte,
        _ => b'?',
    }
}

/// Writes the bytes of a line where they are taken at once.
fn put(line: &[u8]) {
    if libc::isatty(STDERR_FILENO) == 1 {
        put_on_terminal(line);
        return;
    }
    if takes_a_line() {
        let _written = libc::write(STDERR_FILENO, line);
    }
}

/// Writes to the terminal at standard error what it takes at once. One that nobody reads says that it takes a line, and then takes a part of it. So it is opened anew, and that opening
/// set not to wait: standard error itself is the shell's too. Where it can't be opened so the line is left out.
fn put_on_terminal(line: &[u8]) {
    let terminal = open_terminal();
    if terminal < 0 {
        return;
    }
    if os::set_nonblocking(terminal, true) == 0 {
        let _written = libc::write(terminal, line);
    }
    let _closed = libc::close(terminal);
}

/// An opening of the terminal at standard error, negative where there is none. One of another user, as after `su`, refuses its own name; the name of a controlling terminal is everyone's.
fn open_terminal() -> i32 {
    let terminal = os::open_append(STANDARD_ERROR);
    if terminal >= 0 || libc::tcgetpgrp(STDERR_FILENO) < 0 {
        return terminal;
    }
    os::open_append(CONTROLLING_TERMINAL)
}

/// Whether standard error, which is no terminal, takes a line at once, or refuses it at once. Where a reader has stood still, as a pipe that nobody empties, it does neither.
fn takes_a_line() -> bool {
    let mut errors = [pollfd {
        fd: STDERR_FILENO,
        events: POLLOUT,
        revents: 0,
    }];
    poll(&mut errors, 0) > 0
}
