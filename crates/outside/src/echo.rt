//! What the trial origin answers.
ghost use Rattle.std.specs.Prelude.{◌≡◌, ◌==◌, ◌≤◌, length, position, IfOk};
ghost use Rattle.std.specs.List.{before_first, after_first, position_or_len};
ghost use Rattle.outside.specs.Echo.{target, answer};

use capture::Memory;
use itoa::Buffer;
use std::alloc::Global;

/// The answer to a request's head, whose body is the request's target and LF.
#[tactic(auto, unfolding(crate::specs::Echo::answer))]
pub(crate) fn answer_to(alloc: Global, head: &[u8]) -> Result<Vec<u8>, Memory>
    ensures { IfOk result (λ text. text.items ≡ answer head.now) }
{
    let target = target_of(head);
    let mut buffer = Buffer::new();
    let mut text = Vec::from_slice(
        alloc,
        b"HTTP/1.1 200 OK\r\nContent-Type: text/plain\r\nContent-Length: ",
    )?;
    text.extend_from_slice(buffer.format(target.len() + 1).as_bytes())?;
    text.extend_from_slice(b"\r\n\r\n")?;
    text.extend_from_slice(target)?;
    text.extend_from_slice(b"\n")?;
    Ok(text)
}

/// The target of a request (RFC 9112, section 3): what stands between the spaces of its first line.
#[tactic(auto, unfolding(crate::specs::Echo::target))]
fn target_of(head: &[u8]) -> &[u8]
    ensures { result.now ≡ target head.now }
{
    let line = before(head, b'\r');
    before(after(line, b' '), b' ')
}

/// What stands before the first such byte: all where there is none.
fn before(text: &[u8], stop: u8) -> &[u8]
    ensures { result.now ≡ before_first (λ byte. byte == stop) text.now }
{
    text.split_at(first_of(text, stop)).0
}

/// What stands behind the first such byte: nothing where there is none.
fn after(text: &[u8], stop: u8) -> &[u8]
    ensures { result.now ≡ after_first (λ byte. byte == stop) text.now }
{
    let at = first_of(text, stop);
    if at < text.len() {
        text.split_at(at + 1).1
    } else {
        text.split_at(at).1
    }
}

/// The first place of a byte, or the length where it isn't there.
fn first_of(text: &[u8], stop: u8) -> usize
    ensures place { result ≡ position_or_len (λ byte. byte == stop) text.now }
    ensures within { result ≤ length text.now }
{
    match find(text, stop) {
        Some(at) => at,
        None => text.len(),
    }
}

/// The first place of a byte.
fn find(text: &[u8], stop: u8) -> Option<usize>
    ensures { result ≡ position (λ byte. byte == stop) text.now }
{
    text.iter().position(|byte| *byte == stop)
}
