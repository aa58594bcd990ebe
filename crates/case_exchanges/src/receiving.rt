//! What is read of a client's requests, as `exchange` does.
use capture::Memory;
use case_messages::{fault_shown, request_shown};
use case_texts::told;
use exchange::{Came, Window, receive_request};
use http_head::RequestMessage;
use http_wire::RequestReader;
use outside::Link;
use std::alloc::Global;

/// How many requests are read at most.
const MOST: u32 = 1_000;

/// The requests that come over the link, one after the other, and what came behind them: `Ended`, `Broken`, or the fault.
pub fn received_requests<L: Link>(alloc: Global, link: &mut L) -> Result<Vec<Vec<u8>>, Memory> {
    let mut texts = Vec::new(alloc);
    let mut window = Window::new(alloc)?;
    for _ in 0..MOST {
        let (text, is_request) = next_text(alloc, link, &mut window)?;
        texts.push(text)?;
        if !is_request {
            break;
        }
    }
    Ok(texts)
}

/// What stands next on the link, and whether it is a request.
fn next_text<L: Link>(
    alloc: Global,
    link: &mut L,
    window: &mut Window,
) -> Result<(Vec<u8>, bool), Memory> {
    let mut reader = RequestReader::new(alloc);
    match receive_request(alloc, link, window, &mut reader) {
        Came::Head => match receive_request(alloc, link, window, &mut reader) {
            Came::Whole => taken_text(alloc, reader.take(alloc)),
            other => other_text(alloc, other),
        },
        other => other_text(alloc, other),
    }
}

/// A request as a text.
fn taken_text(
    alloc: Global,
    taken: Result<RequestMessage, Memory>,
) -> Result<(Vec<u8>, bool), Memory> {
    let message = taken?;
    Ok((request_shown(alloc, &message)?, true))
}

/// What is no request as a text.
fn other_text(alloc: Global, came: Came) -> Result<(Vec<u8>, bool), Memory> {
    Ok((came_text(alloc, came)?, false))
}

/// What came in place of a request.
fn came_text(alloc: Global, came: Came) -> Result<Vec<u8>, Memory> {
    match came {
        Came::Head => told(alloc, b"Head"),
        Came::Whole => told(alloc, b"Whole"),
        Came::Ended => told(alloc, b"Ended"),
        Came::EndedInside => told(alloc, b"EndedEarly"),
        Came::Broken => told(alloc, b"Broken"),
        Came::Refused(fault) => fault_shown(alloc, fault),
    }
}
