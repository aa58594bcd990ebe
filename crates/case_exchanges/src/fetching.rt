//! A response that is fetched from an origin for a client's request, as `exchange` does.
use crate::exchanges::aimed_at;
use capture::Memory;
use case_messages::response_shown;
use case_texts::{always, told};
use exchange::{FetchFault, Target, Window, fetch, forward_text};
use http_head::{Received, RequestMessage, WireFault};
use outside::Dialer;
use std::alloc::Global;
use whole_request::read_request;

/// What is fetched over the dialer's links, or the fault. `None` where the text is no whole request for an origin.
pub fn fetched<D: Dialer>(
    alloc: Global,
    dialer: &mut D,
    request: &[u8],
) -> Result<Option<Vec<u8>>, Memory> {
    let message = match read_request(alloc, request) {
        Ok(message) => message,
        Err(WireFault::Memory) => return Err(Memory),
        Err(_) => return Ok(None),
    };
    match aimed_at(alloc, &message.head)? {
        Some(target) => always(fetched_from(alloc, dialer, &message, &target)),
        None => Ok(None),
    }
}

/// What is fetched from the target.
fn fetched_from<D: Dialer>(
    alloc: Global,
    dialer: &mut D,
    message: &RequestMessage,
    target: &Target,
) -> Result<Vec<u8>, Memory> {
    let text = forward_text(alloc, message, target)?;
    let answers_head = message.head.method.as_slice() == b"HEAD".as_slice();
    let mut window = Window::new(alloc)?;
    let text = text.as_slice();
    response_text(
        alloc,
        fetch(alloc, dialer, &mut window, target, answers_head, text),
    )
}

/// The response, or the fault.
fn response_text(alloc: Global, response: Result<Received, FetchFault>) -> Result<Vec<u8>, Memory> {
    match response {
        Ok(response) => response_shown(alloc, &response),
        Err(FetchFault::DialFault) => told(alloc, b"DialFault"),
        Err(FetchFault::OriginFault) => told(alloc, b"OriginFault"),
        Err(FetchFault::OriginEnded) => told(alloc, b"OriginEnded"),
        Err(FetchFault::OriginMalformed) => told(alloc, b"OriginMalformed"),
        Err(FetchFault::OriginTooLong) => told(alloc, b"OriginTooLong"),
        Err(FetchFault::TooManyInterim) => told(alloc, b"TooManyInterim"),
        Err(FetchFault::Memory) => Err(Memory),
    }
}
