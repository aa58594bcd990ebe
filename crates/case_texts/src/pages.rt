//! Calls of `html_rewrite`.
ghost use Rattle.time_text.specs.Texts.{InRange};

use crate::words::{always, site_of, told};
use capture::Memory;
use case_language::{number_in, split_front};
use html_rewrite::rewrite;
use std::alloc::Global;
use time_text::LATEST;

/// Where the page was captured, and when: 2024-01-31T12:00:00Z, in milliseconds since 1970.
const PAGE: &[u8] = b"http://a.test/p";

const TIME: u64 = 1_706_702_400_000;

/// The page with its links led to the archive.
pub fn rewritten(alloc: Global, page: &[u8]) -> Result<Vec<u8>, Memory> {
    rewritten_at(alloc, page, PAGE, TIME)
}

/// The same of a page that stands behind the address from which it was captured, and the time.
pub fn rewritten_of(alloc: Global, text: &[u8]) -> Result<Option<Vec<u8>>, Memory> {
    let Some((base, rest)) = split_front(text) else {
        return Ok(None);
    };
    let Some((time, page)) = split_front(rest) else {
        return Ok(None);
    };
    match number_in(time) {
        Some(time) if time <= LATEST => always(rewritten_at(alloc, page, base, time)),
        _ => Ok(None),
    }
}

fn rewritten_at(alloc: Global, page: &[u8], base: &[u8], time: u64) -> Result<Vec<u8>, Memory>
    requires { InRange time }
{
    match rewrite(alloc, page, base, time, &site_of(alloc)?)? {
        Some(page) => told(alloc, page.as_slice()),
        None => told(alloc, b"None"),
    }
}
