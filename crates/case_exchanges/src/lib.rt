//! Calls over exchanges, by name: where a request leads, what each side gets, what is fetched and received over links, and the
//! records of a capture. The answer is a text: the value, or the name of the refusal.
#![tactic(auto)]

mod exchanges;
mod fetching;
mod outlines;
mod receiving;
mod records;
mod refusals;

use capture::Memory;
use case_texts::{Call, always};
pub use fetching::fetched;
pub use receiving::received_requests;
use std::alloc::Global;

/// What the call answers. `None` where no call has that name, or the text isn't one that the call takes.
pub fn answer(alloc: Global, call: &Call) -> Result<Option<Vec<u8>>, Memory> {
    let text = call.text.as_slice();
    match call.name {
        "aim_of" => always(exchanges::aim_shown(alloc, text)),
        "forward_text" => always(exchanges::forwarded(alloc, text)),
        "client_text" => exchanges::passed_on(alloc, text),
        "refusal_text" => refusals::refused(alloc, text),
        "memory_text" => always(refusals::lacked(alloc)),
        "warcinfo" => records::info_of(alloc, text),
        "group" => records::group_of(alloc, text),
        "next_group" => records::group_step(alloc, text),
        "next_info" => records::info_step(alloc, text),
        "next_opening" => outlines::opening_step(alloc, text),
        "next_outline" => outlines::outline_step(alloc, text),
        _ => Ok(None),
    }
}
