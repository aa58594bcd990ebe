//! Calls over messages, by name: heads, what tells a body's length, bodies, and whole messages. The answer is a text: what the
//! message is, or the name of the fault.
#![tactic(auto)]

mod bodies;
mod faults;
mod framings;
mod heads;
mod wholes;

use capture::Memory;
use case_texts::{Call, always};
pub use faults::fault_shown;
use std::alloc::Global;
pub use wholes::{received, request_shown, response_shown};

/// What the call answers. `None` where no call has that name, or the text isn't one that the call takes.
pub fn answer(alloc: Global, call: &Call) -> Result<Option<Vec<u8>>, Memory> {
    let text = call.text.as_slice();
    match call.name {
        "request_head" => always(heads::request_head(alloc, text)),
        "response_head" => always(heads::response_head(alloc, text)),
        "head_stream" => heads::head_stream(alloc, text),
        "section" => always(heads::section(alloc, text)),
        "section_value" => heads::section_value(alloc, text),
        "section_end" => always(heads::section_end(alloc, text)),
        "framing_of" => framings::response_framing(alloc, text),
        "request_framing_of" => framings::request_framing(alloc, text),
        "body_stream" => bodies::body_stream(alloc, text),
        "payload_of" => bodies::whole_payload(alloc, text),
        "payload_of_cut" => bodies::cut_payload(alloc, text),
        "request_message" => always(wholes::request_message(alloc, text)),
        "request_stream" => wholes::request_stream(alloc, text),
        "response_message" => wholes::response_message(alloc, text),
        _ => Ok(None),
    }
}
