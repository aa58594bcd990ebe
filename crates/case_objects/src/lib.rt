//! Calls over the objects in memory that cases are played with, by name: links, sinks, clocks, dialers and gates. The answer is a
//! text: what each step gave, and what the object kept.
#![tactic(auto)]

mod clocks;
mod dialers;
mod gates;
mod given;
mod links;
mod made;
mod object;
mod parts;
mod sinks;
mod traffic;

use capture::Memory;
use case_texts::{Call, always};
use given::Given;
pub use made::links_of;
use std::alloc::Global;

/// What the call answers. `None` where no call has that name, or the text isn't one that the call takes.
pub fn answer(alloc: Global, call: &Call) -> Result<Option<Vec<u8>>, Memory> {
    let text = call.text.as_slice();
    match call.name {
        "clock" => clocks::clock_asked(alloc, text),
        "echo" => always(dialers::echo_asked(alloc, text)),
        _ => match Given::of(alloc, text) {
            Ok(Some(given)) => answer_of_steps(alloc, call.name, &given, text),
            Ok(None) => Ok(None),
            Err(Memory) => Err(Memory),
        },
    }
}

/// What an object that is made so answers to the steps of the text.
fn answer_of_steps(
    alloc: Global,
    name: &str,
    given: &Given,
    text: &[u8],
) -> Result<Option<Vec<u8>>, Memory> {
    match name {
        "link" => links::link_played(alloc, given, text),
        "sink" => sinks::sink_played(alloc, given, text),
        "dialer" => dialers::dialer_played(alloc, given, text),
        "gate" => gates::gate_played(alloc, given, text),
        _ => Ok(None),
    }
}
