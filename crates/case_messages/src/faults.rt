//! Why bytes are no message, by name.
use capture::{Memory, MessageFault};
use case_texts::told;
use http_head::WireFault;
use std::alloc::Global;

/// The fault's name.
pub fn fault_shown(alloc: Global, fault: WireFault) -> Result<Vec<u8>, Memory> {
    match fault {
        WireFault::Malformed => told(alloc, b"Malformed"),
        WireFault::HeadTooLong => told(alloc, b"HeadTooLong"),
        WireFault::BodyTooLong => told(alloc, b"BodyTooLong"),
        WireFault::CodingRefused => told(alloc, b"CodingRefused"),
        WireFault::EndedEarly => told(alloc, b"EndedEarly"),
        WireFault::Memory => Err(Memory),
    }
}

/// The name of a fault that the bytes of a stream show.
pub fn fault_text(fault: MessageFault) -> &'static [u8] {
    match fault {
        MessageFault::Malformed => b"Malformed",
        MessageFault::HeadTooLong => b"HeadTooLong",
        MessageFault::BodyTooLong => b"BodyTooLong",
        MessageFault::CodingRefused => b"CodingRefused",
    }
}
