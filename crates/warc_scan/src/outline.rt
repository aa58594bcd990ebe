//! What a group tells without the bodies of its messages.
use crate::Revisited;
use capture::{Digest, Text};
use http_head::ResponseHead;

/// A capture's two records, without the bodies of their messages. Places and lengths are in bytes, from the group's first byte
/// on.
#[derive(Drop)]
pub struct Outline {
    /// The capture's number.
    pub number: u32,
    /// The request's method.
    pub method: Text,
    /// The target that the client sent, in absolute form.
    pub uri: Text,
    /// When it was fetched, in milliseconds since 1970.
    pub date: u64,
    /// The parts of the response's head.
    pub head: ResponseHead,
    /// Whether the response was cut.
    pub cut: bool,
    /// The payload's digest: of a response that of its payload, of a revisit what the record says.
    pub digest: Digest,
    /// The length of the payload: of a revisit, whose record doesn't hold it, 0.
    pub payload_len: u64,
    /// The record that a revisit refers to. Whether it is there, and has this payload, isn't looked at.
    pub same: Option<Revisited>,
    /// The length of the request.
    pub request_len: u64,
    /// Where the response's head begins.
    pub head_at: u64,
    /// Where its body begins, or, of a revisit, where it would.
    pub body_at: u64,
    /// The length of its body as it came: of a revisit 0.
    pub wire_len: u64,
    /// The length of the response or revisit record.
    pub first_len: u64,
    /// The length of the group.
    pub len: u64,
}
