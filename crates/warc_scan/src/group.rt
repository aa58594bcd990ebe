//! The group of a capture, as it stands in a volume.
use capture::{Digest, Stored, Text};
use http_head::ResponseHead;
use url::Url;
use uuid::Uuid;

/// The record that a revisit refers to, as its fields tell (ISO 28500, sections 5.11 and 6.7.2).
#[derive(Drop)]
pub struct Revisited {
    /// The record's id.
    pub id: Uuid,
    /// Its target.
    pub uri: Text,
    /// Its date, in milliseconds since 1970.
    pub date: u64,
}

/// A capture's two records: its response or revisit, and its request. Places and lengths are in bytes, from the group's
/// first byte on.
#[derive(Drop)]
pub struct Group {
    /// The capture's number.
    pub number: u32,
    /// The capture. A revisit has `Kept::Same(u32::MAX)`, since its record names the original by an id.
    pub stored: Stored,
    /// The payload's digest: of a response that of its payload, of a revisit what the record says.
    pub digest: Digest,
    /// The length of the payload in bytes: of a revisit, whose record doesn't hold it, 0.
    pub payload_len: u64,
    /// The record that a revisit refers to. Whether it is there, and has this payload, isn't looked at.
    pub same: Option<Revisited>,
    /// Where the response's head begins.
    pub head_at: u64,
    /// Where its body begins, or, of a revisit, where it would.
    pub body_at: u64,
    /// The length of the response or revisit record.
    pub first_len: u64,
    /// The length of the group.
    pub len: u64,
}

/// A group, with what is parsed to find it: its response's head, and its target.
#[derive(Drop)]
pub struct HeadedGroup {
    /// The group.
    pub group: Group,
    /// The parts of the head.
    pub head: ResponseHead,
    /// The URL that the target is parsed to.
    pub url: Url,
}
