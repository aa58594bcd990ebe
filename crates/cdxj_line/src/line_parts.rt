//! A line by parts that are lent.
use capture::Digest;

/// What a line says of a capture, lent by those who hold it, so that a line is put without copies.
#[derive(Clone, Copy)]
pub struct LineParts<'a> {
    /// The look-up key of the url.
    pub key: &'a [u8],
    /// When it was fetched, in milliseconds since 1970.
    pub date: u64,
    /// The digest of the payload.
    pub digest: &'a Digest,
    /// The number of the volume that holds the capture.
    pub volume: u32,
    /// The length of the response record or revisit record, in bytes.
    pub length: u64,
    /// The request's method.
    pub method: &'a [u8],
    /// The media type, or `warc/revisit` of a revisit.
    pub mime: &'a [u8],
    /// The capture's number.
    pub number: u32,
    /// The place of that record in its volume, in bytes.
    pub offset: u64,
    /// The response's status.
    pub status: u16,
    /// The target that the client sent, in absolute form.
    pub url: &'a [u8],
}
