//! What is asked of the archive's own site.
use capture::Site;
use http_head::RequestMessage;
use surt_key::KeyedUrl;

/// A request to the site.
#[derive(Clone, Copy)]
pub struct Visit<'a> {
    /// The request.
    pub message: &'a RequestMessage,
    /// What stands behind the site's authority in its target.
    pub address: &'a [u8],
    /// The site.
    pub site: &'a Site,
    /// Whether the connection closes behind the answer.
    pub closes: bool,
}

/// What the address of a memento asks for.
#[derive(Clone, Copy)]
pub struct Sought<'a> {
    /// The time in milliseconds since 1970: the earliest that the digits name.
    pub time: u64,
    /// How many digits gave it.
    pub digits: usize,
    /// Whether the capture is asked for as it was received.
    pub raw: bool,
    /// The URL, with its scheme and its key.
    pub of: &'a KeyedUrl,
}
