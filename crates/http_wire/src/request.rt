//! Requests as they come in pieces.
pub(crate) mod parts;
pub(crate) mod reader;
