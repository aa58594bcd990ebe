//! Connections by TCP (RFC 9293), with limits of time.

pub(crate) mod dial;
pub(crate) mod gate;
pub(crate) mod link;
