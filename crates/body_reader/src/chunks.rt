//! A chunked body as it comes in pieces.
pub(crate) mod end;
pub(crate) mod line;
pub(crate) mod place;
pub(crate) mod reading;
pub(crate) mod trailer;
