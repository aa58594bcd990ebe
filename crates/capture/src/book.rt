//! What an archive holds, whichever way it is kept.
use crate::{Items, Stored};
use uuid::Uuid;

/// A run of captures that share one file.
#[derive(Drop)]
pub struct Volume {
    /// When the volume was begun, as the clock told it, in milliseconds since 1970.
    pub born: u64,
    /// Its captures, in the order in which they were stored.
    pub captures: Items<Stored>,
}

/// An archive's contents. A capture's number is its place among all captures, from 0.
#[derive(Drop)]
pub struct Book {
    /// The namespace of the ids of its records (RFC 9562, section 5.5).
    pub namespace: Uuid,
    /// Its volumes, in order.
    pub volumes: Items<Volume>,
}
