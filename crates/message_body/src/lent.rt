//! A payload that lies in its wire, or has memory of its own.
ghost use Rattle.std.specs.Prelude.{◌≡◌, IfOk};

use capture::{Bytes, Memory};
use std::alloc::Global;
use std::marker::Model;

/// A payload. Where no coding stands round it, it is the wire itself and takes no memory. A contract sees its bytes.
#[derive(Drop)]
pub struct Payload<'w> {
    wire: &'w [u8],
    /// The data of a chunked wire.
    joined: Option<Bytes>,
}

impl<'w> Model for Payload<'w> {
    ghost use Rattle.std.specs.Prelude.{List, ℕ};
    ghost use Rattle.message_body.specs.Lent.{joined_or};

    ghost Value = { List ℕ };

    ghost view = { λ p. joined_or p.joined p.wire.now };
}

impl<'w> Payload<'w> {
    /// The wire itself.
    pub(crate) fn lent(wire: &'w [u8]) -> Payload<'w>
        ensures { result ≡ wire.now }
    {
        Payload { wire, joined: None }
    }

    /// The data of a wire that is chunked.
    pub(crate) fn joined(wire: &'w [u8], bytes: Bytes) -> Payload<'w>
        ensures { result ≡ bytes }
    {
        Payload {
            wire,
            joined: Some(bytes),
        }
    }

    /// The bytes in place.
    pub fn as_slice(&self) -> &[u8]
        ensures { result.now ≡ self.now }
    {
        match &self.joined {
            Some(bytes) => bytes.as_slice(),
            None => self.wire,
        }
    }

    /// The same bytes in memory of their own. What was joined is not copied.
    pub fn into_bytes(self, alloc: Global) -> Result<Bytes, Memory>
        ensures { IfOk result (λ bytes. bytes ≡ self.entry) }
    {
        let Payload { wire, joined } = self;
        match joined {
            Some(bytes) => Ok(bytes),
            None => Bytes::from_slice(alloc, wire),
        }
    }
}
