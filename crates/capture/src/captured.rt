//! An exchange, from its receipt to its place in the archive.
ghost use Rattle.std.specs.Prelude.{◌≡◌, IfOk};

use crate::{Bytes, Memory, Text};

/// The SHA-1 digest of a payload (FIPS 180-4).
pub type Digest = [u8; 20];

/// An exchange as it was received, to be stored.
#[derive(Drop)]
pub struct Taken {
    /// The request's method.
    pub method: Text,
    /// The target that the client sent, in absolute form.
    pub uri: Text,
    /// When it was fetched, by the one clock answer of the exchange, in milliseconds since 1970.
    pub date: u64,
    /// The message that was sent to the origin.
    pub request: Bytes,
    /// The origin's response up to and including its first empty line.
    pub head: Bytes,
    /// The response's body as it stood on the wire.
    pub wire: Bytes,
    /// Whether the origin ended inside the body, so that `wire` is only as much as came.
    pub cut: bool,
}

impl Taken {
    /// The same exchange in memory of its own. Where memory is refused nothing is left.
    pub fn copy(&self) -> Result<Taken, Memory>
        ensures { IfOk result (λ copy. copy ≡ self.now) }
    {
        let method = self.method.copy()?;
        let uri = self.uri.copy()?;
        let request = self.request.copy()?;
        let head = self.head.copy()?;
        let wire = self.wire.copy()?;
        Ok(Taken {
            method,
            uri,
            date: self.date,
            request,
            head,
            wire,
            cut: self.cut,
        })
    }
}

/// What a capture keeps of its body.
#[derive(Drop)]
pub enum Kept {
    /// The body as it stood on the wire, whole.
    Wire(Bytes),
    /// Nothing: its payload is that of the capture with this number, which keeps its whole wire.
    Same(u32),
    /// The body as far as it came before the origin ended.
    Cut(Bytes),
}

/// A capture in an archive.
#[derive(Drop)]
pub struct Stored {
    /// The request's method.
    pub method: Text,
    /// The target that the client sent, in absolute form.
    pub uri: Text,
    /// When it was fetched, in milliseconds since 1970.
    pub date: u64,
    /// The message that was sent to the origin.
    pub request: Bytes,
    /// The origin's response up to and including its first empty line.
    pub head: Bytes,
    /// The body, or the capture that has its payload.
    pub kept: Kept,
}

/// A capture as it is replayed.
#[derive(Drop)]
pub struct Brought {
    /// The request's method.
    pub method: Text,
    /// The target that the client sent, in absolute form.
    pub uri: Text,
    /// When it was fetched, in milliseconds since 1970.
    pub date: u64,
    /// The origin's response up to and including its first empty line.
    pub head: Bytes,
    /// The body without its transfer coding.
    pub payload: Bytes,
}
