//! The ids of records.
ghost use Rattle.std.specs.Prelude.{◌≡◌, ◌+◌, ◌++◌, ◌≤◌, length, decimal};
ghost use Rattle.arrayvec.specs.ArrayVec.{array_vec_len};
ghost use Rattle.warc_text.specs.Ids as spec;
ghost use Rattle.warc_text.specs.Ids.{id_word, id_name};

use arrayvec::ArrayVec;
use itoa::Buffer;
use uuid::Uuid;

/// Which record an id is of.
#[derive(Clone, Copy)]
pub enum IdKind {
    /// The `warcinfo` record of a volume.
    Info,
    /// The response or revisit record of a capture.
    Response,
    /// The request record of a capture.
    Request,
}

/// The id of a record (ISO 28500, WARC-Record-ID): the version 5 UUID (RFC 9562, section 5.5) of the
/// archive's namespace and the record's name, which is its kind and its volume's or capture's number.
/// Takes no memory.
#[tactic(auto, unfolding(crate::specs::Ids::id_of, crate::specs::Ids::name_based, crate::specs::Ids::id_name))]
pub fn id_of(namespace: &Uuid, kind: IdKind, number: u32) -> Uuid
    ensures { result ≡ spec.id_of namespace.now kind number }
{
    let mut buffer = Buffer::new();
    let mut name = ArrayVec::new();
    put_name(&mut name, word_of(kind));
    put_name(&mut name, buffer.format(number).as_bytes());
    Uuid::new_v5(namespace, name.as_slice())
}

/// Puts these bytes, for which there is room, at the end of a name.
fn put_name(name: &mut ArrayVec<u8, 32>, piece: &[u8])
    requires { array_vec_len name.old + length piece.now ≤ 32 }
    ensures items { name.new.items ≡ name.old.items ++ piece.now }
    ensures len { array_vec_len name.new ≡ array_vec_len name.old + length piece.now }
{
    if name.try_extend_from_slice(piece).is_err() {
        unreachable!();
    }
}

/// The word before the number.
#[tactic(auto, unfolding(crate::specs::Ids::id_word))]
fn word_of(kind: IdKind) -> &'static [u8]
    ensures word { result.now ≡ id_word kind }
    ensures short { length result.now ≤ 9 }
{
    match kind {
        IdKind::Info => b"info ",
        IdKind::Response => b"response ",
        IdKind::Request => b"request ",
    }
}
