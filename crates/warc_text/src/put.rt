//! Pieces that are put at the end of a text.
ghost use Rattle.std.specs.Prelude.{◌≡◌, ◌++◌, ◌≤◌, OnOk};
ghost use Rattle.time_text.specs.Texts.{InRange, warc_date};
ghost use Rattle.warc_text.specs.Ids as spec;

use capture::{Memory, put_all};
use time_text::write_warc;
use uuid::Uuid;

/// Puts the date.
pub fn put_date(out: &mut Vec<u8>, date: u64) -> Result<(), Memory>
    requires { InRange date }
    ensures { OnOk result (out.new.items ≡ out.old.items ++ warc_date date) }
{
    match write_warc(date) {
        Ok(text) => put_all(out, text.as_slice()),
        Err(_) => unreachable!(),
    }
}

/// Puts the 36 characters of a UUID.
#[tactic(auto, unfolding(crate::specs::Ids::uuid_text))]
pub fn put_uuid(out: &mut Vec<u8>, uuid: &Uuid) -> Result<(), Memory>
    ensures { OnOk result (out.new.items ≡ out.old.items ++ spec.uuid_text uuid.now) }
{
    let mut buffer = Uuid::encode_buffer();
    put_all(out, uuid.hyphenated().encode_lower(&mut buffer).as_bytes())
}

/// Puts an id as a record has it.
#[tactic(auto, unfolding(crate::specs::Ids::id_text))]
pub fn put_id(out: &mut Vec<u8>, id: &Uuid) -> Result<(), Memory>
    ensures { OnOk result (out.new.items ≡ out.old.items ++ spec.id_text id.now) }
{
    put_all(out, b"<urn:uuid:")?;
    put_uuid(out, id)?;
    put_all(out, b">")
}
