//! The record at the beginning of a volume.
ghost use Rattle.std.specs.Prelude.{◌≡◌, ◌++◌, ◌≤◌, List, ℕ, length, IfOk, OnOk};
ghost use Rattle.time_text.specs.Texts.{InRange};
ghost use Rattle.warc_text.specs.Records as spec;

use crate::id::{IdKind, id_of};
use crate::kind::RecordKind;
use crate::lengths::{INFO, date_len, ended_len, info_block_len};
use crate::lines::{
    put_content_line, put_info_block, put_length_lines, put_opening, put_record_end,
};
use capture::{Bytes, Memory};
use std::alloc::Global;
use uuid::Uuid;

/// No warcinfo has more bytes.
pub const INFO_MOST: u64 = 512;

/// Puts the `warcinfo` record of a volume (ISO 28500, section 6.2), born at this date, at the end of
/// a text.
#[tactic(auto, unfolding(crate::specs::Records::info_text, crate::specs::Records::info_opening, crate::specs::Lines::ended), using(crate::proofs::LengthLaws::length_of_info_block))]
pub fn put_info(out: &mut Vec<u8>, namespace: &Uuid, volume: u32, born: u64) -> Result<(), Memory>
    requires { InRange born }
    ensures { OnOk result (out.new.items ≡ out.old.items ++ spec.info_text namespace.now volume born) }
{
    let id = id_of(namespace, IdKind::Info, volume);
    put_opening(out, RecordKind::Info, &id, born)?;
    put_content_line(out, RecordKind::Info)?;
    put_length_lines(out, info_block_len(volume))?;
    put_info_block(out, namespace, volume)?;
    put_record_end(out)
}

/// The `warcinfo` record of a volume (ISO 28500, section 6.2), born at this date.
pub fn info_text(alloc: Global, namespace: &Uuid, volume: u32, born: u64) -> Result<Bytes, Memory>
    requires { InRange born }
    ensures { IfOk result (λ text. text ≡ spec.info_text namespace.now volume born) }
{
    let mut out = Vec::with_capacity(alloc, info_len(volume, born) as usize)?;
    put_info(&mut out, namespace, volume, born)?;
    Ok(Bytes::of(out))
}

/// The length of that record in bytes. Takes no memory.
#[tactic(auto, using(crate::proofs::LengthLaws::length_of_info))]
pub fn info_len(volume: u32, born: u64) -> u64
    ensures value { (namespace : List ℕ) → result ≡ length (spec.info_text namespace volume born) }
    ensures short { result ≤ spec.info_most }
{
    INFO + date_len(born) + ended_len(info_block_len(volume))
}
