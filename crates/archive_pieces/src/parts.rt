//! The parts of a piece, by its bytes alone.
ghost use Rattle.std.specs.Prelude.{◌≡◌, ◌+◌, IfNone, IfOk, IfSome, false, length, true};
ghost use Rattle.capture.specs.Captures.{captures};
ghost use Rattle.warc_scan.specs.Groups.{IsGroup};
ghost use Rattle.warc_text.specs.Ids.{IsUuid};
ghost use Rattle.archive_volumes.specs.Held.{book_of, is_filled};
ghost use Rattle.archive_pieces.specs.PieceParts.{BeginsWithFront, HasNoFront, HasNoParts, IsBegunBy, IsFoundIn, IsNoGroup, IsNotBegun};

use archive_volumes::Held;
use capture::Memory;
use record_opening::{InfoStep, next_info};
use std::alloc::Global;
use uuid::Uuid;
use warc_scan::{Group, GroupStep, next_group};

/// The warcinfo with which a piece begins.
#[derive(Clone, Copy)]
pub(crate) struct Front {
    /// When its volume was born.
    pub(crate) born: u64,
    /// Its length in bytes.
    pub(crate) len: u64,
}

/// What was read of a piece.
#[derive(Drop)]
pub struct Found {
    /// When the volume was born that is to be begun for it, if one is.
    pub begins: Option<u64>,
    /// Where its group begins, in bytes.
    pub at: u64,
    /// Its group.
    pub group: Group,
}

/// A warcinfo and the group behind it.
#[derive(Drop)]
pub(crate) struct Begun {
    /// When its volume was born.
    pub(crate) born: u64,
    /// Where the group begins, in bytes.
    pub(crate) at: u64,
    /// The group.
    pub(crate) group: Group,
}

/// The warcinfo of the volume with this number, in this namespace, if the bytes begin with it.
pub(crate) fn front_of(
    alloc: Global,
    bytes: &[u8],
    namespace: &Uuid,
    volume: u32,
) -> Result<Option<Front>, Memory>
    ensures some { IfOk result (λ found. IfSome found (BeginsWithFront namespace.now volume bytes.now)) }
    ensures none { IsUuid namespace.now → IfOk result (λ found. IfNone found (HasNoFront namespace.now volume bytes.now)) }
{
    match next_info(alloc, bytes, false, volume) {
        InfoStep::Info {
            namespace: own,
            born,
            len,
        } => {
            if own == *namespace {
                return Ok(Some(Front { born, len }));
            }
            Ok(None)
        }
        InfoStep::Memory => Err(Memory),
        InfoStep::End => Ok(None),
        InfoStep::Unfinished => Ok(None),
        InfoStep::Damaged => Ok(None),
        InfoStep::Need(_) => Ok(None),
    }
}

/// The group with this number that the bytes are, if they are one.
pub(crate) fn group_in(
    alloc: Global,
    bytes: &[u8],
    namespace: &Uuid,
    number: u32,
) -> Result<Option<Group>, Memory>
    ensures some { IfOk result (λ found. IfSome found (IsGroup namespace.now number bytes.now)) }
    ensures none { IfOk result (λ found. IfNone found (IsNoGroup namespace.now number bytes.now)) }
{
    match next_group(alloc, bytes, false, namespace, number) {
        GroupStep::Group(group) => {
            if group.len == bytes.len() as u64 {
                return Ok(Some(group));
            }
            Ok(None)
        }
        GroupStep::Memory => Err(Memory),
        GroupStep::End => Ok(None),
        GroupStep::Unfinished => Ok(None),
        GroupStep::Damaged => Ok(None),
        GroupStep::Need(_) => Ok(None),
    }
}

/// The warcinfo of the volume with this number and the group with that number, if the bytes are these.
pub(crate) fn begun_in(
    alloc: Global,
    bytes: &[u8],
    namespace: &Uuid,
    volume: u32,
    number: u32,
) -> Result<Option<Begun>, Memory>
    ensures some { IfOk result (λ found. IfSome found (IsBegunBy namespace.now volume number bytes.now)) }
    ensures none { IsUuid namespace.now → IfOk result (λ found. IfNone found (IsNotBegun namespace.now volume number bytes.now)) }
{
    let Some(front) = front_of(alloc, bytes, namespace, volume)? else {
        return Ok(None);
    };
    let (_, rest) = bytes.split_at(front.len as usize);
    match group_in(alloc, rest, namespace, number)? {
        Some(group) => Ok(Some(Begun {
            born: front.born,
            at: front.len,
            group,
        })),
        None => Ok(None),
    }
}

/// What a piece is by the book that is to take it, which has so many volumes and captures; none where it is nothing of the kind.
pub fn read_piece(
    alloc: Global,
    held: &Held,
    volumes: u32,
    number: u32,
    bytes: &[u8],
) -> Result<Option<Found>, Memory>
    requires volumes { volumes ≡ length (book_of held.now).volumes }
    requires number { number ≡ length (captures (book_of held.now)) }
    ensures some { IfOk result (λ found. IfSome found (IsFoundIn (book_of held.now) bytes.now)) }
    ensures none { IsUuid (book_of held.now).namespace → IfOk result (λ found. IfNone found (HasNoParts (book_of held.now) bytes.now)) }
{
    if held.is_filled() {
        return read_behind(alloc, held, volumes, number, bytes);
    }
    if volumes == 0 {
        return read_first(alloc, held, number, bytes);
    }
    read_into(alloc, held, volumes - 1, number, bytes)
}

/// The same where the last volume holds a capture: a group, or a volume more.
fn read_behind(
    alloc: Global,
    held: &Held,
    volumes: u32,
    number: u32,
    bytes: &[u8],
) -> Result<Option<Found>, Memory>
    requires volumes { volumes ≡ length (book_of held.now).volumes }
    requires number { number ≡ length (captures (book_of held.now)) }
    requires filled { is_filled (book_of held.now).volumes ≡ true }
    ensures some { IfOk result (λ found. IfSome found (IsFoundIn (book_of held.now) bytes.now)) }
    ensures none { IsUuid (book_of held.now).namespace → IfOk result (λ found. IfNone found (HasNoParts (book_of held.now) bytes.now)) }
{
    match begun_in(alloc, bytes, &held.namespace, volumes, number)? {
        Some(begun) => {
            let Begun { born, at, group } = begun;
            Ok(Some(Found {
                begins: Some(born),
                at,
                group,
            }))
        }
        None => match group_in(alloc, bytes, &held.namespace, number)? {
            Some(group) => Ok(Some(Found {
                begins: None,
                at: 0,
                group,
            })),
            None => Ok(None),
        },
    }
}

/// The same where there is no volume: the first one.
fn read_first(
    alloc: Global,
    held: &Held,
    number: u32,
    bytes: &[u8],
) -> Result<Option<Found>, Memory>
    requires volumes { length (book_of held.now).volumes ≡ 0 }
    requires number { number ≡ length (captures (book_of held.now)) }
    ensures some { IfOk result (λ found. IfSome found (IsFoundIn (book_of held.now) bytes.now)) }
    ensures none { IsUuid (book_of held.now).namespace → IfOk result (λ found. IfNone found (HasNoParts (book_of held.now) bytes.now)) }
{
    match begun_in(alloc, bytes, &held.namespace, 0, number)? {
        Some(begun) => {
            let Begun { born, at, group } = begun;
            Ok(Some(Found {
                begins: Some(born),
                at,
                group,
            }))
        }
        None => Ok(None),
    }
}

/// The same where the last volume, which has this number, holds no capture: its first one.
fn read_into(
    alloc: Global,
    held: &Held,
    last: u32,
    number: u32,
    bytes: &[u8],
) -> Result<Option<Found>, Memory>
    requires volumes { last + 1 ≡ length (book_of held.now).volumes }
    requires number { number ≡ length (captures (book_of held.now)) }
    requires empty { is_filled (book_of held.now).volumes ≡ false }
    ensures some { IfOk result (λ found. IfSome found (IsFoundIn (book_of held.now) bytes.now)) }
    ensures none { IsUuid (book_of held.now).namespace → IfOk result (λ found. IfNone found (HasNoParts (book_of held.now) bytes.now)) }
{
    let born = held.born(last);
    match begun_in(alloc, bytes, &held.namespace, last, number)? {
        Some(begun) => {
            if begun.born == born {
                let Begun { born: _, at, group } = begun;
                return Ok(Some(Found {
                    begins: None,
                    at,
                    group,
                }));
            }
            Ok(None)
        }
        None => Ok(None),
    }
}
