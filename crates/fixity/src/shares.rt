//! The shares of a batch, which many workers read.
ghost use Rattle.std.specs.Prelude.{◌≡◌, ◌+◌, ◌≤◌, ℕ, All, List, IfSome, drop, length, take};
ghost use Rattle.fixity.specs.declared.shares.Share.{Share as ShareForm};
ghost use Rattle.fixity.specs.steps.Runs.{RunsTo};
ghost use Rattle.fixity.specs.steps.Shares.{ShareStands};

use std::alloc::AllocError;
use warc_scan::told_len;

/// A part of a batch that is whole groups, by the lengths which their records tell, and that one worker reads. Places and lengths
/// are in bytes, from the batch's first byte on.
#[derive(Clone, Copy)]
pub struct Share {
    /// Where it begins.
    pub at: usize,
    /// How long it is.
    pub len: usize,
    /// How many groups stand before it in the batch.
    pub before: u32,
    /// How many groups it has.
    pub groups: u32,
}

/// Groups at the front of bytes.
#[derive(Clone, Copy)]
pub struct Front {
    /// How many they are.
    pub groups: u32,
    /// Where the last of them ends.
    pub len: usize,
}

/// Cuts whole groups off the front of a batch, at most so many, into no more shares than `parts`, which are about equally long, and
/// tells what all of these have. Into 0 parts nothing is cut.
pub fn cut(
    bytes: &[u8],
    most: u32,
    parts: usize,
    shares: &mut Vec<Share>,
) -> Result<Front, AllocError> {
    shares.clear();
    let mut groups = 0;
    let mut len = 0;
    if parts == 0 {
        return Ok(Front { groups, len });
    }
    let least = bytes.len().div_ceil(parts);
    'shares: while groups < most {
        let (_, rest) = bytes.split_at(len);
        let told = told_front(rest, most - groups, least);
        if told.groups == 0 {
            return Ok(Front { groups, len });
        }
        shares.push(Share {
            at: len,
            len: told.len,
            before: groups,
            groups: told.groups,
        })?;
        groups += told.groups;
        len += told.len;
    }
    Ok(Front { groups, len })
}

/// The groups at the front of bytes, by the lengths that their records tell: at most so many, and no more than `least` bytes need.
fn told_front(bytes: &[u8], most: u32, least: usize) -> Front
    ensures few { result.groups ≤ most }
    ensures inside { result.len ≤ length bytes.now }
{
    let mut groups = 0;
    let mut len = 0;
    'groups: while groups < most {
        if least <= len {
            return Front { groups, len };
        }
        let (_, rest) = bytes.split_at(len);
        let Some(next) = told_len(rest) else {
            return Front { groups, len };
        };
        groups += 1;
        len += next;
    }
    Front { groups, len }
}

/// So many bytes from a place on, if they are there.
pub fn part_of(bytes: &[u8], at: usize, len: usize) -> Option<&[u8]>
    ensures text { IfSome result (λ text. text.now ≡ take len (drop at bytes.now)) }
    ensures len { IfSome result (λ text. length text.now ≡ len) }
{
    if bytes.len() < at {
        return None;
    }
    let (_, behind) = bytes.split_at(at);
    if behind.len() < len {
        return None;
    }
    let (text, _) = behind.split_at(len);
    Some(text)
}

/// The groups at the front and those of such shares as go on from there, in their order.
pub fn with_each(front: Front, shares: &[Share]) -> Front
    ensures { (namespace : List ℕ) (number : ℕ) (bytes : List ℕ) → All (λ (share : ShareForm). ShareStands namespace number bytes share) shares.now
        → RunsTo namespace number bytes front.groups front.len → RunsTo namespace number bytes result.groups result.len }
{
    let mut longer = front;
    'shares: for i in 0..shares.len() {
        longer = with_share(longer, shares[i]);
    }
    longer
}

/// The groups at the front, and those of the share if it begins where these end.
fn with_share(front: Front, share: Share) -> Front
    ensures { (namespace : List ℕ) (number : ℕ) (bytes : List ℕ) → ShareStands namespace number bytes share
        → RunsTo namespace number bytes front.groups front.len → RunsTo namespace number bytes result.groups result.len }
{
    if share.before != front.groups {
        return front;
    }
    if share.at != front.len {
        return front;
    }
    let Some(groups) = front.groups.checked_add(share.groups) else {
        return front;
    };
    let Some(len) = front.len.checked_add(share.len) else {
        return front;
    };
    Front { groups, len }
}
