//! Lengths of texts, told without writing them. Nothing here takes memory.
ghost use Rattle.std.specs.Prelude.{◌≡◌, ◌+◌, ◌≤◌, ◌<◌, ◌^◌, length, decimal};
ghost use Rattle.time_text.specs.Texts.{warc_date};
ghost use Rattle.warc_text.specs.Lengths.{ended_length, info_block_length, request_length, IsShort};

use capture::Taken;
use itoa::Buffer;
use time_text::warc_len;

/// What a warcinfo has beside its date and its block.
pub const INFO: u64 = 148;
/// What its block has beside the number of the volume.
const INFO_BLOCK: u64 = 115;
/// What a request record has beside its date, its target and its block.
const REQUEST: u64 = 244;
/// What stands round a block beside its length in decimal.
const ROUND: u64 = 24;

/// The length of a number in decimal.
fn decimal_len(number: u64) -> u64
    ensures value { result ≡ length (decimal number) }
    ensures short { result ≤ 20 }
{
    let mut buffer = Buffer::new();
    buffer.format(number).len() as u64
}

/// The length of a date's text.
pub fn date_len(date: u64) -> u64
    ensures value { result ≡ length (warc_date date) }
    ensures short { result ≤ 24 }
{
    warc_len(date) as u64
}

/// The length of a block with what stands round it.
pub fn ended_len(block: u64) -> u64
    requires { block < 2 ^ 60 }
    ensures value { result ≡ ended_length block }
    ensures short { result ≤ block + 44 }
{
    ROUND + decimal_len(block) + block
}

/// The length of the warcinfo's block.
pub fn info_block_len(volume: u32) -> u64
    ensures value { result ≡ info_block_length volume }
    ensures short { result ≤ 135 }
{
    INFO_BLOCK + decimal_len(u64::from(volume))
}

/// The length of the request record of a capture.
pub fn request_len(taken: &Taken) -> u64
    requires { IsShort taken.now }
    ensures value { result ≡ request_length taken.now }
    ensures short { result < 2 ^ 60 }
{
    let block = taken.request.as_slice().len() as u64;
    REQUEST + date_len(taken.date) + taken.uri.as_slice().len() as u64 + ended_len(block)
}
