//! The response in a record's block.
ghost use Rattle.std.specs.Prelude.{◌≡◌, ◌⊎◌, ◌++◌, ◌&&◌, not, IsSome, IfOk, IsErrOf};
ghost use Rattle.capture.specs.First.{Responses};
ghost use Rattle.capture.specs.Methods.{asks_for_head};
ghost use Rattle.http_wire.specs.Answers.{IsWholeNow};
ghost use Rattle.http_wire.specs.HeldBodies.{closed_standing};
ghost use Rattle.http_wire.specs.Messages.{IsResponse};
ghost use Rattle.http_wire.specs.Reading.{IsEnded, Open, Stands, Whole};
ghost use Rattle.http_wire.specs.ResponseReading.{new_response};
ghost use Rattle.warc_reader.specs.Blocks.{HasNoResponse, IsBlockOf, IsOther, block_fault_of, answered, received_parts};

use capture::{Memory, ended_bodies_are_cut, heads_end_at_the_first_empty_line};
use http_head::{Received, WireFault};
use http_wire::{
    Progress, ResponseReader, decisions_are_one, decisions_stay, responses_can_be_stored,
};
use std::alloc::Global;

/// The method whose responses have no body (RFC 9110, section 9.3.2).
const HEAD: &[u8] = b"HEAD";

/// The least status of a final response (RFC 9110, section 15).
const LEAST_FINAL: u16 = 200;

/// Why a block gives no response.
#[derive(Clone, Copy)]
pub enum BlockFault {
    /// It isn't one whole final response within the limits, nor, where it was truncated, one that ends inside its body.
    NoMessage,
    /// There was no memory.
    Memory,
}

/// The response to a request of this method that the block is, whole or, where the block was truncated, cut.
pub fn read_response(
    alloc: Global,
    method: &[u8],
    truncated: bool,
    block: &[u8],
) -> Result<Received, BlockFault>
    ensures ok { IfOk result (λ received. IsBlockOf (answered method.now truncated block.now) (received_parts received)) }
    ensures none { IsErrOf result BlockFault.NoMessage → HasNoResponse (answered method.now truncated block.now) }
{
    decisions_are_one();
    ended_bodies_are_cut();
    let mut reader = ResponseReader::new(alloc, method == HEAD);
    match feed_block(alloc, &mut reader, block) {
        Ok(()) => {
            let received = reader.take();
            keep(received, method, truncated, block)
        }
        Err(fault) => Err(fault),
    }
}

/// Gives the reader all of the block, as a stream that ends with it.
fn feed_block(alloc: Global, reader: &mut ResponseReader, block: &[u8]) -> Result<(), BlockFault>
    requires { reader.old ≡ new_response reader.old.answers_head }
    ensures side { reader.new.answers_head ≡ reader.old.answers_head }
    ensures stream { IfOk result (λ _. reader.new.stream ≡ block.now) }
    ensures ended { IfOk result (λ _. IsEnded reader.new.standing) }
    ensures stands { IfOk result (λ _. Stands (Responses reader.new.answers_head) reader.new.stream reader.new.standing) }
    ensures none { IsErrOf result BlockFault.NoMessage → IsOther reader.old.answers_head block.now }
{
    decisions_stay();
    match reader.feed(alloc, block) {
        Ok(fed) => match fed.progress {
            Progress::Head => {
                let (_, rest) = block.split_at(fed.used);
                feed_body(alloc, reader, rest)
            }
            Progress::More => end_stream(reader),
            Progress::Whole => unreachable!(),
        },
        Err(fault) => Err(block_fault(fault)),
    }
}

/// Gives the reader, whose head has come, the rest of a stream that ends with it.
fn feed_body(alloc: Global, reader: &mut ResponseReader, rest: &[u8]) -> Result<(), BlockFault>
    requires head { IsSome reader.old.head }
    requires standing { (reader.old.standing ≡ Open) ⊎ (reader.old.standing ≡ Whole) }
    requires whole { IsWholeNow (Responses reader.old.answers_head) reader.old.stream reader.old.standing }
    ensures side { reader.new.answers_head ≡ reader.old.answers_head }
    ensures stream { IfOk result (λ _. reader.new.stream ≡ reader.old.stream ++ rest.now) }
    ensures ended { IfOk result (λ _. IsEnded reader.new.standing) }
    ensures stands { IfOk result (λ _. Stands (Responses reader.new.answers_head) reader.new.stream reader.new.standing) }
    ensures none { IsErrOf result BlockFault.NoMessage → IsOther reader.old.answers_head (reader.old.stream ++ rest.now) }
{
    decisions_stay();
    match reader.feed(alloc, rest) {
        Ok(fed) => match fed.progress {
            Progress::Whole => {
                if fed.used < rest.len() {
                    return Err(BlockFault::NoMessage);
                }
                Ok(())
            }
            Progress::More => end_stream(reader),
            Progress::Head => unreachable!(),
        },
        Err(fault) => Err(block_fault(fault)),
    }
}

/// Tells the reader that its stream has ended.
fn end_stream(reader: &mut ResponseReader) -> Result<(), BlockFault>
    requires { reader.old.standing ≡ Open }
    ensures side { reader.new.answers_head ≡ reader.old.answers_head }
    ensures stream { reader.new.stream ≡ reader.old.stream }
    ensures ended { IfOk result (λ _. IsEnded reader.new.standing) }
    ensures stands { Stands (Responses reader.new.answers_head) reader.new.stream reader.new.standing }
    ensures none { IsErrOf result BlockFault.NoMessage → IsOther reader.old.answers_head reader.old.stream }
{
    match reader.end() {
        Ok(()) => Ok(()),
        Err(fault) => Err(block_fault(fault)),
    }
}

/// The response of a block that was read to its end, where it begins and ends with the block and is final, and the block was
/// truncated where the response is cut.
fn keep(
    received: Received,
    method: &[u8],
    truncated: bool,
    block: &[u8],
) -> Result<Received, BlockFault>
    requires message { IsResponse (asks_for_head method.now) block.now received }
    requires stands { Stands (Responses (asks_for_head method.now)) block.now (closed_standing received.cut) }
    ensures ok { IfOk result (λ kept. IsBlockOf (answered method.now truncated block.now) (received_parts kept)) }
    ensures none { IsErrOf result BlockFault.NoMessage → HasNoResponse (answered method.now truncated block.now) }
{
    decisions_are_one();
    ended_bodies_are_cut();
    responses_can_be_stored();
    heads_end_at_the_first_empty_line();
    if received.head.status < LEAST_FINAL {
        return Err(BlockFault::NoMessage);
    }
    if received.head.text.as_slice().len() + received.wire.as_slice().len() != block.len() {
        return Err(BlockFault::NoMessage);
    }
    if is_unmarked(received.cut, truncated) {
        return Err(BlockFault::NoMessage);
    }
    Ok(received)
}

/// A response that is cut, in a block that wasn't truncated.
fn is_unmarked(cut: bool, truncated: bool) -> bool
    ensures { result ≡ (cut && not truncated) }
{
    cut && !truncated
}

/// What a reader's fault says of a block.
fn block_fault(fault: WireFault) -> BlockFault
    ensures { result ≡ block_fault_of fault }
{
    match fault {
        WireFault::Memory => BlockFault::Memory,
        _ => BlockFault::NoMessage,
    }
}
