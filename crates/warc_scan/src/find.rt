//! Finds the records of a capture in a volume, and reads the messages in them. No body is copied.
ghost use Rattle.std.specs.Prelude.{◌≡◌, ℕ, List, IfOk, IfErr, IsErrOf};
ghost use Rattle.capture.specs.WellFormed.{IsRequestOf};
ghost use Rattle.capture.specs.declared.captured.Kept.{Kept as KeptForm};
ghost use Rattle.record_opening.specs.Stops.{Refuses};
ghost use Rattle.warc_scan.specs.steps.Responses.{IsAnswerOf, IsMessageStop};
ghost use Rattle.warc_scan.specs.steps.Founds.{AsksByStop, HasMessages, IsFound, IsFoundIn, IsReadIn};
ghost use Rattle.warc_scan.specs.Asking.{AsksForMore};
ghost use Rattle.warc_scan.specs.Groups.{IsGroup};
ghost use Rattle.warc_scan.specs.Answers.{TellsNoGroup};
ghost use Rattle.warc_scan.specs.declared.group.Group.{Group as GroupForm};

use crate::answer::{Answer, read_answer};
use capture::Text;
use http_head::WireFault;
use record_opening::{
    Front, NoRecord, Opening, Stop, front_of, read_opening, split_block, strip_request_opening,
};
use std::alloc::Global;
use uuid::Uuid;
use warc_text::{IdKind, id_of};
use whole_request::request_method_in;

/// The two line ends behind a block.
pub const RECORD_END: u64 = 4;

/// The parts of a group, before its messages are read.
#[derive(Drop)]
pub struct Found<'b> {
    /// What the opening of the response or revisit says.
    pub opening: Opening<'b>,
    /// Its block.
    pub answer: &'b [u8],
    /// The block of the request.
    pub request: &'b [u8],
    /// The length of the response or revisit record.
    pub first_len: u64,
    /// The length of both.
    pub len: u64,
}

/// A group that was read.
#[derive(Drop)]
pub struct Read<'b> {
    /// Its parts.
    pub found: Found<'b>,
    /// The method of the request.
    pub method: Text,
    /// The response.
    pub answer: Answer<'b>,
}

/// The group with this number with which the bytes begin, or why there is none. `more` says that the file goes on behind them.
pub fn read_first<'b>(
    alloc: Global,
    bytes: &'b [u8],
    more: bool,
    namespace: &Uuid,
    number: u32,
) -> Result<Read<'b>, NoRecord>
    ensures ok { IfOk result (IsReadIn namespace.now number bytes.now) }
    ensures tells { IfErr result (TellsNoGroup namespace.now number more bytes.now) }
    ensures asks { IfErr result (AsksForMore namespace.now number bytes.now) }
{
    match front_of(bytes, more) {
        Front::Nothing => Err(NoRecord::End),
        Front::Tail => Err(NoRecord::Unfinished),
        Front::Begun => Err(NoRecord::Need(bytes.len() as u64 + 1)),
        Front::Committed => match read_group(alloc, bytes, namespace, number) {
            Ok(read) => Ok(read),
            Err(stop) => Err(NoRecord::by(stop, more, bytes.len() as u64)),
        },
    }
}

/// The group with this number that the bytes begin with.
fn read_group<'b>(
    alloc: Global,
    bytes: &'b [u8],
    namespace: &Uuid,
    number: u32,
) -> Result<Read<'b>, Stop>
    ensures ok { IfOk result (IsReadIn namespace.now number bytes.now) }
    ensures err { IfErr result (λ stop. (text : List ℕ) (group : GroupForm) → IsGroup namespace.now number text group
        → Refuses stop bytes.now text) }
    ensures asks { IfErr result (AsksByStop namespace.now number bytes.now) }
{
    // A `?` on a result that holds an id isn't covered.
    let found = match find_group(alloc, bytes, namespace, number) {
        Ok(found) => found,
        Err(stop) => return Err(stop),
    };
    let (method, answer) = read_messages(alloc, &found)?;
    Ok(Read {
        found,
        method,
        answer,
    })
}

/// The parts of the group with this number that the bytes begin with, whatever its blocks are.
fn find_group<'b>(
    alloc: Global,
    bytes: &'b [u8],
    namespace: &Uuid,
    number: u32,
) -> Result<Found<'b>, Stop>
    ensures ok { IfOk result (IsFoundIn namespace.now number bytes.now) }
    ensures err { IfErr result (λ stop. (text : List ℕ) (group : GroupForm) → IsGroup namespace.now number text group
        → Refuses stop bytes.now text) }
    ensures asks { IfErr result (AsksByStop namespace.now number bytes.now) }
{
    let id = id_of(namespace, IdKind::Response, number);
    // A `?` on a result that holds an id isn't covered.
    let opening = match read_opening(alloc, bytes, &id) {
        Ok(opening) => opening,
        Err(stop) => return Err(stop),
    };
    let answer = split_block(bytes, bytes.len() - opening.rest.len())?;
    let request_id = id_of(namespace, IdKind::Request, number);
    let rest = strip_request_opening(answer.rest, &request_id, &id, opening.date, opening.uri)?;
    let request = split_block(bytes, bytes.len() - rest.len())?;
    Ok(Found {
        opening,
        answer: answer.block,
        request: request.block,
        first_len: (bytes.len() - answer.rest.len()) as u64,
        len: (bytes.len() - request.rest.len()) as u64,
    })
}

/// The method of the request in these parts, and their response. `Wrong`: they are none of a well formed capture.
fn read_messages<'b>(alloc: Global, found: &Found<'b>) -> Result<(Text, Answer<'b>), Stop>
    requires { IsFound found.now }
    ensures ok { IfOk result (λ read. HasMessages found.now read.0 read.1) }
    ensures wrong { IsErrOf result Stop.Wrong → (method head : List ℕ) (kept : KeptForm) → IsRequestOf method found.now.request.now
        → ¬ (IsAnswerOf method found.now.answer.now found.now.opening head kept) }
    ensures stops { IfErr result IsMessageStop }
{
    let method = match request_method_in(alloc, found.request) {
        Ok(method) => method,
        Err(WireFault::Malformed) => return Err(Stop::Wrong),
        // A request without limits has no other fault.
        Err(_) => return Err(Stop::Memory),
    };
    let answer = read_answer(alloc, method.as_slice(), found.answer, &found.opening)?;
    Ok((method, answer))
}
