//! Finds the warcinfo of a volume.
ghost use Rattle.std.specs.Prelude.{◌≡◌, ◌++◌, ◌<◌, ℕ, List, length, IfOk, IfErr, IsErrOf};
ghost use Rattle.time_text.specs.Texts.{InRange};
ghost use Rattle.warc_text.specs.Ids.{IsUuid};
ghost use Rattle.warc_text.specs.Records as spec;
ghost use Rattle.record_opening.specs.Rests.{IsCommittedRest};
ghost use Rattle.record_opening.specs.InfoAnswers.{TellsInfo};
ghost use Rattle.record_opening.specs.InfoParts.{AsksForInfo, AsksForLittle, info_front, info_middle};
ghost use Rattle.record_opening.specs.steps.InfoFronts.{IsAnswerTo, IsInfoFront, NoNamespaceStands, front_of_info};
ghost use Rattle.record_opening.specs.Stops.{Differs, IsLineStop, NoneStands};

use crate::InfoStep;
use crate::fields::{read_date_field, read_uuid};
use crate::front::{Front, front_of};
use crate::stop::Stop;
use crate::strip::strip;
use itoa::Buffer;
use std::alloc::Global;
use uuid::Uuid;
use warc_text::{info_len, info_text};

/// What a warcinfo's block has beside the number of the volume.
const INFO_BLOCK: u64 = 115;

/// The lines of a warcinfo up to its date.
#[derive(Clone, Copy)]
struct InfoFront<'b> {
    /// Its id, which hangs on the namespace behind it.
    id: Uuid,
    /// Its date.
    born: u64,
    /// What stands behind them.
    rest: &'b [u8],
}

/// What stands where a volume's file begins, which is to be its warcinfo, of the volume with this number. `bytes` begin there,
/// and `more` says that the file goes on behind them.
pub fn next_info(alloc: Global, bytes: &[u8], more: bool, volume: u32) -> InfoStep
    ensures tells { TellsInfo volume more bytes.now result }
    ensures asks { AsksForInfo volume bytes.now result }
    ensures little { AsksForLittle result }
{
    match front_of(bytes, more) {
        Front::Nothing => InfoStep::End,
        Front::Tail => InfoStep::Unfinished,
        Front::Begun => InfoStep::Need(info_len(volume, 0)),
        Front::Committed => read_info(alloc, bytes, more, volume),
    }
}

/// What the bytes tell, which begin with the commit byte and more.
fn read_info(alloc: Global, bytes: &[u8], more: bool, volume: u32) -> InfoStep
    requires { IsCommittedRest more bytes.now }
    ensures tells { TellsInfo volume more bytes.now result }
    ensures asks { AsksForInfo volume bytes.now result }
    ensures little { AsksForLittle result }
{
    let front = match read_front(bytes) {
        Ok(front) => front,
        Err(stop) => return answer_to(stop, more, info_len(volume, 0)),
    };
    let len = info_len(volume, front.born);
    match read_namespace(alloc, bytes, volume, &front) {
        Ok(namespace) => InfoStep::Info {
            namespace,
            born: front.born,
            len,
        },
        Err(stop) => answer_to(stop, more, len),
    }
}

/// The answer where the text of a warcinfo, which has so many bytes, doesn't stand whole.
fn answer_to(stop: Stop, more: bool, len: u64) -> InfoStep
    requires { IsLineStop stop }
    ensures { IsAnswerTo stop more len result }
{
    match stop {
        Stop::Open => {
            if more {
                InfoStep::Need(len)
            } else {
                InfoStep::Damaged
            }
        }
        // A warcinfo is read line by line.
        Stop::Until(_) => unreachable!(),
        Stop::Wrong => InfoStep::Damaged,
        Stop::Memory => InfoStep::Memory,
    }
}

/// Reads the lines of a warcinfo up to its date, whatever its id is.
fn read_front(bytes: &[u8]) -> Result<InfoFront<'_>, Stop>
    ensures id { IfOk result (λ front. IsUuid front.id) }
    ensures date { IfOk result (λ front. InRange front.born) }
    ensures ok { IfOk result (λ front. bytes.now ≡ info_front front.id front.born ++ front.rest.now) }
    ensures err { IfErr result (λ stop. NoneStands IsInfoFront front_of_info stop bytes.now) }
    ensures ends { IsErrOf result Stop.Open → length bytes.now < 200 }
{
    let named = strip(
        bytes,
        b"WARC/1.1\r\nWARC-Type: warcinfo\r\nWARC-Record-ID: <urn:uuid:",
    )?;
    // A `?` on a result that holds an id isn't covered.
    let read = match read_uuid(named) {
        Ok(read) => read,
        Err(stop) => return Err(stop),
    };
    let dated = strip(read.1, b">\r\n")?;
    let (born, rest) = read_date_field(dated, b"WARC-Date: ")?;
    Ok(InfoFront {
        id: read.0,
        born,
        rest,
    })
}

/// Reads the namespace behind the lines up to the date, with which the text is known: the bytes begin with it.
fn read_namespace(
    alloc: Global,
    bytes: &[u8],
    volume: u32,
    front: &InfoFront<'_>,
) -> Result<Uuid, Stop>
    requires id { IsUuid front.now.id }
    requires date { InRange front.now.born }
    requires front { bytes.now ≡ info_front front.now.id front.now.born ++ front.now.rest.now }
    ensures namespace { IfOk result IsUuid }
    ensures ok { IfOk result (λ namespace. (rest : List ℕ) × (bytes.now ≡ spec.info_text namespace volume front.now.born ++ rest)) }
    ensures err { IfErr result (λ stop. NoNamespaceStands volume front.now.born stop bytes.now) }
{
    let named = strip_middle(front.rest, volume)?;
    // A `?` on a result that holds an id isn't covered.
    let read = match read_uuid(named) {
        Ok(read) => read,
        Err(stop) => return Err(stop),
    };
    let namespace = read.0;
    let text = info_text(alloc, &namespace, volume, front.born)?;
    strip(bytes, text.as_slice())?;
    Ok(namespace)
}

/// What stands behind the lines from a warcinfo's date up to its namespace.
fn strip_middle(bytes: &[u8], volume: u32) -> Result<&[u8], Stop>
    ensures ok { IfOk result (λ rest. bytes.now ≡ info_middle volume ++ rest.now) }
    ensures err { IfErr result (λ stop. Differs stop bytes.now (info_middle volume)) }
{
    let mut number = Buffer::new();
    let block_len = INFO_BLOCK + number.format(volume).len() as u64;
    let mut length = Buffer::new();
    let told = length.format(block_len);
    let given = strip(
        bytes,
        b"Content-Type: application/warc-fields\r\nContent-Length: ",
    )?;
    let end = strip(given, told.as_bytes())?;
    strip(
        end,
        b"\r\n\r\nsoftware: memproxy\r\narchive-version: 1\r\narchive-namespace: ",
    )
}
