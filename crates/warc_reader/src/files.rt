//! Reads a file's records a first time: it is one list of records, and its request records are noted.
ghost use Rattle.std.specs.Prelude.{◌≢◌, ◌<◌, [], length, IfOk, IfErr};
ghost use Rattle.warc_reader.specs.Files.{IsFileFault, IsReadTo, Knows};

use crate::import::ImportFault;
use crate::records::read_record;
use crate::requests::Requests;
use std::alloc::Global;

/// The request records of the file. NotARecord: behind whole records, at that place, the file goes on and no record stands there.
pub fn note_requests(alloc: Global, file: &[u8]) -> Result<Requests, ImportFault>
    ensures knows { IfOk result (Knows file.now) }
    ensures fault { IfErr result (IsFileFault file.now) }
{
    let mut requests = Requests::new(alloc);
    let mut rest = file;
    while !rest.is_empty() {
        rest = note_next(alloc, &mut requests, file, rest)?;
    }
    Ok(requests)
}

/// Notes the record at the front of the file's rest, and gives what stands behind it.
fn note_next<'b>(
    alloc: Global,
    requests: &mut Requests,
    file: &[u8],
    rest: &'b [u8],
) -> Result<&'b [u8], ImportFault>
    requires some { rest.now ≢ [] }
    requires read { IsReadTo file.now requests.old rest.now }
    ensures read { IfOk result (λ behind. IsReadTo file.now requests.new behind.now) }
    ensures shorter { IfOk result (λ behind. length behind.now < length rest.now) }
    ensures fault { IfErr result (IsFileFault file.now) }
{
    let at = (file.len() - rest.len()) as u64;
    match read_record(alloc, rest) {
        Ok(record) => match requests.add(alloc, record.fields.as_slice(), at) {
            Ok(()) => Ok(record.rest),
            Err(_) => Err(ImportFault::Memory),
        },
        Err(fault) => Err(ImportFault::of(fault, at)),
    }
}
