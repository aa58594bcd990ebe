//! Reads the captures of a file, one after the other.
ghost use Rattle.std.specs.Prelude.{◌≡◌, List, IfOk, OnErr, IfErr};
ghost use Rattle.warc_reader.specs.Files.{Gives, IsBetween, IsFileFault};
ghost use Rattle.warc_reader.specs.Records.{IsFile, WarcRecord};

use crate::files::note_requests;
use crate::import::{ImportFault, Outcome};
use crate::outcomes::outcome_of;
use crate::record::RecordFault;
use crate::records::read_record;
use crate::requests::Requests;
use capture::Memory;
use std::alloc::Global;
use std::marker::Model;

/// Reads what the records of a WARC file give, one after the other. The file is lent: what is held beside it are the ids of its
/// request records, and one capture at a time. A contract sees the file and how far it was read.
#[derive(Drop)]
pub struct CaptureReader<'b> {
    file: &'b [u8],
    requests: Requests,
    at: usize,
}

impl<'b> Model for CaptureReader<'b> {
    ghost use Rattle.warc_reader.specs.Files.{FileReading, Reads};

    ghost Value = { FileReading };

    ghost view = { λ r. record { file = r.file.now; at = r.at } };

    ghost invariant = { λ r. Reads r.file.now r.requests r.at };
}

impl<'b> CaptureReader<'b> {
    /// A reader of the file, which stands before its first record. NotARecord: behind whole records, at that place, the file
    /// goes on and no record stands there.
    pub fn new(alloc: Global, file: &'b [u8]) -> Result<CaptureReader<'b>, ImportFault>
        ensures stands { IfOk result (λ reader. reader ≡ record { file = file.now; at = 0 }) }
        ensures is_file { IfOk result (λ reader. (records : List WarcRecord) × IsFile records file.now) }
        ensures fault { IfErr result (IsFileFault file.now) }
    {
        let requests = note_requests(alloc, file)?;
        Ok(CaptureReader {
            file,
            requests,
            at: 0,
        })
    }

    /// What the next record gives, the first time for the first record. `None`: all were read. After `Memory` the reader stands
    /// where it stood.
    pub fn next(&mut self, alloc: Global) -> Result<Option<Outcome>, Memory>
        ensures file { self.new.file ≡ self.old.file }
        ensures gives { IfOk result (λ found. (done rest : List WarcRecord) → IsBetween self.old done rest → Gives self.new done rest found) }
        ensures err { OnErr result (self.new ≡ self.old) }
    {
        let (_, behind) = self.file.split_at(self.at);
        if behind.is_empty() {
            return Ok(None);
        }
        let record = match read_record(alloc, behind) {
            Ok(record) => record,
            Err(RecordFault::Memory) => return Err(Memory),
            Err(RecordFault::NotARecord) => unreachable!(),
        };
        let outcome = outcome_of(alloc, self.file, &self.requests, &record, self.at)?;
        self.at = self.file.len() - record.rest.len();
        Ok(Some(outcome))
    }
}
