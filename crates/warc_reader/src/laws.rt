//! What the definitions promise to those who build on them.
ghost use Rattle.warc_reader.specs.Laws.{CapturesCanBeStored, FilesAreNotRefused, FilesAreOne, FirstsGaveNone, ImportsAreOne, LastsGaveAll, NextsGiveOneMore, RecordsAreOne, RefusalsAreOne};

use capture::{ended_bodies_are_cut, heads_end_at_the_first_empty_line};
use http_wire::decisions_are_one;

/// A file is read in one way: at the front of a text stands one record at most; a text is one list of records, or there is one
/// place at which it is refused.
pub fn records_are_read_in_one_way()
    ensures records { RecordsAreOne }
    ensures files { FilesAreOne }
    ensures apart { FilesAreNotRefused }
    ensures places { RefusalsAreOne }
{}

/// An import is one: what the records of a file give is one list.
pub fn files_have_one_import()
    ensures { ImportsAreOne }
{
    decisions_are_one();
    ended_bodies_are_cut();
    heads_end_at_the_first_empty_line();
}

/// A capture that is made of a record of a file can be stored: it is well formed, its date is in range, and its parts are short.
pub fn imported_captures_can_be_stored()
    ensures { CapturesCanBeStored }
{}

/// Who calls `next` until there is none more is given the one import of the file, in order.
pub fn imports_come_in_turn()
    ensures first { FirstsGaveNone }
    ensures more { NextsGiveOneMore }
    ensures last { LastsGaveAll }
{}
