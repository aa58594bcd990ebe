//! How a command that stores ends over a disk, where nobody comes.
ghost use Rattle.std.specs.Prelude.{IfSome};
ghost use Rattle.warc_text.specs.Ids.{IsUuid};

use command::{
    Ran, Status, Unknown, asked_of, begin, command_of, open_and_settle, settle_and_close,
};
use disk_model::Disk;
use outside::Sink;
use std::alloc::Global;
use uuid::Uuid;

/// The words of one.
const WORDS: [&str; 2] = ["pipe", "6ba7b810-9dad-11d1-80b4-00c04fd430c8"];

/// Begins, and opens and closes the archive, as the command does that the words name.
pub(crate) fn opened<D: Disk, O: Sink>(alloc: Global, disk: D, out: &mut O) -> Ran<D> {
    let Some(command) = command_of(&WORDS) else {
        return Ran {
            status: Status::Words,
            disk,
        };
    };
    let disk = match begin(alloc, command, disk, out) {
        Ok(disk) => disk,
        Err(ran) => return ran,
    };
    match open_and_settle::<Unknown, D, O>(alloc, disk, asked(), out) {
        Ok(archive) => settle_and_close(alloc, archive, Status::Done),
        Err(ran) => ran,
    }
}

/// The namespace that the words ask for.
fn asked() -> Option<Uuid>
    ensures { IfSome result IsUuid }
{
    match command_of(&WORDS) {
        Some(command) => asked_of(command),
        None => None,
    }
}

/// The status of what ran.
pub(crate) fn status_of<D: Drop>(ran: Ran<D>) -> Status {
    let Ran { status, disk: _ } = ran;
    status
}
