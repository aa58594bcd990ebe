//! The status that the process ends with.
ghost use Rattle.std.specs.Prelude.{◌≡◌};
ghost use Rattle.std.specs.Process.{exit_status};
ghost use Rattle.memproxy.specs.Status.{status_number};

use command::{Ran, Status};
use std::process::ExitCode;

/// The number of a status, as the one who started the process sees it.
pub(crate) fn exit_code(status: Status) -> ExitCode
    ensures { exit_status result ≡ status_number status }
{
    let number: u8 = match status {
        Status::Done => 0,
        Status::Words => 1,
        Status::Archive => 2,
        Status::Outside => 3,
        Status::Memory => 4,
    };
    ExitCode::from(number)
}

/// What the process ends with: the number of the status of what ran. The disk is closed with it.
pub(crate) fn ended<D: Drop>(ran: Ran<D>) -> ExitCode
    ensures { exit_status result ≡ status_number ran.status }
{
    let Ran { status, disk: _ } = ran;
    exit_code(status)
}
