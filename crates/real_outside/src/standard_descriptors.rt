//! The descriptors of the standard streams.
use std::fs::{File, OpenOptions};
use std::io;
use std::os::fd::{AsRawFd, IntoRawFd};
use std::rt::Files;

/// Takes reads and gives their end, and takes all that is written.
const NULL: &str = "/dev/null";

/// The last descriptor of a standard stream.
const LAST: i32 = 2;

/// Opens `/dev/null` in the place of each standard stream that the program was started without, for as long as it
/// runs. Else the system would give a stream's number to the first file that is opened, and what is meant for the
/// stream would be written into a volume.
pub fn hold_standard_descriptors<R: Files<File = File>>(rt: &R) -> io::Result<()> {
    for _ in 0..=LAST {
        let file = OpenOptions::new().read(true).write(true).open(rt, NULL)?;
        if file.as_raw_fd() > LAST {
            return Ok(());
        }
        let _held = file.into_raw_fd();
    }
    Ok(())
}
