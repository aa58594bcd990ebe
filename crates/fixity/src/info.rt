//! The warcinfo of a volume.
ghost use Rattle.std.specs.Prelude.{◌≡◌, ◌≤◌, ℕ, List, IfOk, IfSome, IsTrue, length, min, take};
ghost use Rattle.fixity.specs.Faults.{CountsDisk};
ghost use Rattle.fixity.specs.steps.Files.{IsIn, file_in};
ghost use Rattle.fixity.specs.steps.Nexts.{IsInfoEnd};
ghost use Rattle.warc_text.specs.Records.{info_most};

use crate::FixityFault;
use crate::due::Due;
use crate::reading::read_bytes;
use capture::Memory;
use disk_model::Disk;
use record_opening::{InfoStep, next_info};
use std::alloc::Global;
use uuid::Uuid;
use warc_text::INFO_MOST;

/// Where the warcinfo of the volume ends, if it stands there, in this namespace.
pub fn read_info<D: Disk>(
    alloc: Global,
    disk: &mut D,
    due: Due,
    namespace: &Uuid,
) -> Result<Option<u64>, FixityFault>
    requires { IsTrue D.tells → IsIn (D.reading disk.old) due }
    ensures info { IsTrue D.tells → IfOk result (IsInfoEnd due.volume namespace.now (file_in (D.reading disk.old) due)) }
    ensures fits { IfOk result (λ end. IfSome end (λ end. end ≤ due.len)) }
    ensures reading { IsTrue D.tells → D.reading disk.new ≡ D.reading disk.old }
    ensures faults { CountsDisk (D.faults disk.old) (D.faults disk.new) result }
{
    let bytes = read_bytes(alloc, disk, due, 0, INFO_MOST)?;
    Ok(info_end(alloc, bytes.as_slice(), due.len, due.volume, namespace)?)
}

/// Where the warcinfo ends with which a file begins, if it does, of this volume and namespace. `bytes` were read of it, and
/// `room` is how many it has.
fn info_end(
    alloc: Global,
    bytes: &[u8],
    room: u64,
    volume: u32,
    namespace: &Uuid,
) -> Result<Option<u64>, Memory>
    requires within { length bytes.now ≤ room }
    requires enough { min info_most room ≤ length bytes.now }
    ensures info { (rest : List ℕ) → length rest ≡ room → bytes.now ≡ take (length bytes.now) rest
        → IfOk result (IsInfoEnd volume namespace.now rest) }
    ensures fits { IfOk result (λ end. IfSome end (λ end. end ≤ length bytes.now)) }
{
    let more = (bytes.len() as u64) < room;
    match next_info(alloc, bytes, more, volume) {
        InfoStep::Info {
            namespace: found,
            len,
            ..
        } => {
            if found == *namespace {
                Ok(Some(len))
            } else {
                Ok(None)
            }
        }
        InfoStep::End => Ok(None),
        InfoStep::Unfinished => Ok(None),
        InfoStep::Damaged => Ok(None),
        // No warcinfo is so long.
        InfoStep::Need(_) => Ok(None),
        InfoStep::Memory => Err(Memory),
    }
}
