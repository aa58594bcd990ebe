//! Why a journal answers no Ok.

use capture::Failed;
use thiserror::Error;

/// A call of the disk failed.
#[derive(Clone, Copy, Debug, Error)]
#[error("the disk failed")]
pub struct DiskFault;

impl From<Failed> for DiskFault {
    fn from(_error: Failed) -> DiskFault {
        DiskFault
    }
}
