//! The answer of an object of the outside whose call failed.
use thiserror::Error;

/// A call on an object of the outside failed: the object's count of faults rose in it.
#[derive(Clone, Copy, Debug, PartialEq, Eq, Error)]
#[error("a call on the outside failed")]
pub struct Failed;
