//! What is asked of the groups of a volume.

use crate::due::Due;
use uuid::Uuid;

/// The groups that are due in a volume, and the namespace in which their records are named.
#[derive(Drop)]
pub struct Plan {
    /// The volume's file, and the captures whose groups are due in it.
    pub due: Due,
    /// The archive's namespace.
    pub namespace: Uuid,
}
