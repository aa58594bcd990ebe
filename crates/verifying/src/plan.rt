//! What is due in the volumes of an archive, and who checks that.
use archive_volumes::VolumeFacts;
use uuid::Uuid;

/// The volumes of an archive, and how many workers check one.
#[derive(Drop)]
pub struct Plan {
    /// The archive's namespace.
    pub namespace: Uuid,
    /// Its volumes, in order.
    pub volumes: Vec<VolumeFacts>,
    /// How many workers there are.
    pub workers: u32,
}
