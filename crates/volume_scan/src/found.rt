//! What a step finds.
use uuid::Uuid;
use warc_journal::Place;
use warc_scan::HeadedGroup;

/// What stands next in the volumes.
#[derive(Drop)]
pub enum Found {
    /// A volume begins.
    Info {
        /// Its number.
        volume: u32,
        /// The namespace that its warcinfo tells.
        namespace: Uuid,
        /// When it was begun, in milliseconds since 1970.
        born: u64,
    },
    /// A capture, in the volume that was begun last.
    Group {
        /// Where its group stands.
        place: Place,
        /// The group, with the parts of its response's head, and its target as a URL.
        read: HeadedGroup,
    },
    /// Nothing: all volumes were read.
    End,
}
