//! What stands where a group may begin.
use crate::Group;

/// What the rest of a volume, behind its warcinfo or a group, begins with.
#[derive(Drop)]
pub enum GroupStep {
    /// This group.
    Group(Group),
    /// Nothing: the volume ends.
    End,
    /// An unfinished tail, as a stop leaves it.
    Unfinished,
    /// The commit byte and more, but no group with this number.
    Damaged,
    /// The bytes don't decide. A group that stands there has at least so many bytes, more than there are.
    Need(u64),
    /// There was no memory.
    Memory,
}
