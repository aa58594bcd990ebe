//! A step of the journal of volumes.

/// A step of the journal of the volumes that were opened.
#[derive(Drop)]
pub struct Step {
    pub work: Work,
    /// Whether it is done only where the step before it was refused.
    pub again: bool,
}

/// What a step does.
#[derive(Drop)]
pub enum Work {
    /// A group is added.
    Append(Vec<u8>),
    /// A volume is begun.
    Roll(Vec<u8>),
    /// What stands behind the texts is taken away.
    Repair,
    /// A group is read by its place, which is told.
    Group(Vec<u8>),
}
