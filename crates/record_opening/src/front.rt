//! The first byte of what stands in a volume.
ghost use Rattle.std.specs.Prelude.{◌≡◌};
ghost use Rattle.record_opening.specs.Fronts.{IsFront};

/// The first byte of a finished warcinfo or group.
const COMMIT_BYTE: u8 = b'W';

/// What the rest of a volume's file is by its first bytes.
#[derive(Clone, Copy)]
pub enum Front {
    /// Nothing.
    Nothing,
    /// An unfinished tail.
    Tail,
    /// Nothing yet, or the commit byte alone, and more follows.
    Begun,
    /// The commit byte and more.
    Committed,
}

/// What the rest of a volume's file is. `more` says that the file goes on behind the bytes.
pub fn front_of(bytes: &[u8], more: bool) -> Front
    ensures { IsFront more bytes.now result }
{
    match bytes {
        [] => { if more { Front::Begun } else { Front::Nothing } }
        [COMMIT_BYTE] => { if more { Front::Begun } else { Front::Tail } }
        [COMMIT_BYTE, ..] => Front::Committed,
        _ => Front::Tail,
    }
}
