//! How far the finished texts of the volumes reach.
ghost use Rattle.std.specs.Prelude.{◌≡◌};

use disk_model::Kind;
use gated_file::GatedFile;

/// The first byte of a finished warcinfo and of a finished group.
const COMMIT_BYTE: u8 = b'W';

/// What stands in the file behind the last volume's.
#[derive(Clone, Copy)]
pub enum Further {
    /// There is no such file.
    Absent,
    /// The file is there, and a crash leaves it there, empty.
    Empty,
    /// The file may be there, with something in it.
    Unknown,
}

/// How far the finished texts of the volumes reach, and what may stand behind them.
#[derive(Clone, Copy)]
pub struct Extent {
    /// How many volumes there are.
    pub volumes: u32,
    /// Where the text of the last volume ends, in bytes: 0 without a volume.
    pub end: u64,
    /// Whether something else may stand behind that end.
    pub is_dirty: bool,
    /// What stands in the file behind the last volume's.
    pub further: Further,
}

impl Extent {
    ghost use Rattle.warc_journal.specs.Extents.{last_of, further_of};

    /// The file of the last volume.
    pub(crate) fn last_file(&self) -> GatedFile
        ensures { result ≡ last_of self.now }
    {
        GatedFile {
            kind: Kind::Warc,
            file: self.volumes.saturating_sub(1),
            commit: COMMIT_BYTE,
            end: self.end,
            is_dirty: self.is_dirty,
        }
    }

    /// The file behind it, which is dirty unless it is known to be empty.
    pub(crate) fn further_file(&self, is_dirty: bool) -> GatedFile
        ensures { result ≡ further_of self.now is_dirty }
    {
        GatedFile {
            kind: Kind::Warc,
            file: self.volumes,
            commit: COMMIT_BYTE,
            end: 0,
            is_dirty,
        }
    }
}
