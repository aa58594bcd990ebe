//! Rows of steps, and what is called for them.
use crate::folders::{Plan, RecordedFolders, Recorder, TWO_VOLUMES};
use call_log::{Written, joined, written};
use disk_model::Disk;
use disk_model::Kind::Warc;
use disk_steps::{Step, taken};
use folder_model::Lock;
use real_outside::RealDisk;
use std::alloc::{AllocError, Global};
use std::io::ErrorKind;

/// How many volumes there are.
pub const FILES: Step = Step::Files(Warc);

/// A next volume.
pub const CREATE: Step = Step::Create(Warc);

/// The length of the file of this number.
pub const LEN_0: Step = Step::Len(Warc, 0);

/// Two bytes from the second on.
pub const READ_0: Step = Step::Read(Warc, 0, 1, b"\0\0");

/// Three bytes from the first on.
pub const WRITE_0: Step = Step::Write(Warc, 0, 0, b"abc");

/// The same, to the file of this number.
pub const WRITE_2: Step = Step::Write(Warc, 2, 0, b"abc");

/// To one byte.
pub const CUT_0: Step = Step::Cut(Warc, 0, 1);

/// The file of this number.
pub const SYNC_0: Step = Step::Sync(Warc, 0);

/// Likewise.
pub const SYNC_2: Step = Step::Sync(Warc, 2);

/// What the folder holds, which of its calls fail and how and which are written down; how the folder is held; what is
/// done; and in parts the calls that are made then, and behind them how many steps failed.
pub type Row = (Plan, Lock, &'static [Step], &'static [&'static str]);

/// What is called where the folder is held so, and how many steps failed.
pub fn played(alloc: Global, plan: Plan, lock: Lock, steps: &[Step]) -> Written {
    match recorders(alloc, plan) {
        Ok((recorder, log)) => {
            let disk = RealDisk::new(RecordedFolders::new(recorder), alloc, lock);
            let faults = written(faults_behind(disk, steps));
            joined(log.calls(), faults.as_str())
        }
        Err(_) => Written::new(),
    }
}

/// Two recorders with one log.
fn recorders(alloc: Global, plan: Plan) -> Result<(Recorder, Recorder), AllocError> {
    let recorder = Recorder::new(alloc, plan)?;
    let log = recorder.share()?;
    Ok((recorder, log))
}

/// How many steps failed.
fn faults_behind(disk: RealDisk<RecordedFolders>, steps: &[Step]) -> u64 {
    let mut disk = disk;
    for step in steps {
        let _told = taken(&mut disk, *step);
    }
    disk.faults()
}

/// A text in its parts.
pub fn whole(parts: &[&str]) -> Written {
    let mut whole = Written::new();
    for part in parts {
        whole = joined(whole, part);
    }
    whole
}

/// What finds no folder: calls 0 to 2.
pub const NOT_FOUND: &str = "lock archive;is a link archive;may write .;";

/// What opens a file to write it. One that was left is looked for at its name then.
pub const REOPENED: &str =
    "look for folder;open to write vol-000000.warc;length of vol-000000.warc;";

/// What writes three bytes to the first volume.
pub const ONE_WRITE: &str = "write 3 at 0 of vol-000000.warc;";

/// What reads the first of two volumes.
pub const READ: &str =
    "look for folder;open to read vol-000000.warc;length of vol-000000.warc;read 2 at 1 of vol-000000.warc;";

/// What has no folder at first.
pub const NO_FOLDER: (usize, ErrorKind) = (0, ErrorKind::NotFound);

/// Two volumes whose paths lead to others from call 4 on.
pub const MOVES_AT_4: Plan = Plan {
    moved_from: 4,
    ..TWO_VOLUMES
};
