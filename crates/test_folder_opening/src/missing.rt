//! What becomes of a number that has no checkpoint.
use crate::checked::check_rows;
use disk_model::Kind::Cdxj;
use disk_steps::Step;
use folder_model::Lock;
use recorded_folders::{FILES, NEVER, NO_VOLUME, Plan, Row};
use std::io::ErrorKind;

/// The lengths of the first two checkpoints.
const LEN_OF_FIRST: Step = Step::Len(Cdxj, 0);

const LEN_OF_SECOND: Step = Step::Len(Cdxj, 1);

/// A folder with two volumes, and the second checkpoint without the first.
const NO_FIRST: Plan = Plan {
    names: ["vol-000001.cdxj", "vol-000001.warc", "vol-000000.warc"],
    ..NO_VOLUME
};

/// A folder with a volume, and a checkpoint that is of none.
const OF_NONE: Plan = Plan {
    names: ["vol-000000.warc", "vol-000001.cdxj", ""],
    ..NO_VOLUME
};

/// What looks for its files, from call 5 on.
const LOOKED: &str =
    "open to read vol-000000.cdxj;may write vol-000001.warc;may write vol-000001.cdxj;";

/// What makes the one that is missing: calls 8 to 12.
const FILLED: &str =
    "open to read vol-000001.cdxj;open to read vol-000000.cdxj;create vol-000000.cdxj;sync folder;sync around;";

/// What syncs the last file of each kind.
const LASTS_SYNCED: &str =
    "look for folder;open to read vol-000001.warc;length of vol-000001.warc;sync vol-000001.warc;look for vol-000001.warc;look for folder;open to read vol-000001.cdxj;length of vol-000001.cdxj;sync vol-000001.cdxj;look for vol-000001.cdxj;";

/// A checkpoint that is missing below another one is made where all else is well, and who only reads does without.
static MISSING: [Row; 7] = [
    (
        Plan {
            from: 5,
            ..NO_FIRST
        },
        Lock::Alone,
        &[FILES, LEN_OF_FIRST],
        &[
            LOOKED,
            FILLED,
            LASTS_SYNCED,
            "look for folder;look for folder;open to read vol-000000.cdxj;length of vol-000000.cdxj;",
            "0",
        ],
    ),
    (
        Plan {
            from: 5,
            fails: [(7, ErrorKind::PermissionDenied), NEVER],
            ..NO_FIRST
        },
        Lock::Alone,
        &[FILES, FILES],
        &[LOOKED, "2"],
    ),
    (
        Plan {
            from: 10,
            fails: [(10, ErrorKind::StorageFull), NEVER],
            ..NO_FIRST
        },
        Lock::Alone,
        &[FILES, FILES],
        &["create vol-000000.cdxj;", "2"],
    ),
    (
        Plan {
            from: 11,
            fails: [(11, ErrorKind::Other), NEVER],
            ..NO_FIRST
        },
        Lock::Alone,
        &[FILES, FILES],
        &["sync folder;", "2"],
    ),
    // Where its name is taken, though it isn't there, that is a link.
    (
        Plan {
            from: usize::MAX,
            tells: true,
            fails: [(10, ErrorKind::AlreadyExists), NEVER],
            ..NO_FIRST
        },
        Lock::Alone,
        &[FILES],
        &["archive: count files: the link leads nowhere;", "1"],
    ),
    // One of no volume is no reason to make files.
    (
        Plan { from: 5, ..OF_NONE },
        Lock::Alone,
        &[FILES, FILES],
        &["may write vol-000000.warc;may write vol-000001.cdxj;", "2"],
    ),
    (
        Plan {
            from: 3,
            ..NO_FIRST
        },
        Lock::Shared,
        &[FILES, LEN_OF_SECOND],
        &[
            "open to read vol-000001.warc;open to read vol-000000.cdxj;look for folder;",
            "1",
        ],
    ),
];

#[test]
fn makes_checkpoints_that_are_missing(rt: HostRuntime) {
    check_rows(&rt, rt.alloc(), &MISSING);
}
