//! How the cause of each fault is told.
use crate::checked::check_rows;
use folder_model::Lock;
use recorded_folders::{
    CREATE, CUT_0, FILES, LEN_0, NEVER, Plan, READ_0, Row, SYNC_0, TWO_VOLUMES, WRITE_0,
};
use std::io::ErrorKind;

/// A folder of two volumes, of whose calls none is written down, and the causes of faults are.
const TELLING: Plan = Plan {
    from: usize::MAX,
    tells: true,
    ..TWO_VOLUMES
};

/// A folder with the file of the greatest number.
const GREATEST_NUMBER: Plan = Plan {
    names: ["vol-4294967295.warc", "", ""],
    ..TELLING
};

/// A folder with the file before that alone.
const LAST_NUMBER: Plan = Plan {
    names: ["vol-4294967294.warc", "", ""],
    ..TELLING
};

/// The cause of each fault is told.
static TOLD: [Row; 15] = [
    (
        Plan {
            fails: [(0, ErrorKind::WouldBlock), NEVER],
            ..TELLING
        },
        Lock::Alone,
        &[FILES],
        &[
            "archive: count files: another process has the archive;",
            "1",
        ],
    ),
    (
        Plan {
            fails: [(2, ErrorKind::StorageFull), NEVER],
            ..TELLING
        },
        Lock::Shared,
        &[FILES],
        &["archive: count files: no storage space;", "1"],
    ),
    (
        Plan {
            fails: [(15, ErrorKind::StorageFull), NEVER],
            ..TELLING
        },
        Lock::Alone,
        &[FILES, CREATE],
        &["archive: make a file: no storage space;", "1"],
    ),
    (
        Plan {
            fails: [(15, ErrorKind::AlreadyExists), NEVER],
            ..TELLING
        },
        Lock::Alone,
        &[FILES, CREATE, FILES],
        &[
            "archive: make a file: files of another process are in it, of which this one doesn't know;",
            "archive: count files: an earlier call failed, and what it left on the disk isn't known;",
            "2",
        ],
    ),
    // A file that was to be made and has bytes is another process's.
    (
        Plan {
            theirs: 3,
            fails: [(16, ErrorKind::StorageFull), NEVER],
            ..TELLING
        },
        Lock::Alone,
        &[FILES, CREATE, FILES],
        &[
            "archive: make a file: no storage space;",
            "archive: count files: files of another process are in it, of which this one doesn't know;",
            "2",
        ],
    ),
    (
        Plan {
            fails: [(16, ErrorKind::StorageFull), NEVER],
            ..TELLING
        },
        Lock::Alone,
        &[FILES, LEN_0],
        &[
            "archive/vol-000000.warc: ask for its length: no storage space;",
            "1",
        ],
    ),
    (
        Plan {
            fails: [(17, ErrorKind::StorageFull), NEVER],
            ..TELLING
        },
        Lock::Alone,
        &[FILES, READ_0],
        &["archive/vol-000000.warc: read: no storage space;", "1"],
    ),
    (
        Plan {
            fails: [(17, ErrorKind::StorageFull), NEVER],
            ..TELLING
        },
        Lock::Alone,
        &[FILES, WRITE_0],
        &["archive/vol-000000.warc: write: no storage space;", "1"],
    ),
    (
        Plan {
            fails: [(17, ErrorKind::StorageFull), NEVER],
            ..TELLING
        },
        Lock::Alone,
        &[FILES, CUT_0],
        &["archive/vol-000000.warc: cut: no storage space;", "1"],
    ),
    (
        Plan {
            fails: [(17, ErrorKind::StorageFull), NEVER],
            ..TELLING
        },
        Lock::Alone,
        &[FILES, SYNC_0],
        &["archive/vol-000000.warc: sync: no storage space;", "1"],
    ),
    // A file that is as long as it was before it was cut was changed by others.
    (
        TELLING,
        Lock::Alone,
        &[FILES, CUT_0, WRITE_0, WRITE_0],
        &[
            "archive/vol-000000.warc: write: another process changed it while it was in use;",
            "archive/vol-000000.warc: write: an earlier call failed, and what it left on the disk isn't known;",
            "2",
        ],
    ),
    (
        GREATEST_NUMBER,
        Lock::Shared,
        &[FILES],
        &[
            "archive: count files: no number is left behind the last of its files;",
            "1",
        ],
    ),
    // A file of the greatest number but one is the last that may be there.
    (
        LAST_NUMBER,
        Lock::Shared,
        &[FILES],
        &[
            "archive: count files: a number among its files is missing;",
            "1",
        ],
    ),
    (
        TELLING,
        Lock::Shared,
        &[FILES, CREATE, WRITE_0],
        &[
            "archive: make a file: it was opened to be read;",
            "archive/vol-000000.warc: write: it was opened to be read;",
            "2",
        ],
    ),
    (TELLING, Lock::Alone, &[FILES, WRITE_0, SYNC_0], &["0"]),
];

#[test]
fn the_cause_of_each_fault_is_told(rt: HostRuntime) {
    check_rows(&rt, rt.alloc(), &TOLD);
}
