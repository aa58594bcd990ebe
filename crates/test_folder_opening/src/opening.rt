//! In which order the folder is opened.
use crate::checked::check_rows;
use folder_model::Lock;
use recorded_folders::{
    CREATE, CUT_0, FILES, MOVES_AT_4, NEVER, NO_FOLDER, NO_VOLUME, NOT_FOUND, Plan, READ, READ_0,
    Row, SYNC_0, SYNC_2, TWO_VOLUMES, WRITE_0, WRITE_2,
};
use std::io::ErrorKind;

/// What opens two volumes for who reads, and counts them.
const SHARED: &str =
    "share archive;list names;open to read vol-000000.warc;open to read vol-000001.warc;look for folder;";

/// A link that leads nowhere in the folder's place.
const LINK: Plan = Plan {
    linked: true,
    ..TWO_VOLUMES
};

/// A folder with one volume.
const ONE_VOLUME: Plan = Plan {
    names: ["vol-000000.warc", "", ""],
    ..NO_VOLUME
};

/// A folder with a file of the other kind.
const ONE_CDXJ: Plan = Plan {
    names: ["", "vol-000000.cdxj", ""],
    ..NO_VOLUME
};

/// A folder without its second volume.
const A_GAP: Plan = Plan {
    names: ["vol-000000.warc", "vol-000002.warc", ""],
    ..NO_VOLUME
};

/// What opens the folder, and who is refused: who can't write is so at once.
static OPENING: [Row; 15] = [
    (
        Plan {
            fails: [(0, ErrorKind::WouldBlock), NEVER],
            ..TWO_VOLUMES
        },
        Lock::Alone,
        &[FILES, FILES],
        &["lock archive;", "2"],
    ),
    (
        Plan {
            fails: [(0, ErrorKind::Unsupported), NEVER],
            ..TWO_VOLUMES
        },
        Lock::Alone,
        &[FILES, FILES],
        &["lock archive;", "2"],
    ),
    (
        Plan {
            fails: [(0, ErrorKind::PermissionDenied), NEVER],
            ..TWO_VOLUMES
        },
        Lock::Alone,
        &[FILES, FILES],
        &["lock archive;", "2"],
    ),
    (
        Plan {
            fails: [(0, ErrorKind::NotADirectory), NEVER],
            ..TWO_VOLUMES
        },
        Lock::Alone,
        &[FILES, FILES],
        &["lock archive;", "2"],
    ),
    (
        Plan {
            fails: [(1, ErrorKind::ReadOnlyFilesystem), NEVER],
            ..TWO_VOLUMES
        },
        Lock::Alone,
        &[FILES, FILES],
        &["lock archive;may write archive;", "2"],
    ),
    (
        Plan {
            from: 2,
            fails: [(5, ErrorKind::PermissionDenied), NEVER],
            ..TWO_VOLUMES
        },
        Lock::Alone,
        &[FILES, FILES],
        &[
            "list names;open to read vol-000000.warc;open to read vol-000001.warc;may write vol-000001.warc;",
            "2",
        ],
    ),
    (
        Plan {
            fails: [NO_FOLDER, (2, ErrorKind::PermissionDenied)],
            ..TWO_VOLUMES
        },
        Lock::Alone,
        &[FILES, FILES],
        &[NOT_FOUND, "2"],
    ),
    // A file system that can't sync a folder loses files that were acknowledged.
    (
        Plan {
            from: 6,
            fails: [(6, ErrorKind::InvalidInput), NEVER],
            ..TWO_VOLUMES
        },
        Lock::Alone,
        &[FILES, FILES],
        &["sync folder;", "2"],
    ),
    (
        Plan {
            from: 11,
            fails: [(11, ErrorKind::Other), NEVER],
            ..TWO_VOLUMES
        },
        Lock::Alone,
        &[FILES, FILES],
        &["sync vol-000001.warc;", "2"],
    ),
    // A link that leads nowhere is no archive without files.
    (
        Plan {
            fails: [NO_FOLDER, NEVER],
            ..LINK
        },
        Lock::Alone,
        &[FILES],
        &["lock archive;is a link archive;", "1"],
    ),
    // Files that another process made are never touched: no call comes behind the count that has one. Where the list can't be
    // read it is read again.
    (
        Plan {
            from: 3,
            fails: [NO_FOLDER, NEVER],
            ..ONE_VOLUME
        },
        Lock::Alone,
        &[FILES, CREATE, FILES, CREATE, READ_0, WRITE_0, CUT_0, SYNC_0],
        &[
            "make archive;lock archive;may write archive;list names;open to read vol-000000.warc;",
            "7",
        ],
    ),
    (
        Plan {
            from: 6,
            fails: [NO_FOLDER, (6, ErrorKind::Other)],
            ..ONE_VOLUME
        },
        Lock::Alone,
        &[FILES, CREATE, FILES, CREATE, READ_0, WRITE_0, CUT_0, SYNC_0],
        &[
            "list names;",
            "make archive;lock archive;may write archive;list names;open to read vol-000000.warc;",
            "6",
        ],
    ),
    // The same where the files are of the other kind.
    (
        Plan {
            from: 6,
            fails: [NO_FOLDER, NEVER],
            ..ONE_CDXJ
        },
        Lock::Alone,
        &[FILES, CREATE, FILES, CREATE, READ_0, WRITE_0, CUT_0, SYNC_0],
        &["list names;open to read vol-000000.cdxj;", "7"],
    ),
    // A number that is missing makes no smaller count.
    (
        Plan { from: 2, ..A_GAP },
        Lock::Alone,
        &[FILES, CREATE],
        &[
            "list names;open to read vol-000000.warc;open to read vol-000001.warc;",
            "2",
        ],
    ),
    // No file is touched that wasn't counted.
    (
        Plan {
            from: 14,
            ..TWO_VOLUMES
        },
        Lock::Alone,
        &[FILES, WRITE_2, SYNC_2],
        &["2"],
    ),
];

/// Who reads shares the folder, and writes and syncs nothing.
static SHARING: [Row; 6] = [
    (
        TWO_VOLUMES,
        Lock::Shared,
        &[FILES, READ_0, SYNC_0, WRITE_0, CUT_0, CREATE],
        &[SHARED, READ, "3"],
    ),
    (
        Plan {
            fails: [(0, ErrorKind::WouldBlock), NEVER],
            ..TWO_VOLUMES
        },
        Lock::Shared,
        &[FILES, FILES, READ_0, SYNC_0, CREATE],
        &["share archive;", "5"],
    ),
    (
        Plan { from: 2, ..A_GAP },
        Lock::Shared,
        &[FILES, READ_0],
        &[
            "open to read vol-000000.warc;open to read vol-000001.warc;",
            "2",
        ],
    ),
    // No folder is no file, and a link that leads nowhere isn't no folder.
    (
        Plan {
            fails: [NO_FOLDER, NEVER],
            ..NO_VOLUME
        },
        Lock::Shared,
        &[FILES, READ_0, SYNC_0, CREATE],
        &["share archive;is a link archive;", "3"],
    ),
    (
        Plan {
            fails: [NO_FOLDER, NEVER],
            ..LINK
        },
        Lock::Shared,
        &[FILES],
        &["share archive;is a link archive;", "1"],
    ),
    // What was moved or replaced isn't read.
    (
        Plan {
            from: 5,
            ..MOVES_AT_4
        },
        Lock::Shared,
        &[FILES, READ_0, SYNC_0],
        &["look for folder;look for folder;", "3"],
    ),
];

#[test]
fn opens_the_folder_in_this_order(rt: HostRuntime) {
    check_rows(&rt, rt.alloc(), &OPENING);
    check_rows(&rt, rt.alloc(), &SHARING);
}
