//! What is asked of open files, and how others are noticed.
use crate::checked::check_rows;
use disk_model::Kind::Warc;
use disk_steps::Step;
use folder_model::Lock;
use recorded_folders::{
    CREATE, CUT_0, FILES, LEN_0, MOVES_AT_4, NEVER, ONE_WRITE, Plan, READ, READ_0, REOPENED, Row,
    SYNC_0, SYNC_2, TWO_VOLUMES, WRITE_0, WRITE_2,
};
use std::io::ErrorKind;

const READ_1: Step = Step::Read(Warc, 1, 1, b"\0\0");

const WRITE_1: Step = Step::Write(Warc, 1, 0, b"abc");

const CUT_1: Step = Step::Cut(Warc, 1, 1);

const SYNC_1: Step = Step::Sync(Warc, 1);

/// What opens a folder of two volumes and counts them: calls 0 to 13.
const OPENED: &str =
    "lock archive;may write archive;list names;open to read vol-000000.warc;open to read vol-000001.warc;may write vol-000001.warc;sync folder;sync around;look for folder;open to read vol-000001.warc;length of vol-000001.warc;sync vol-000001.warc;look for vol-000001.warc;look for folder;";

/// What makes a third volume.
const THIRD_MADE: &str =
    "look for folder;create vol-000002.warc;sync vol-000002.warc;sync folder;sync around;look for vol-000002.warc;";

/// What cuts the second of two volumes of one byte once more, in which nothing was written, and syncs it.
const CUT_AGAIN: &str =
    "look for folder;open to write vol-000001.warc;length of vol-000001.warc;look for vol-000001.warc;write 0 at 0 of vol-000001.warc;cut to 1 vol-000001.warc;sync vol-000001.warc;";

/// Two volumes of one byte.
const ONE_BYTE: Plan = Plan {
    len: 1,
    ..TWO_VOLUMES
};

/// Two volumes of which two bytes are read or written at once.
const TWO_AT_ONCE: Plan = Plan {
    most: 2,
    ..TWO_VOLUMES
};

/// Two volumes whose paths lead to others from call 19 on.
const MOVES_AT_19: Plan = Plan {
    moved_from: 19,
    ..TWO_VOLUMES
};

/// What is asked of the files of two volumes.
static OPEN: [Row; 13] = [
    // Two files stay open with their lengths.
    (
        TWO_VOLUMES,
        Lock::Alone,
        &[
            FILES, WRITE_1, SYNC_1, SYNC_1, READ_0, LEN_0, READ_1, CUT_1, READ_1,
        ],
        &[
            OPENED,
            "look for folder;open to write vol-000001.warc;length of vol-000001.warc;look for vol-000001.warc;write 3 at 0 of vol-000001.warc;",
            "sync vol-000001.warc;look for vol-000001.warc;sync vol-000001.warc;look for vol-000001.warc;",
            READ,
            "read 2 at 1 of vol-000001.warc;length of vol-000001.warc;cut to 1 vol-000001.warc;",
            "1",
        ],
    ),
    // A file that is there where a file is made is another's, and nothing more is made or synced.
    (
        Plan {
            from: 14,
            fails: [(15, ErrorKind::AlreadyExists), NEVER],
            ..TWO_VOLUMES
        },
        Lock::Alone,
        &[FILES, CREATE, FILES, CREATE, SYNC_0, READ_0],
        &[
            "look for folder;create vol-000002.warc;list names;",
            READ,
            "4",
        ],
    ),
    // Where the folder's sync failed behind a file that was made, no other is made, so that a crash leaves no gap.
    (
        Plan {
            from: 17,
            fails: [(17, ErrorKind::Other), NEVER],
            ..TWO_VOLUMES
        },
        Lock::Alone,
        &[FILES, CREATE, CREATE],
        &["sync folder;", "2"],
    ),
    // Where none was made, as on a full disk, it is tried again.
    (
        Plan {
            from: 15,
            fails: [(15, ErrorKind::StorageFull), NEVER],
            ..TWO_VOLUMES
        },
        Lock::Alone,
        &[FILES, CREATE, CREATE],
        &["create vol-000002.warc;list names;", THIRD_MADE, "1"],
    ),
    // What a sync that failed was to write is written anew before the next one, and what a write that failed may have left behind it
    // is cut off.
    (
        Plan {
            from: 22,
            fails: [(22, ErrorKind::StorageFull), NEVER],
            ..TWO_VOLUMES
        },
        Lock::Alone,
        &[FILES, CREATE, WRITE_2, SYNC_2, SYNC_2],
        &[
            "sync vol-000002.warc;look for folder;open to write vol-000002.warc;length of vol-000002.warc;look for vol-000002.warc;",
            "read 3 at 0 of vol-000002.warc;write 3 at 0 of vol-000002.warc;",
            "cut to 3 vol-000002.warc;sync vol-000002.warc;look for vol-000002.warc;1",
        ],
    ),
    // A cut behind which a sync failed is done again, however often that fails,
    (
        Plan {
            from: 18,
            fails: [(19, ErrorKind::StorageFull), (26, ErrorKind::StorageFull)],
            ..ONE_BYTE
        },
        Lock::Alone,
        &[FILES, CUT_1, SYNC_1, SYNC_1, SYNC_1, FILES],
        &[
            "cut to 1 vol-000001.warc;sync vol-000001.warc;",
            CUT_AGAIN,
            CUT_AGAIN,
            "look for vol-000001.warc;look for folder;2",
        ],
    ),
    // and not one that failed itself.
    (
        Plan {
            from: 18,
            fails: [(18, ErrorKind::Other), (23, ErrorKind::StorageFull)],
            ..ONE_BYTE
        },
        Lock::Alone,
        &[FILES, CUT_1, SYNC_1, SYNC_1, FILES],
        &[
            "cut to 1 vol-000001.warc;look for folder;open to read vol-000001.warc;length of vol-000001.warc;look for vol-000001.warc;sync vol-000001.warc;",
            "4",
        ],
    ),
    // A folder that is gone holds no files, which isn't said of one that this process has.
    (
        Plan {
            from: 19,
            fails: [(19, ErrorKind::NotFound), (21, ErrorKind::NotFound)],
            ..TWO_VOLUMES
        },
        Lock::Alone,
        &[FILES, WRITE_0, SYNC_0, FILES, FILES],
        &[
            "look for vol-000000.warc;look for folder;look for folder;look for folder;",
            "2",
        ],
    ),
    // No open file goes stale: a file that was made is the one that is written, and what is written to another goes there. What
    // was written is read also behind the end that the file had when it was opened to be read.
    (
        Plan {
            from: 14,
            ..ONE_BYTE
        },
        Lock::Alone,
        &[
            FILES, LEN_0, WRITE_0, READ_0, CREATE, WRITE_2, SYNC_2, WRITE_1,
        ],
        &[
            "look for folder;open to read vol-000000.warc;length of vol-000000.warc;",
            REOPENED,
            ONE_WRITE,
            "read 2 at 1 of vol-000000.warc;",
            THIRD_MADE,
            "length of vol-000002.warc;write 3 at 0 of vol-000002.warc;sync vol-000002.warc;look for vol-000002.warc;",
            "look for folder;open to write vol-000001.warc;length of vol-000001.warc;write 3 at 0 of vol-000001.warc;",
            "0",
        ],
    ),
    // Short reads and writes go on, and so do interrupted ones.
    (
        Plan {
            from: 17,
            fails: [(17, ErrorKind::Interrupted), (20, ErrorKind::Interrupted)],
            ..TWO_AT_ONCE
        },
        Lock::Alone,
        &[FILES, WRITE_0, READ_0],
        &[
            "write 2 at 0 of vol-000000.warc;write 2 at 0 of vol-000000.warc;write 1 at 2 of vol-000000.warc;read 2 at 1 of vol-000000.warc;read 2 at 1 of vol-000000.warc;",
            "0",
        ],
    ),
    // Nothing that is done in a folder that was moved or replaced is acknowledged, and nothing is done in the other. Paths lead
    // to others from the twentieth call on,
    (
        Plan {
            from: 14,
            ..MOVES_AT_19
        },
        Lock::Alone,
        &[FILES, WRITE_0, SYNC_0, SYNC_0, FILES, CREATE, READ_0],
        &[
            REOPENED,
            ONE_WRITE,
            "sync vol-000000.warc;look for vol-000000.warc;look for folder;look for folder;look for folder;look for folder;look for folder;",
            "5",
        ],
    ),
    // also behind a file that was made,
    (
        Plan {
            from: 14,
            ..MOVES_AT_19
        },
        Lock::Alone,
        &[FILES, CREATE, FILES],
        &[THIRD_MADE, "look for folder;look for folder;", "2"],
    ),
    // and from the fifth call on.
    (
        Plan {
            from: 7,
            ..MOVES_AT_4
        },
        Lock::Alone,
        &[FILES, FILES],
        &["sync around;look for folder;", "2"],
    ),
];

/// Where a file that is open isn't as long as it was left, others changed it. From then on nothing is made, written or synced in the
/// folder, and what is there is read.
static CHANGED: [Row; 3] = [
    // It is shorter: this folder's files stay as long as they were.
    (
        Plan {
            from: 17,
            ..ONE_BYTE
        },
        Lock::Alone,
        &[
            FILES, WRITE_0, WRITE_0, WRITE_1, CUT_1, SYNC_1, FILES, CREATE, LEN_0,
        ],
        &[
            ONE_WRITE,
            "length of vol-000000.warc;look for folder;open to read vol-000000.warc;length of vol-000000.warc;",
            "6",
        ],
    ),
    // It is longer,
    (
        Plan {
            from: 17,
            ..TWO_VOLUMES
        },
        Lock::Alone,
        &[FILES, CUT_0, WRITE_0, SYNC_0],
        &["cut to 1 vol-000000.warc;length of vol-000000.warc;", "2"],
    ),
    // and isn't cut once more.
    (
        Plan {
            from: 17,
            ..TWO_VOLUMES
        },
        Lock::Alone,
        &[FILES, CUT_0, CUT_0, SYNC_0],
        &["cut to 1 vol-000000.warc;length of vol-000000.warc;", "2"],
    ),
];

#[test]
fn keeps_files_open_and_notices_others(rt: HostRuntime) {
    check_rows(&rt, rt.alloc(), &OPEN);
    check_rows(&rt, rt.alloc(), &CHANGED);
}
