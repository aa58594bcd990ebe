//! In which order a file is made, and what a call that fails leaves.
use crate::checked::{check, check_rows};
use disk_model::Kind::Cdxj;
use disk_steps::Step;
use folder_model::Lock;
use recorded_folders::{
    CREATE, FILES, NEVER, NO_FOLDER, NO_VOLUME, NOT_FOUND, ONE_WRITE, Plan, REOPENED, Row, SYNC_0,
    TWO_VOLUMES, WRITE_0, played, whole,
};
use std::alloc::Global;
use std::io::ErrorKind;
use std::process::Abort;

/// How many checkpoints there are.
const CHECKPOINTS: Step = Step::Files(Cdxj);

const CREATE_CHECKPOINT: Step = Step::Create(Cdxj);

/// What makes and opens a folder: calls 3 to 8.
const FOLDER_MADE: &str =
    "make archive;lock archive;may write archive;list names;sync folder;sync around;";

/// What makes a file in a folder that has none: calls 6 to 11 where the folder was there.
const MADE: &str =
    "look for folder;create vol-000000.warc;sync vol-000000.warc;sync folder;sync around;look for vol-000000.warc;";

/// What asks whether it is as long as it was left: call 12.
const LENGTH: &str = "length of vol-000000.warc;";

/// What writes it: calls 13 to 15, and no fault but the one.
const STORED: &str =
    "write 3 at 0 of vol-000000.warc;sync vol-000000.warc;look for vol-000000.warc;1";

/// What looks for a file that was to be made, opens it and syncs it: eight calls.
const FOUND: &str =
    "list names;look for folder;open to write vol-000000.warc;length of vol-000000.warc;sync vol-000000.warc;sync folder;sync around;look for folder;";

/// What finds one that has bytes, and leaves it alone.
const LEFT_ALONE: &str =
    "list names;look for folder;open to write vol-000002.warc;length of vol-000002.warc;";

/// A file is durable before it is told.
static DURABLE: [Row; 1] = [(
    Plan {
        fails: [NO_FOLDER, NEVER],
        ..NO_VOLUME
    },
    Lock::Alone,
    &[FILES, CREATE, WRITE_0, SYNC_0, CREATE],
    &[
        NOT_FOUND,
        FOLDER_MADE,
        MADE,
        LENGTH,
        "write 3 at 0 of vol-000000.warc;sync vol-000000.warc;look for vol-000000.warc;",
        "look for folder;create vol-000001.warc;sync vol-000001.warc;sync folder;sync around;look for vol-000001.warc;",
        "0",
    ],
)];

/// A call that fails once while a file is made, and in parts all that is done behind it.
type Failing = (usize, &'static [&'static str]);

/// Each such call. Where the folder couldn't be opened nothing more is asked of it, and where the file that was made isn't synced yet, or its
/// name may not be on the disk, nothing is written to it or synced.
static FAILING: [Failing; 16] = [
    (0, &["lock archive;4"]),
    (1, &["may write archive;4"]),
    (2, &["list names;4"]),
    (3, &["sync folder;4"]),
    (4, &["sync around;4"]),
    (5, &["look for folder;", MADE, LENGTH, STORED]),
    (6, &["look for folder;3"]),
    (7, &["create vol-000000.warc;list names;3"]),
    (8, &["sync vol-000000.warc;list names;3"]),
    (9, &["sync folder;3"]),
    (10, &["sync around;list names;3"]),
    (
        11,
        &[
            "look for vol-000000.warc;",
            REOPENED,
            "look for vol-000000.warc;",
            STORED,
        ],
    ),
    (
        12,
        &[
            LENGTH,
            "look for folder;open to read vol-000000.warc;length of vol-000000.warc;",
            "look for vol-000000.warc;sync vol-000000.warc;look for vol-000000.warc;1",
        ],
    ),
    (
        13,
        &[
            ONE_WRITE,
            "look for folder;open to read vol-000000.warc;length of vol-000000.warc;",
            "look for vol-000000.warc;sync vol-000000.warc;look for vol-000000.warc;1",
        ],
    ),
    (14, &["sync vol-000000.warc;1"]),
    (15, &["look for vol-000000.warc;1"]),
];

/// A file that was to be made and may be there is looked for by the next count, and synced before anything is written to it.
static SOUGHT: [Row; 5] = [
    // Its sync failed.
    (
        Plan {
            from: 8,
            fails: [(8, ErrorKind::StorageFull), NEVER],
            ..NO_VOLUME
        },
        Lock::Alone,
        &[FILES, CREATE, FILES, WRITE_0, SYNC_0],
        &[
            "sync vol-000000.warc;list names;",
            FOUND,
            REOPENED,
            "look for vol-000000.warc;",
            STORED,
        ],
    ),
    // That of the folder around it did.
    (
        Plan {
            from: 10,
            fails: [(10, ErrorKind::Other), NEVER],
            ..NO_VOLUME
        },
        Lock::Alone,
        &[FILES, CREATE, FILES, WRITE_0, SYNC_0],
        &[
            "sync around;list names;",
            FOUND,
            REOPENED,
            "look for vol-000000.warc;",
            STORED,
        ],
    ),
    // Neither it nor the folder's list could be opened: none is made before the list tells that it isn't there.
    (
        Plan {
            from: 7,
            fails: [(7, ErrorKind::Other), (8, ErrorKind::Other)],
            ..NO_VOLUME
        },
        Lock::Alone,
        &[FILES, CREATE, CREATE, FILES, CREATE],
        &[
            "create vol-000000.warc;list names;list names;look for folder;",
            MADE,
            "2",
        ],
    ),
    // A sync of the folder failed behind it: it isn't looked for any more, and files of the other kind are made.
    (
        Plan {
            from: 8,
            fails: [(8, ErrorKind::Other), (15, ErrorKind::Other)],
            ..NO_VOLUME
        },
        Lock::Alone,
        &[
            FILES,
            CREATE,
            FILES,
            FILES,
            CREATE,
            CHECKPOINTS,
            CREATE_CHECKPOINT,
        ],
        &[
            "sync vol-000000.warc;list names;list names;look for folder;open to write vol-000000.warc;length of vol-000000.warc;sync vol-000000.warc;sync folder;",
            "look for folder;look for folder;create vol-000000.cdxj;sync vol-000000.cdxj;sync folder;sync around;look for vol-000000.cdxj;",
            "4",
        ],
    ),
    // One that has bytes is another process's. It isn't synced, and is looked for again.
    (
        Plan {
            theirs: 3,
            from: 16,
            fails: [(16, ErrorKind::StorageFull), NEVER],
            ..TWO_VOLUMES
        },
        Lock::Alone,
        &[FILES, CREATE, FILES, FILES],
        &[
            "sync vol-000002.warc;list names;",
            LEFT_ALONE,
            LEFT_ALONE,
            "3",
        ],
    ),
];

/// Asserts what is done behind each call that fails.
fn check_failing<R: Abort>(rt: &R, alloc: Global, rows: &[Failing]) {
    for (number, want) in rows {
        let plan = Plan {
            from: *number,
            fails: [(*number, ErrorKind::Other), NEVER],
            ..NO_VOLUME
        };
        let calls = played(alloc, plan, Lock::Alone, &[FILES, CREATE, WRITE_0, SYNC_0]);
        check(rt, calls, whole(want).as_str());
    }
}

#[test]
fn makes_files_in_this_order(rt: HostRuntime) {
    check_rows(&rt, rt.alloc(), &DURABLE);
    check_failing(&rt, rt.alloc(), &FAILING);
    check_rows(&rt, rt.alloc(), &SOUGHT);
}
