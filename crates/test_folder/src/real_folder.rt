//! The folder `archive` over the system's files.
//! No case can say it: a case has a disk in memory, and no folder is shared there.
use crate::checked::check;
use crate::opening::{opened, status_of};
use call_log::{Written, then};
use command::Status;
use disk_model::Kind::{Cdxj, Warc};
use disk_steps::taken;
use folder_model::Lock;
use outside::{Failed, MemorySink};
use real_outside::{FileSystem, RealDisk, SystemFolders};
use std::fs;
use std::process::Abort;
use system_paths::c_path_of;

/// One call of a process's disk, or what somebody does to the folder.
#[derive(Clone, Copy)]
enum Step {
    Calls(disk_steps::Step),
    /// A folder is made in the archive's whose name isn't UTF-8.
    MakesOddName,
    /// A file is removed by hand.
    Removes(&'static str),
    /// A file is written by hand.
    Puts(&'static str, &'static str),
    /// A file holds this text.
    Holds(&'static str, &'static str),
    /// The folder is removed with all that is in it.
    RemovesAll,
}

use Step::{Calls, Holds, MakesOddName, Puts, Removes, RemovesAll};
use disk_steps::Step::{Create, Cut, Faults, Files, Len, Read, Sync, Write};

/// What is answered where something was done, or wasn't.
fn done_if(done: bool) -> Result<usize, Failed> {
    if done { Ok(0) } else { Err(Failed) }
}

/// Takes one step.
fn take(rt: HostRuntime, disk: &mut RealDisk<SystemFolders>, step: Step) -> Result<usize, Failed> {
    match step {
        Calls(step) => taken(disk, step),
        MakesOddName => done_if(makes_a_name_that_is_no_text()),
        Removes(path) => done_if(fs::remove_file(&rt, path).is_ok()),
        Puts(path, text) => done_if(fs::write(&rt, path, text).is_ok()),
        Holds(path, text) => done_if(holds(rt, path, text)),
        RemovesAll => done_if(fs::remove_dir_all(&rt, "archive").is_ok()),
    }
}

/// Whether a file holds just this text.
fn holds(rt: HostRuntime, path: &str, want: &str) -> bool {
    match fs::read_to_string(&rt, path) {
        Ok(text) => text.as_str() == want,
        Err(_) => false,
    }
}

/// Makes a folder in the archive's whose name isn't UTF-8, and answers whether that succeeded.
fn makes_a_name_that_is_no_text() -> bool {
    match c_path_of(b"archive/\xff") {
        Ok(path) => unsafe { libc::mkdir(&path, 0o700) == 0 },
        Err(_) => false,
    }
}

/// Steps of one process, and what they answer: a number, or 0 where a step tells none.
type Scene = (&'static [Step], &'static str);

/// Asserts that the steps of a scene answer so.
fn plays<R: Abort>(abort: &R, rt: HostRuntime, disk: &mut RealDisk<SystemFolders>, scene: &Scene) {
    let (steps, want) = scene;
    let mut told = Written::new();
    for step in *steps {
        told = then(told, take(rt, disk, *step));
    }
    check(abort, told, want);
}

const FIRST_PATH: &str = "archive/vol-000000.warc";

const SECOND_PATH: &str = "archive/vol-000001.warc";

const THIRD_PATH: &str = "archive/vol-000002.warc";

/// What an empty folder takes.
static FIRST: Scene = (
    &[
        Calls(Files(Warc)),
        Calls(Create(Warc)),
        Calls(Create(Cdxj)),
        Calls(Create(Warc)),
        Calls(Write(Warc, 0, 0, b"hello world")),
        Calls(Write(Warc, 1, 0, b"second")),
        Calls(Write(Warc, 0, 6, b"folder")),
        Calls(Len(Warc, 0)),
        Calls(Read(Warc, 0, 4, b"o fol")),
    ],
    "0;0;0;1;0;0;0;12;0;",
);

/// A cut, and then what isn't there.
static CUT: Scene = (
    &[
        Calls(Cut(Warc, 0, 5)),
        Calls(Sync(Warc, 0)),
        Calls(Faults),
        Calls(Read(Warc, 0, 1, b"ello?")),
        Calls(Write(Warc, 0, 6, b"x")),
        Calls(Cut(Warc, 0, 6)),
        Calls(Len(Cdxj, 1)),
        Calls(Sync(Warc, 2)),
        Calls(Faults),
    ],
    "0;0;0;failed;failed;failed;failed;failed;5;",
);

/// What a second process is answered, also one that reads.
static LOCKED: Scene = (&[Calls(Files(Warc)), Calls(Len(Warc, 1))], "failed;failed;");

/// What processes find that read at once.
static READERS: Scene = (
    &[
        Calls(Files(Warc)),
        Calls(Read(Warc, 0, 0, b"hello")),
        Calls(Sync(Warc, 0)),
        Calls(Write(Warc, 0, 0, b"x")),
        Calls(Create(Warc)),
    ],
    "2;0;0;failed;failed;",
);

/// What another run finds: beside a name that isn't UTF-8, where another file was put in the place of one, to which nothing is
/// written, where the last file was removed by hand, and where the whole folder was. A file that is open can be written then.
static LATER: Scene = (
    &[
        MakesOddName,
        Calls(Files(Warc)),
        Calls(Files(Cdxj)),
        Calls(Len(Warc, 1)),
        Calls(Create(Warc)),
        Calls(Sync(Warc, 0)),
        Holds(FIRST_PATH, "hello"),
        Removes(FIRST_PATH),
        Puts(FIRST_PATH, "other"),
        Calls(Sync(Warc, 0)),
        Calls(Write(Warc, 0, 0, b"x")),
        Calls(Cut(Warc, 0, 0)),
        Holds(FIRST_PATH, "other"),
        Removes(THIRD_PATH),
        Calls(Files(Warc)),
        Calls(Sync(Warc, 2)),
        RemovesAll,
        Calls(Sync(Warc, 0)),
        Calls(Files(Warc)),
        Calls(Create(Warc)),
        Calls(Len(Warc, 1)),
    ],
    "0;2;1;6;2;0;0;0;0;failed;failed;failed;0;0;3;failed;0;failed;failed;failed;failed;",
);

/// What who found no folder is answered.
static NONE: Scene = (&[Calls(Files(Warc))], "0;");

/// The same where another made it, and stores in it.
static TAKEN: Scene = (&[Calls(Create(Warc))], "failed;");

/// The same when that one has ended. Nothing of its files is touched.
static LATE: Scene = (
    &[
        Calls(Create(Warc)),
        Calls(Create(Warc)),
        Calls(Files(Warc)),
        Calls(Cut(Warc, 0, 0)),
        Calls(Faults),
        Holds(FIRST_PATH, "hello folder"),
    ],
    "failed;failed;failed;failed;5;0;",
);

/// What is answered where somebody wrote to a file that is open: nothing more is written, and what is there is left alone.
static CHANGED: Scene = (
    &[
        Calls(Files(Warc)),
        Calls(Write(Warc, 0, 0, b"hello")),
        Puts(FIRST_PATH, "hello, and more than that"),
        Calls(Write(Warc, 0, 5, b"!")),
        Calls(Cut(Warc, 0, 5)),
        Calls(Sync(Warc, 0)),
        Calls(Files(Warc)),
        Calls(Read(Warc, 1, 0, b"secon")),
        Holds(FIRST_PATH, "hello, and more than that"),
    ],
    "2;0;0;failed;failed;failed;failed;0;0;",
);

/// What is answered, each time of another process, where the second of two files is the one that was left, and where it isn't: what
/// is there then is left alone. The file keeps what the row before has left of it.
static LEFT: [Scene; 7] = [
    // It is the same behind a call that failed, and behind a file that was made.
    (
        &[
            Calls(Files(Warc)),
            Calls(Write(Warc, 1, 0, b"second")),
            Calls(Write(Warc, 1, 9, b"x")),
            Calls(Create(Cdxj)),
            Calls(Write(Warc, 1, 6, b"!")),
            Calls(Sync(Warc, 1)),
            Calls(Cut(Warc, 1, 6)),
            Calls(Sync(Warc, 1)),
            Holds(SECOND_PATH, "second"),
        ],
        "2;0;failed;1;0;0;0;0;0;",
    ),
    // Another one was put there before it was written for the first time,
    (
        &[
            Calls(Files(Warc)),
            Removes(SECOND_PATH),
            Puts(SECOND_PATH, "theirs"),
            Calls(Write(Warc, 1, 6, b"!")),
            Calls(Cut(Warc, 1, 5)),
            Calls(Create(Warc)),
            Holds(SECOND_PATH, "theirs"),
        ],
        "2;0;0;failed;failed;failed;0;",
    ),
    // also behind reads,
    (
        &[
            Calls(Files(Warc)),
            Calls(Read(Warc, 1, 0, b"their")),
            Calls(Read(Warc, 0, 0, b"hello")),
            Removes(SECOND_PATH),
            Puts(SECOND_PATH, "second"),
            Calls(Write(Warc, 1, 6, b"!")),
            Holds(SECOND_PATH, "second"),
        ],
        "2;0;0;0;0;failed;0;",
    ),
    // or it was made longer.
    (
        &[
            Calls(Files(Warc)),
            Puts(SECOND_PATH, "second, and later ones"),
            Calls(Write(Warc, 1, 6, b"!")),
            Holds(SECOND_PATH, "second, and later ones"),
        ],
        "2;0;failed;0;",
    ),
    // Another one was put there behind a write that failed,
    (
        &[
            Calls(Files(Warc)),
            Calls(Write(Warc, 1, 0, b"second")),
            Calls(Write(Warc, 1, 30, b"x")),
            Removes(SECOND_PATH),
            Puts(SECOND_PATH, "second, and later ones"),
            Calls(Write(Warc, 1, 22, b"!")),
            Holds(SECOND_PATH, "second, and later ones"),
        ],
        "2;0;failed;0;0;failed;0;",
    ),
    // behind a read that failed,
    (
        &[
            Calls(Files(Warc)),
            Calls(Write(Warc, 1, 0, b"second")),
            Calls(Read(Warc, 1, 20, b"12345")),
            Removes(SECOND_PATH),
            Puts(SECOND_PATH, "second, and later ones"),
            Calls(Write(Warc, 1, 22, b"!")),
            Holds(SECOND_PATH, "second, and later ones"),
        ],
        "2;0;failed;0;0;failed;0;",
    ),
    // and behind a file that was made.
    (
        &[
            Calls(Files(Warc)),
            Calls(Write(Warc, 1, 0, b"second")),
            Calls(Create(Cdxj)),
            Removes(SECOND_PATH),
            Puts(SECOND_PATH, "second, and later ones"),
            Calls(Write(Warc, 1, 22, b"!")),
            Holds(SECOND_PATH, "second, and later ones"),
        ],
        "2;0;2;0;0;failed;0;",
    ),
];

/// What is answered where a file was put there by hand.
static PUT: Scene = (
    &[
        Calls(Files(Warc)),
        Puts(THIRD_PATH, "theirs"),
        Calls(Create(Warc)),
        Calls(Files(Warc)),
        Calls(Cut(Warc, 2, 0)),
        Calls(Len(Warc, 2)),
        Holds(THIRD_PATH, "theirs"),
        RemovesAll,
    ],
    "2;0;failed;failed;failed;failed;0;0;",
);

/// A first file that is no volume.
static NO_VOLUME: Scene = (
    &[
        Calls(Create(Warc)),
        Calls(Write(Warc, 0, 0, b"WARC/2.0\r\n")),
    ],
    "0;0;",
);

/// A disk in the folder, of a process that has it so.
fn disk_as(rt: HostRuntime, lock: Lock) -> RealDisk<SystemFolders> {
    RealDisk::new(rt.folders(), rt.alloc(), lock)
}

/// Asserts that the steps of each scene answer so, where a process has the folder for each.
fn play_each<R: Abort>(abort: &R, rt: HostRuntime, scenes: &[Scene]) {
    for scene in scenes {
        plays(abort, rt, &mut disk_as(rt, Lock::Alone), scene);
    }
}

/// What one process after the other finds, and what one is answered whose folder is removed.
fn keeps_numbered_files<R: Abort>(abort: &R, rt: HostRuntime) {
    let mut disk = disk_as(rt, Lock::Alone);
    plays(abort, rt, &mut disk, &FIRST);
    plays(abort, rt, &mut disk, &CUT);
    plays(abort, rt, &mut disk_as(rt, Lock::Alone), &LOCKED);
    plays(abort, rt, &mut disk_as(rt, Lock::Shared), &LOCKED);
    drop(disk);
    let mut reader = disk_as(rt, Lock::Shared);
    plays(abort, rt, &mut reader, &READERS);
    plays(abort, rt, &mut disk_as(rt, Lock::Shared), &READERS);
    plays(abort, rt, &mut disk_as(rt, Lock::Alone), &LOCKED);
    drop(reader);
    plays(abort, rt, &mut disk_as(rt, Lock::Alone), &LATER);
}

/// What is answered to who found no folder, and to who didn't make what is in its folder.
fn touches_no_file_of_another<R: Abort>(abort: &R, rt: HostRuntime) {
    let mut waiting = disk_as(rt, Lock::Alone);
    plays(abort, rt, &mut waiting, &NONE);
    let mut other = disk_as(rt, Lock::Alone);
    plays(abort, rt, &mut other, &FIRST);
    plays(abort, rt, &mut waiting, &TAKEN);
    drop(other);
    plays(abort, rt, &mut waiting, &LATE);
    plays(abort, rt, &mut disk_as(rt, Lock::Alone), &CHANGED);
    play_each(abort, rt, &LEFT);
    plays(abort, rt, &mut disk_as(rt, Lock::Alone), &PUT);
}

/// What is printed where the archive is damaged, and the status.
fn refuses_what_is_damaged<R: Abort>(abort: &R, rt: HostRuntime) {
    let mut disk = disk_as(rt, Lock::Alone);
    plays(abort, rt, &mut disk, &NO_VOLUME);
    let mut out = MemorySink::new(rt.alloc(), Vec::new(rt.alloc()));
    let status = status_of(opened(rt.alloc(), disk, &mut out));
    assert!(abort; status == Status::Archive);
    assert!(abort; out.written() == b"damaged vol-000000.warc 0\n".as_slice());
}

// One test, since there is one folder.
#[test]
fn keeps_numbered_files_and_touches_no_other(rt: HostRuntime) {
    keeps_numbered_files(&rt, rt);
    touches_no_file_of_another(&rt, rt);
    refuses_what_is_damaged(&rt, rt);
}
