//! The system's folders and files.
use crate::checked::check;
use call_log::{Written, answered, joined, written};
use folder_model::{Access, Folder, Lock};
use real_outside::SystemFolder;
use std::fs::File;
use std::io;
use std::io::ErrorKind;
use std::process::Abort;
use system_paths::{is_at, is_link_at, may_write, needed_lock, pass_over_odd_name};

/// Linux's numbers of errors, and whether who writes and who reads goes on where a lock answers so: ENOLCK, ENOSYS,
/// EOPNOTSUPP, and EIO, EAGAIN and EINTR.
static NUMBERS: [(i32, &str); 6] = [
    (37, "false true"),
    (38, "false true"),
    (95, "false true"),
    (5, "false false"),
    (11, "false false"),
    (4, "false false"),
];

/// Whether a process goes on whose lock answers so.
fn goes_on(lock: Lock, number: i32) -> bool {
    needed_lock(lock, Err(io::Error::from_raw_os_error(number))).is_ok()
}

/// Asserts who goes on where a lock answers so.
fn check_rows<R: Abort>(rt: &R, rows: &[(i32, &str)]) {
    for (number, want) in rows {
        let alone = goes_on(Lock::Alone, *number);
        let shared = goes_on(Lock::Shared, *number);
        check(rt, written(format_args!("{alone} {shared}")), want);
    }
}

// No case can say it: a case has a disk in memory, which nobody locks.
#[test]
fn want_of_locks_is_known(rt: HostRuntime) {
    check_rows(&rt, &NUMBERS);
}

/// Which errors of entries are passed over: of a name that isn't UTF-8, of one that is too long (ENAMETOOLONG has the
/// same kind), and of a list that breaks off.
fn passed_over() -> Written {
    let no_text = pass_over_odd_name(io::Error::from(ErrorKind::InvalidFilename)).is_ok();
    let too_long = pass_over_odd_name(io::Error::from_raw_os_error(36)).is_ok();
    let breaks_off = pass_over_odd_name(io::Error::from_raw_os_error(5)).is_ok();
    written(format_args!("{no_text} {too_long} {breaks_off}"))
}

/// Whether a folder may be written, and one that isn't there, where root can't write either.
fn writable() -> Written {
    let here = may_write(".").is_ok();
    let nowhere = may_write("/no/such/folder").is_ok();
    written(format_args!("{here} {nowhere}"))
}

/// Whether a link of the system's, a folder and nothing are links.
fn links(system: &HostRuntime) -> Written {
    let link = is_link_at(system, "/proc/self").unwrap_or(false);
    let folder = is_link_at(system, ".").unwrap_or(true);
    let nothing = is_link_at(system, "/no/such/link").unwrap_or(true);
    written(format_args!("{link} {folder} {nothing}"))
}

/// What one of the system's folders answers to syncs of itself and of the one around it, which can't be synced.
fn syncs_of_folders(folder: &mut SystemFolder) -> Written {
    joined(
        answered(number(folder.sync_folder())),
        answered(number(folder.sync_around())).as_str(),
    )
}

/// What a folder answers to a sync of a file that can't be synced.
fn sync_of_file(folder: &mut SystemFolder, name: &str) -> Written {
    match folder.open(name, Access::Update) {
        Ok(file) => answered(number(folder.sync_file(&file))),
        Err(_) => written("no file"),
    }
}

/// 0, for a call that tells no number.
fn number(answer: io::Result<()>) -> io::Result<usize> {
    match answer {
        Ok(()) => Ok(0),
        Err(error) => Err(error),
    }
}

/// Syncs of what can't be synced are refused, so they are the system's.
fn refused_syncs(system: HostRuntime) -> Written {
    let folders = match SystemFolder::held_at(system, "/proc/self", Lock::Shared) {
        Ok(mut folder) => syncs_of_folders(&mut folder),
        Err(_) => written("no folder"),
    };
    let file = match SystemFolder::held_at(system, "/proc/self", Lock::Shared) {
        Ok(mut folder) => sync_of_file(&mut folder, "comm"),
        Err(_) => written("no folder"),
    };
    joined(folders, file.as_str())
}

/// Whether what has a name in a folder is opened.
fn opens(system: HostRuntime, path: &str, name: &str) -> bool {
    match SystemFolder::held_at(system, path, Lock::Shared) {
        Ok(mut folder) => folder.open(name, Access::Read).is_ok(),
        Err(_) => false,
    }
}

/// Whether a file is opened, and a device and a folder, of which the last has a link.
fn kinds(system: HostRuntime) -> Written {
    let file = opens(system, "/proc/self", "comm");
    let device = opens(system, "/dev", "null");
    let folder = opens(system, "/proc", "self");
    written(format_args!("{file} {device} {folder}"))
}

/// Whether a folder is at its own path, and at that of one that has the same number on another device.
fn places(rt: &HostRuntime) -> Written {
    let Ok(folder) = File::open(rt, "/proc") else {
        return Written::new();
    };
    let own = is_at(rt, &folder, "/proc").unwrap_or(false);
    let other = is_at(rt, &folder, "/sys").unwrap_or(true);
    written(format_args!("{own} {other}"))
}

// No case can say it: the disk of a case is in memory, lists no names and has no links.
#[test]
fn files_are_the_systems(rt: HostRuntime) {
    let syncs = refused_syncs(rt);
    let links = links(&rt);
    check(&rt, syncs, "failed;failed;failed;");
    check(&rt, writable(), "true false");
    check(&rt, links, "true false false");
    check(&rt, places(&rt), "true false");
    check(&rt, kinds(rt), "true false false");
    check(&rt, passed_over(), "true false false");
}
