//! A folder of records: it writes each call down, fails at one of them, and holds nothing.
ghost use Rattle.std.specs.Prelude.{◌≡◌, true, false, [], None, IfOk};
ghost use Rattle.std.proofs.Common.{refl};

use call_log::{Written, called, cause, joined, numbered, written};
use folder_disk::{Causes, FOLDER};
use folder_model::{Access, Folder, Folders, Lock, Names};
use real_outside::SilentFolders;
use std::alloc::{AllocError, Global};
use std::cell::Cell;
use std::fmt::Display;
use std::io;
use std::io::ErrorKind;
use std::rc::Rc;

/// What a folder of records holds, and which of its calls are written down and which fail.
#[derive(Clone, Copy)]
pub struct Plan {
    /// The names in the folder.
    pub names: [&'static str; 3],
    /// The length of each file that is there.
    pub len: u64,
    /// The length that another process gives a file as soon as it is made.
    pub theirs: u64,
    /// The most bytes that one read or write takes.
    pub most: usize,
    /// Which calls fail, counted from 0, and how.
    pub fails: [(usize, ErrorKind); 2],
    /// From which call on paths lead to others.
    pub moved_from: usize,
    /// Whether the folder's path is a link.
    pub linked: bool,
    /// The first call that is written down.
    pub from: usize,
    /// Whether the causes of faults are written down too.
    pub tells: bool,
}

/// No call that fails.
pub const NEVER: (usize, ErrorKind) = (usize::MAX, ErrorKind::Other);

/// A folder without files.
pub const NO_VOLUME: Plan = Plan {
    names: ["", "", ""],
    len: 0,
    theirs: 0,
    most: usize::MAX,
    fails: [NEVER, NEVER],
    moved_from: usize::MAX,
    linked: false,
    from: 0,
    tells: false,
};

/// A folder of two volumes of three bytes.
pub const TWO_VOLUMES: Plan = Plan {
    names: ["vol-000001.warc", "notes", "vol-000000.warc"],
    len: 3,
    ..NO_VOLUME
};

/// What was called so far, how many calls that were, and the name of a file that came to be there, with its length.
#[derive(Clone, Copy)]
struct Log {
    calls: Written,
    made: usize,
    came: Written,
    len: u64,
}

/// Writes each call down, behind the calls before. Those that share a log write into it in turn.
#[derive(Drop)]
pub(crate) struct Recorder {
    plan: Plan,
    log: Rc<Cell<Log>>,
}

impl Recorder {
    /// Nothing was called yet.
    pub(crate) fn new(alloc: Global, plan: Plan) -> Result<Recorder, AllocError> {
        let log = Cell::new(Log {
            calls: Written::new(),
            made: 0,
            came: Written::new(),
            len: 0,
        });
        Ok(Recorder {
            plan,
            log: Rc::new(alloc, log)?,
        })
    }

    /// Another one with the same log.
    pub(crate) fn share(&self) -> Result<Recorder, AllocError> {
        Ok(Recorder {
            plan: self.plan,
            log: self.log.clone()?,
        })
    }

    /// What was called so far.
    pub(crate) fn calls(&self) -> Written {
        self.log.get().calls
    }

    /// Writes a call down, and answers whether it fails.
    fn call(&mut self, call: &str, of: &str) -> io::Result<()> {
        let mut log = self.log.get();
        let number = log.made;
        if number >= self.plan.from {
            let call = called(call, of);
            log.calls = joined(joined(log.calls, call.as_str()), ";");
        }
        log.made = number.saturating_add(1);
        self.log.set(log);
        for (call, kind) in &self.plan.fails {
            if *call == number {
                return Err(io::Error::from(*kind));
            }
        }
        Ok(())
    }

    /// The same for a call that answers something.
    fn answer<T: Drop>(&mut self, call: &str, of: &str, answer: T) -> io::Result<T>
        ensures { IfOk result (λ it. it ≡ answer) }
    {
        match self.call(call, of) {
            Ok(()) => Ok(answer),
            Err(error) => Err(error),
        }
    }

    /// Notes that a file of this name is there from now on.
    fn came(&mut self, name: &str) {
        let mut log = self.log.get();
        log.came = written(name);
        log.len = self.plan.theirs;
        self.log.set(log);
    }

    /// Notes that a file reaches so far, where it came to be there.
    fn reaches(&mut self, name: &str, end: u64) {
        let mut log = self.log.get();
        if log.came.as_str() == name {
            log.len = log.len.max(end);
            self.log.set(log);
        }
    }

    /// How long a file is. Those that were there before stay as long as they were, whatever is written to them.
    fn len_of(&self, name: &str) -> u64 {
        let log = self.log.get();
        if log.came.as_str() == name {
            return log.len;
        }
        self.plan.len
    }

    /// Fails where no file of this name is there.
    fn check_there(&self, name: &str) -> io::Result<()> {
        for known in &self.plan.names {
            if *known == name {
                return Ok(());
            }
        }
        if self.log.get().came.as_str() == name {
            return Ok(());
        }
        Err(io::Error::from(ErrorKind::NotFound))
    }

    /// The same for a call that answers whether a path leads to what it led to.
    fn in_place(&mut self, call: &str, of: &str) -> io::Result<bool> {
        let stays = self.log.get().made < self.plan.moved_from;
        self.answer(call, of, stays)
    }
}

/// A call about so many bytes at a place of a file.
fn at_place(call: &str, many: usize, at: u64) -> Written {
    written(format_args!("{call} {many} at {at} of"))
}

/// Where a folder of records is found.
#[derive(Drop)]
pub(crate) struct RecordedFolders {
    recorder: Recorder,
}

impl RecordedFolders {
    /// What writes into this log.
    pub(crate) fn new(recorder: Recorder) -> RecordedFolders {
        RecordedFolders { recorder }
    }
}

impl Causes for RecordedFolders {
    fn tell<D: Display + Drop>(&mut self, what: D, call: &str, error: &io::Error) {
        if self.recorder.plan.tells {
            let line = cause(what, call, error);
            let mut log = self.recorder.log.get();
            log.calls = joined(log.calls, line.as_str());
            self.recorder.log.set(log);
        }
    }
}

impl Folders for RecordedFolders {
    type Folder = RecordedFolder;

    ghost alone = { λ _. false };

    ghost found = { λ _. None };

    fn make_folder(&mut self) -> io::Result<()> {
        self.recorder.call("make", FOLDER)
    }

    fn hold(&mut self, lock: Lock) -> io::Result<RecordedFolder> {
        let word = match lock {
            Lock::Alone => "lock",
            Lock::Shared => "share",
        };
        self.recorder.call(word, FOLDER)?;
        let recorder = self.recorder.share()?;
        Ok(RecordedFolder { recorder })
    }

    fn let_go(&mut self, folder: RecordedFolder) {
        drop(folder);
    }

    fn is_link(&mut self) -> io::Result<bool> {
        let linked = self.recorder.plan.linked;
        self.recorder.answer("is a link", FOLDER, linked)
    }

    fn check_writable(&mut self) -> io::Result<()> {
        self.recorder.call("may write", FOLDER)
    }

    fn check_around(&mut self) -> io::Result<()> {
        self.recorder.call("may write", ".")
    }
}

impl SilentFolders for RecordedFolders {
    ghost silent = { refl };
}

/// A folder of records that is held. A file's handle is its name.
#[derive(Drop)]
pub(crate) struct RecordedFolder {
    recorder: Recorder,
}

impl Folder for RecordedFolder {
    type File = Written;

    ghost tells = { false };

    ghost past = { λ _. record { first = λ _. None; there = true; deeds = [] } };

    ghost name_of = { λ _. [] };

    fn list<N: Names>(&mut self, names: &mut N) -> io::Result<()> {
        self.recorder.call("list", "names")?;
        for name in &self.recorder.plan.names {
            names.add(name)?;
        }
        names.add(self.recorder.log.get().came.as_str())?;
        Ok(())
    }

    fn open(&mut self, name: &str, access: Access) -> io::Result<Written> {
        let word = match access {
            Access::Read => "open to read",
            Access::Update => "open to write",
        };
        self.recorder.call(word, name)?;
        self.recorder.check_there(name)?;
        Ok(written(name))
    }

    fn make(&mut self, name: &str) -> io::Result<Written> {
        match self.recorder.call("create", name) {
            Ok(()) => {
                self.recorder.came(name);
                Ok(written(name))
            }
            Err(error) => {
                if error.kind() == ErrorKind::AlreadyExists {
                    self.recorder.came(name);
                }
                Err(error)
            }
        }
    }

    fn len(&mut self, file: &Written) -> io::Result<u64> {
        let len = self.recorder.len_of(file.as_str());
        self.recorder.answer("length of", file.as_str(), len)
    }

    fn read_at(&mut self, file: &Written, into: &mut [u8], at: u64) -> io::Result<usize> {
        let n = into.len().min(self.recorder.plan.most);
        self.recorder
            .answer(at_place("read", n, at).as_str(), file.as_str(), n)
    }

    fn write_at(&mut self, file: &Written, piece: &[u8], at: u64) -> io::Result<usize> {
        let n = piece.len().min(self.recorder.plan.most);
        self.recorder
            .reaches(file.as_str(), at.saturating_add(n as u64));
        self.recorder
            .answer(at_place("write", n, at).as_str(), file.as_str(), n)
    }

    fn set_len(&mut self, file: &Written, len: u64) -> io::Result<()> {
        self.recorder
            .call(numbered("cut to", len).as_str(), file.as_str())
    }

    fn sync_file(&mut self, file: &Written) -> io::Result<()> {
        self.recorder.call("sync", file.as_str())
    }

    fn sync_folder(&mut self) -> io::Result<()> {
        self.recorder.call("sync", "folder")
    }

    fn sync_around(&mut self) -> io::Result<()> {
        self.recorder.call("sync", "around")
    }

    fn is_in_place(&mut self) -> io::Result<bool> {
        self.recorder.in_place("look for", "folder")
    }

    fn is_at_name(&mut self, file: &Written) -> io::Result<bool> {
        self.recorder.in_place("look for", file.as_str())
    }

    fn check_writable(&mut self, name: &str) -> io::Result<()> {
        self.recorder.call("may write", name)
    }
}
