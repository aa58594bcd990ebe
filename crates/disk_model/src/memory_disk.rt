//! A disk in memory, which tells what its files hold, fails where it is told to, and can be stopped.
ghost use Rattle.std.specs.Prelude.{◌≡◌, ◌<◌, ◌≤◌, ◌↔◌, ◌+◌, ◌-◌, ◌^◌, [], ◌∷◌, ◌++◌, ◌⊎◌, Some, true, drop, length, min, sum_by, take, IfSome, IsSome, IfOk, IfErr, IsErr, IsTrue, OnOk, OnErr};
ghost use Rattle.capture.specs.Faults.{CountsFaults};
ghost use Rattle.disk_model.specs.Changes.{done, replayed, stopped_changes};
ghost use Rattle.disk_model.specs.steps.ChangesLaws.{replayed_is_left, no_more_left, left_now, left_only_now, left_earlier};
ghost use Rattle.disk_model.specs.Crash.{Torn, Cut, OnFile, MayCreate, HasFile, Within, Follows, Stepped, Leaves, Elapses};
ghost use Rattle.disk_model.specs.Device.{Device, new_device, reading_of, images_of, moment_of, images_since_of, is_to_fail, called, read_called, faulted, changed, half_made, stopped, IsFailedCreate};
ghost use Rattle.disk_model.specs.Image.{file_count, files_of, file_of, with_file, with_new, written};

use crate::Kind;
use crate::change::Change;
use crate::contents::Contents;
use crate::disk::Disk;
use crate::stop::replay;
use capture::{Bytes, Failed, Memory};
use std::alloc::Global;
use std::marker::Model;

/// A disk in memory. It tells what its files hold. It writes in place, and keeps what it had first and a record of
/// its changes and syncs, from which its images follow.
///
/// A call fails exactly where its number is in the list that `new` was given, or where the fuse has burnt down. A
/// call that changes the disk, or a sync, also fails where memory for it was refused. A call that fails changes
/// nothing but the counts; but a `create` that is to fail may be asked to leave its file half made
/// (`with_half_made_files`).
#[derive(Drop)]
pub struct MemoryDisk {
    alloc: Global,
    first: Contents,
    current: Contents,
    changes: Vec<Change>,
    fails: Vec<u64>,
    fuse: Option<u64>,
    half_makes: bool,
    calls: u64,
    reads: u64,
    faults: u64,
}

impl Model for MemoryDisk {
    ghost use Rattle.std.specs.Prelude.{◌≡◌};
    ghost use Rattle.disk_model.specs.Changes.{replayed};
    ghost use Rattle.disk_model.specs.Device.{Device};

    ghost Value = { Device };

    ghost view = { λ d. record {
      first = d.first;
      changes = d.changes.items;
      fails = d.fails.items;
      fuse = d.fuse;
      half_makes = d.half_makes;
      calls = d.calls;
      reads = d.reads;
      faults = d.faults;
    } };

    ghost invariant = { λ d. d.current ≡ replayed d.changes.items d.first };
}

impl MemoryDisk {
    /// A disk without files. The calls of these numbers fail; calls that can answer `Failed` are numbered from 0.
    pub fn new(alloc: Global, fails: Vec<u64>) -> MemoryDisk
        ensures { result ≡ new_device fails.items }
    {
        MemoryDisk {
            alloc,
            first: Contents::empty(alloc),
            current: Contents::empty(alloc),
            changes: Vec::new(alloc),
            fails,
            fuse: None,
            half_makes: false,
            calls: 0,
            reads: 0,
            faults: 0,
        }
    }

    /// The same disk with a fuse: so many further calls pass, and then each fails.
    pub fn fused(self, calls: u64) -> MemoryDisk
        ensures { result ≡ record self { fuse = Some calls } }
    {
        let mut disk = self;
        disk.fuse = Some(calls);
        disk
    }

    /// The same disk, of which each `create` that is to fail from then on makes the file all the same, where memory is
    /// left for it. Reads find that file, and a stop leaves it there or not, until it or a later one of its kind is
    /// synced, or a `create` of its kind is done.
    pub fn with_half_made_files(self) -> MemoryDisk
        ensures { result ≡ record self { half_makes = true } }
    {
        let mut disk = self;
        disk.half_makes = true;
        disk
    }

    /// The length of a file in bytes, which isn't counted as a call. `None` where the file isn't there.
    pub fn file_len(&self, kind: Kind, file: u32) -> Option<u64>
        ensures some { IfSome result (λ len. len ≡ length (file_of (reading_of self.now) kind file)) }
        ensures there { IsSome result ↔ file < file_count (reading_of self.now) kind }
    {
        if (file as usize) < self.current.files(kind).len() {
            return Some(self.current.file(kind, file).len() as u64);
        }
        None
    }

    /// How many calls were made that can answer `Failed`.
    pub fn calls(&self) -> u64
        ensures { result ≡ self.now.calls }
    {
        self.calls
    }

    /// How many of them were calls of `read`.
    pub fn reads(&self) -> u64
        ensures { result ≡ self.now.reads }
    {
        self.reads
    }

    /// The sum of the lengths in bytes of the files of a kind, which stands still at its type's end.
    pub fn byte_sum(&self, kind: Kind) -> u64
        ensures { result ≡ min (sum_by length (files_of (reading_of self.now) kind)) (2 ^ 64 - 1) }
    {
        self.current.byte_sum(kind)
    }

    /// Stops the disk, as a crash now may. It gives a disk with the same count of faults and no call that is to fail,
    /// which holds one of the images. At choice 0 each file is as last synced, and at choice 1 as a read gives it. At
    /// a choice c above 1 the pending changes are made in order for c - 2 bytes, and the next byte of a written range,
    /// if there is one, is `W`. A file that was half made, and that nothing keeps since, is such a change, of no bytes:
    /// it isn't there at choice 0, and is at 1. The disk is handed back, as it was, where memory was refused.
    pub fn stop(self, choice: u32) -> Result<MemoryDisk, MemoryDisk>
        ensures stopped { IfOk result (λ disk. disk ≡ stopped self choice) }
        ensures image { IfOk result (λ disk. images_of self (reading_of disk)) }
        ensures refused { IfErr result (λ disk. disk ≡ self) }
    {
        let Ok(first) = self.left_at_stop(choice) else {
            return Err(self);
        };
        let Ok(current) = first.copy() else {
            return Err(self);
        };
        Ok(MemoryDisk {
            alloc: self.alloc,
            first,
            current,
            changes: Vec::new(self.alloc),
            fails: Vec::new(self.alloc),
            fuse: None,
            half_makes: false,
            calls: 0,
            reads: 0,
            faults: self.faults,
        })
    }

    /// The files that a stop leaves.
    fn left_at_stop(&self, choice: u32) -> Result<Contents, Memory>
        ensures { IfOk result (λ files. files ≡ replayed
            (stopped_changes choice self.now.changes) self.now.first) }
    {
        match choice {
            0 => replay(self.alloc, &self.first, self.changes.as_slice(), None),
            1 => self.current.copy(),
            _ => {
                let bytes = u64::from(choice - 2);
                replay(
                    self.alloc,
                    &self.first,
                    self.changes.as_slice(),
                    Some(bytes),
                )
            }
        }
    }

    /// Counts a call, which fails where the list or the fuse says so.
    fn begin(&mut self) -> Result<(), Failed>
        ensures fails { IsErr result ↔ IsTrue (is_to_fail self.old) }
        ensures ok { OnOk result (self.new ≡ called self.old) }
        ensures err { OnErr result (self.new ≡ faulted (called self.old)) }
        ensures faults { CountsFaults self.old.faults self.new.faults result }
    {
        let listed = self.fails.contains(&self.calls);
        let burnt_down = self.fuse == Some(0);
        self.calls = self.calls.saturating_add(1);
        self.fuse = match self.fuse {
            Some(calls) => Some(calls.saturating_sub(1)),
            None => None,
        };
        if listed || burnt_down {
            return Err(self.fault());
        }
        Ok(())
    }

    /// Counts a failure.
    fn fault(&mut self) -> Failed
        ensures faulted { self.new ≡ faulted self.old }
        ensures later { self.old.faults ≤ self.new.faults }
    {
        self.faults = self.faults.saturating_add(1);
        Failed
    }

    /// Makes a change and keeps it in the record, or counts a failure where memory was refused.
    fn change(&mut self, change: Change) -> Result<(), Failed>
        ensures ok { OnOk result (self.new ≡ changed change self.old) }
        ensures err { OnErr result (self.new ≡ faulted self.old) }
        ensures faults { CountsFaults self.old.faults self.new.faults result }
    {
        if self.keep(change).is_err() {
            return Err(self.fault());
        }
        Ok(())
    }

    /// Makes a change and keeps it in the record, or does neither.
    fn keep(&mut self, change: Change) -> Result<(), Memory>
        ensures ok { OnOk result (self.new ≡ changed change self.old) }
        ensures err { OnErr result (self.new ≡ self.old) }
    {
        if apply_and_keep(&mut self.current, &mut self.changes, change).is_err() {
            return Err(Memory);
        }
        Ok(())
    }

    /// Half makes a file, where this disk does so and memory is left.
    fn half_make(&mut self, kind: Kind)
        ensures { (self.new ≡ self.old) ⊎ (IsTrue self.old.half_makes × (self.new ≡ half_made kind self.old)) }
    {
        if self.half_makes {
            self.half_make_next(kind);
        }
    }

    /// Half makes a file, or does nothing where memory was refused.
    fn half_make_next(&mut self, kind: Kind)
        ensures { (self.new ≡ self.old) ⊎ (self.new ≡ half_made kind self.old) }
    {
        let file = self.current.files(kind).len() as u32;
        if self.keep(Change::HalfMade { kind, file }).is_err() {
            return;
        }
    }
}

impl Disk for MemoryDisk {
    ghost use Rattle.disk_model.specs.declared.change.Change.TheVariants.{Wrote, Shortened, Made, Synced};

    ghost tells = { true };

    ghost reading = { reading_of };

    ghost images = { images_of };

    ghost moment = { moment_of };

    ghost images_since = { images_since_of };

    ghost faults = { λ d. d.faults };

    ghost reading_is_image = { λ d told. replayed_is_left d.changes d.first (λ image. image ≡ d.first) (λ _. d.first) };

    ghost no_more_files = { λ d image kind left. no_more_left d.changes d.first image kind left };

    ghost now_counts = { λ d t image le left. left_now d.changes d.first t image le left };

    ghost now_only = { λ d image left. left_only_now d.changes d.first image left };

    ghost earlier = { λ d t s image le left. left_earlier d.changes d.first t s image le left };

    fn files(&mut self, kind: Kind) -> Result<u32, Failed>
        // It fails exactly where it is to.
        ensures fails { IsErr result ↔ IsTrue (is_to_fail self.old) }
        ensures ok { OnOk result (self.new ≡ called self.old) }
        ensures err { OnErr result (self.new ≡ faulted (called self.old)) }

        ensures count { IfOk result (λ count. count ≡ file_count (reading_of self.old) kind) }
        ensures reading { reading_of self.new ≡ reading_of self.old }
        ensures crash { Within (images_of self.old) (images_of self.new) }
        ensures time { Elapses (moment_of self.old) (moment_of self.new)
            (images_since_of self.old) (images_since_of self.new) (images_of self.new) }
        ensures faults { CountsFaults self.old.faults self.new.faults result }
    {
        if self.begin().is_err() {
            return Err(Failed);
        }
        Ok(self.current.files(kind).len() as u32)
    }

    fn create(&mut self, kind: Kind) -> Result<u32, Failed>
        // It fails where it is to, and else for want of memory alone.
        ensures fails { IsTrue (is_to_fail self.old) → IsErr result }
        ensures ok { OnOk result (self.new ≡ changed (Made kind) (called self.old)) }
        ensures err { OnErr result (IsFailedCreate kind self.old self.new) }

        ensures number { IfOk result (λ file. file ≡ file_count (reading_of self.old) kind) }
        ensures created { OnOk result (reading_of self.new ≡ with_new (reading_of self.old) kind) }
        ensures partial { OnErr result (MayCreate kind (file_count (reading_of self.old) kind)
            (reading_of self.old) (reading_of self.new)) }
        ensures crash { Follows (MayCreate kind (file_count (reading_of self.old) kind))
            (images_of self.old) (images_of self.new) }
        ensures durable { IfOk result (λ file. Leaves (images_of self.new) (HasFile kind file [])) }
        ensures time { Elapses (moment_of self.old) (moment_of self.new)
            (images_since_of self.old) (images_since_of self.new)
            (Stepped (MayCreate kind (file_count (reading_of self.old) kind)) (images_of self.old)) }
        ensures faults { CountsFaults self.old.faults self.new.faults result }
    {
        if self.begin().is_err() {
            self.half_make(kind);
            return Err(Failed);
        }
        let file = self.current.files(kind).len() as u32;
        if self.change(Change::Made { kind }).is_err() {
            return Err(Failed);
        }
        Ok(file)
    }

    fn len(&mut self, kind: Kind, file: u32) -> Result<u64, Failed>
        requires { file < file_count (reading_of self.old) kind }
        // It fails exactly where it is to.
        ensures fails { IsErr result ↔ IsTrue (is_to_fail self.old) }
        ensures ok { OnOk result (self.new ≡ called self.old) }
        ensures err { OnErr result (self.new ≡ faulted (called self.old)) }

        ensures length { IfOk result (λ len. len ≡ length (file_of (reading_of self.old) kind file)) }
        ensures reading { reading_of self.new ≡ reading_of self.old }
        ensures crash { Within (images_of self.old) (images_of self.new) }
        ensures time { Elapses (moment_of self.old) (moment_of self.new)
            (images_since_of self.old) (images_since_of self.new) (images_of self.new) }
        ensures faults { CountsFaults self.old.faults self.new.faults result }
    {
        if self.begin().is_err() {
            return Err(Failed);
        }
        Ok(self.current.file(kind, file).len() as u64)
    }

    fn read(&mut self, kind: Kind, file: u32, at: u64, into: &mut [u8]) -> Result<(), Failed>
        requires there { file < file_count (reading_of self.old) kind }
        requires in_range { at + length into.old ≤ length (file_of (reading_of self.old) kind file) }
        // It fails exactly where it is to.
        ensures fails { IsErr result ↔ IsTrue (is_to_fail self.old) }
        ensures ok { OnOk result (self.new ≡ called (read_called self.old)) }
        ensures err { OnErr result (self.new ≡ faulted (called (read_called self.old))) }

        ensures bytes { OnOk result (into.new ≡ take (length into.old)
            (drop at (file_of (reading_of self.old) kind file))) }
        ensures reading { reading_of self.new ≡ reading_of self.old }
        ensures crash { Within (images_of self.old) (images_of self.new) }
        ensures time { Elapses (moment_of self.old) (moment_of self.new)
            (images_since_of self.old) (images_since_of self.new) (images_of self.new) }
        ensures faults { CountsFaults self.old.faults self.new.faults result }
    {
        self.reads = self.reads.saturating_add(1);
        if self.begin().is_err() {
            return Err(Failed);
        }
        let bytes = self.current.file(kind, file);
        let from = at as usize;
        let end = from + into.len();
        into.copy_from_slice(&bytes[from..end]);
        Ok(())
    }

    fn write_at(&mut self, kind: Kind, file: u32, at: u64, bytes: &[u8]) -> Result<(), Failed>
        requires there { file < file_count (reading_of self.old) kind }
        requires in_range { at ≤ length (file_of (reading_of self.old) kind file) }
        // It fails where it is to, and else for want of memory alone.
        ensures fails { IsTrue (is_to_fail self.old) → IsErr result }
        ensures ok { OnOk result (self.new ≡ changed (Wrote kind file at bytes.now) (called self.old)) }
        ensures err { OnErr result (self.new ≡ faulted (called self.old)) }

        ensures written { OnOk result (reading_of self.new
            ≡ with_file (reading_of self.old) kind file (written (file_of (reading_of self.old) kind file) at bytes.now)) }
        ensures partial { OnErr result (OnFile kind file (Torn at (length bytes.now))
            (reading_of self.old) (reading_of self.new)) }
        ensures crash { Follows (OnFile kind file (Torn at (length bytes.now)))
            (images_of self.old) (images_of self.new) }
        ensures time { Elapses (moment_of self.old) (moment_of self.new)
            (images_since_of self.old) (images_since_of self.new) (images_of self.new) }
        ensures faults { CountsFaults self.old.faults self.new.faults result }
    {
        if self.begin().is_err() {
            return Err(Failed);
        }
        let Ok(copy) = Vec::from_slice(self.alloc, bytes) else {
            return Err(self.fault());
        };
        let bytes = Bytes::of(copy);
        let change = Change::Wrote {
            kind,
            file,
            at,
            bytes,
        };
        if self.change(change).is_err() {
            return Err(Failed);
        }
        Ok(())
    }

    fn cut(&mut self, kind: Kind, file: u32, len: u64) -> Result<(), Failed>
        requires there { file < file_count (reading_of self.old) kind }
        requires in_range { len ≤ length (file_of (reading_of self.old) kind file) }
        // It fails where it is to, and else for want of memory alone.
        ensures fails { IsTrue (is_to_fail self.old) → IsErr result }
        ensures ok { OnOk result (self.new ≡ changed (Shortened kind file len) (called self.old)) }
        ensures err { OnErr result (self.new ≡ faulted (called self.old)) }

        ensures cut { OnOk result (reading_of self.new ≡ with_file (reading_of self.old) kind file
            (take len (file_of (reading_of self.old) kind file))) }
        ensures partial { OnErr result (OnFile kind file (Cut len) (reading_of self.old)
            (reading_of self.new)) }
        ensures crash { Follows (OnFile kind file (Cut len)) (images_of self.old) (images_of self.new) }
        ensures time { Elapses (moment_of self.old) (moment_of self.new)
            (images_since_of self.old) (images_since_of self.new) (images_of self.new) }
        ensures faults { CountsFaults self.old.faults self.new.faults result }
    {
        if self.begin().is_err() {
            return Err(Failed);
        }
        if self.change(Change::Shortened { kind, file, len }).is_err() {
            return Err(Failed);
        }
        Ok(())
    }

    fn sync(&mut self, kind: Kind, file: u32) -> Result<(), Failed>
        requires { file < file_count (reading_of self.old) kind }
        // It fails where it is to, and else for want of memory alone.
        ensures fails { IsTrue (is_to_fail self.old) → IsErr result }
        ensures ok { OnOk result (self.new ≡ changed (Synced kind file) (called self.old)) }
        ensures err { OnErr result (self.new ≡ faulted (called self.old)) }

        ensures durable { OnOk result (Leaves (images_of self.new)
            (HasFile kind file (file_of (reading_of self.old) kind file))) }
        ensures reading { reading_of self.new ≡ reading_of self.old }
        ensures crash { Within (images_of self.old) (images_of self.new) }
        ensures time { Elapses (moment_of self.old) (moment_of self.new)
            (images_since_of self.old) (images_since_of self.new) (images_of self.new) }
        ensures faults { CountsFaults self.old.faults self.new.faults result }
    {
        if self.begin().is_err() {
            return Err(Failed);
        }
        if self.change(Change::Synced { kind, file }).is_err() {
            return Err(Failed);
        }
        Ok(())
    }

    fn faults(&self) -> u64 {
        self.faults
    }
}

/// Makes a change of the files and keeps it at the end of the record, or does neither.
fn apply_and_keep(
    files: &mut Contents,
    changes: &mut Vec<Change>,
    change: Change,
) -> Result<(), Memory>
    ensures files { OnOk result (files.new ≡ done change files.old) }
    ensures changes { OnOk result (changes.new.items ≡ changes.old.items ++ change ∷ []) }
    ensures files_err { OnErr result (files.new ≡ files.old) }
    ensures changes_err { OnErr result (changes.new.items ≡ changes.old.items) }
{
    if changes.reserve(1).is_err() {
        return Err(Memory);
    }
    if files.apply(&change).is_err() {
        return Err(Memory);
    }
    let Ok(()) = changes.push(change) else {
        unreachable!()
    };
    Ok(())
}
