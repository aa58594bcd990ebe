//! A file of finished texts, and how one more is added.
ghost use Rattle.std.specs.Prelude.{◌≡◌, ◌≢◌, ◌⊎◌, ◌↔◌, ◌+◌, ◌<◌, ◌≤◌, ◌^◌, true, false, [], ◌∷◌, ◌++◌, length, is_err, is_ok, if◌then◌else◌, IsTrue, IfOk, OnOk, OnErr};
ghost use Rattle.capture.specs.Faults.{CountsFaults};
ghost use Rattle.disk_model.specs.Crash.{Torn, Cut, OnFile, Within, Follows, Stepped, Leaves};
ghost use Rattle.disk_model.specs.Image.{file_count, with_file, written};
ghost use Rattle.disk_model.specs.Moments.{AddsOnly};
ghost use Rattle.capture.specs.Tails.{IsCommitted, IsRest};
ghost use Rattle.gated_file.specs.Files.{bytes_of, text_of, IsEnded, IsKnown, KeepsText, IsFinished, IsAdded, IsEither};
ghost use Rattle.gated_file.specs.steps.Mending.{rest_of, IsSynced};

use capture::Failed;
use disk_model::{Disk, Kind};

/// The byte that stands in the place of a commit byte until the rest of its text is durable.
const CLOSED: u8 = b'-';

/// A file of finished texts, each of which begins with the file's commit byte. That byte is written last, so a text
/// that a stop cut short is an unfinished tail behind the finished ones.
///
/// The disk isn't part of it: each call is lent the disk.
#[derive(Clone, Copy, PartialEq, Eq)]
pub struct GatedFile {
    /// The kind of the file.
    pub kind: Kind,
    /// The number of the file among those of its kind.
    pub file: u32,
    /// The first byte of each of its texts, which isn't `-`.
    pub commit: u8,
    /// Where the finished text ends, in bytes.
    pub end: u64,
    /// Whether something else may stand behind the end.
    pub is_dirty: bool,
}

impl GatedFile {
    /// Adds a text, which begins with the commit byte, behind the finished one. Where the file is dirty it is mended
    /// first. It takes three steps, each with its sync: the byte `-`, the rest of the text, the commit byte.
    ///
    /// `Failed` comes only where the disk's count of faults rose. Then the file is dirty and its end stays, whether the
    /// text stands there or not.
    pub fn append<D: Disk>(&mut self, disk: &mut D, text: &[u8]) -> Result<(), Failed>
        requires there { IsTrue D.tells → self.old.file < file_count (D.reading disk.old) self.old.kind }
        requires in_range { IsTrue D.tells → self.old.end ≤ length (bytes_of self.old (D.reading disk.old)) }
        requires apart { self.old.commit ≢ 45 }
        requires committed { IsCommitted self.old.commit text.now }
        requires fits { self.old.end + length text.now < 2 ^ 64 }
        ensures after { self.new ≡ record self.old {
          end = (if is_ok result then self.old.end + length text.now else self.old.end);
          is_dirty = is_err result;
        } }

        // What a read gives: the text behind the finished one, which stays in any case.
        ensures added { IsTrue D.tells → IsKnown self.old (D.reading disk.old) (D.images disk.old) → OnOk result
            (D.reading disk.new ≡ with_file (D.reading disk.old) self.old.kind self.old.file
            (text_of self.old (D.reading disk.old) ++ text.now)) }
        ensures stays { IsTrue D.tells → KeepsText self.old (D.reading disk.old) (D.reading disk.new) }

        // What a crash leaves: at any moment of the call, after it was done, and after it failed.
        ensures leaves { IsTrue D.tells → IsKnown self.old (D.reading disk.old) (D.images disk.old) →
            AddsOnly D.moment D.images_since disk.old disk.new (IsEither self.old (D.reading disk.old) (D.images disk.old) text.now) }
        ensures only { IsTrue D.tells → IsKnown self.old (D.reading disk.old) (D.images disk.old) → OnOk result
            (Leaves (D.images disk.new) (IsAdded self.old (D.reading disk.old) (D.images disk.old) text.now)) }
        ensures refused { IsTrue D.tells → IsKnown self.old (D.reading disk.old) (D.images disk.old) → OnErr result
            (Leaves (D.images disk.new) (λ image. D.images disk.old image
            ⊎ IsFinished self.old (D.reading disk.old) (D.images disk.old) image)
            ⊎ Leaves (D.images disk.new) (IsEither self.old (D.reading disk.old) (D.images disk.old) text.now)) }
        ensures known { IsTrue D.tells → IsKnown self.old (D.reading disk.old) (D.images disk.old)
            → IsKnown self.new (D.reading disk.new) (D.images disk.new) }

        // How much the moment goes on: by the three steps, and by the mending of a file that is dirty.
        ensures quick { D.moment disk.new ≤ D.moment disk.old + (if self.old.is_dirty then 13 else 6) }

        ensures faults { CountsFaults (D.faults disk.old) (D.faults disk.new) result }
    {
        let known = *self;
        self.is_dirty = true;
        known.clean(disk)?;
        known.put(disk, text)?;
        self.end += text.len() as u64;
        self.is_dirty = false;
        Ok(())
    }

    /// Takes away what stands behind the finished text. The file is synced first, so that what a read gives is what
    /// stands there. A commit byte with more behind it is then written over and that is synced, before the file is cut
    /// at its end and synced.
    ///
    /// `Failed` comes only where the disk's count of faults rose. Then the file is dirty.
    pub fn mend<D: Disk>(&mut self, disk: &mut D) -> Result<(), Failed>
        requires there { IsTrue D.tells → self.old.file < file_count (D.reading disk.old) self.old.kind }
        requires in_range { IsTrue D.tells → self.old.end ≤ length (bytes_of self.old (D.reading disk.old)) }
        requires apart { self.old.commit ≢ 45 }
        ensures after { self.new ≡ record self.old { is_dirty = is_err result } }

        // What a read gives: the finished text alone, which stays in any case.
        ensures mended { IsTrue D.tells → OnOk result (D.reading disk.new
            ≡ with_file (D.reading disk.old) self.old.kind self.old.file (text_of self.old (D.reading disk.old))) }
        ensures stays { IsTrue D.tells → KeepsText self.old (D.reading disk.old) (D.reading disk.new) }

        // What a crash leaves: at any moment of the call, and after it was done.
        ensures leaves { IsTrue D.tells →
            AddsOnly D.moment D.images_since disk.old disk.new (IsFinished self.old (D.reading disk.old) (D.images disk.old)) }
        ensures only { IsTrue D.tells → OnOk result (Leaves (D.images disk.new)
            (IsAdded self.old (D.reading disk.old) (D.images disk.old) [])) }
        ensures known { IsTrue D.tells → IsKnown self.new (D.reading disk.new) (D.images disk.new) }

        ensures quick { D.moment disk.new ≤ D.moment disk.old + 7 }

        ensures faults { CountsFaults (D.faults disk.old) (D.faults disk.new) result }
    {
        let known = *self;
        self.is_dirty = true;
        known.take_away(disk)?;
        self.is_dirty = false;
        Ok(())
    }

    /// Takes away what stands behind the text, where the file is dirty.
    fn clean<D: Disk>(&self, disk: &mut D) -> Result<(), Failed>
        requires there { IsTrue D.tells → self.now.file < file_count (D.reading disk.old) self.now.kind }
        requires in_range { IsTrue D.tells → self.now.end ≤ length (bytes_of self.now (D.reading disk.old)) }
        requires apart { self.now.commit ≢ 45 }
        ensures mended { IsTrue D.tells → IsKnown self.now (D.reading disk.old) (D.images disk.old) → OnOk result
            (D.reading disk.new ≡ with_file (D.reading disk.old) self.now.kind self.now.file
            (text_of self.now (D.reading disk.old))) }
        ensures stays { IsTrue D.tells → KeepsText self.now (D.reading disk.old) (D.reading disk.new) }
        ensures leaves { IsTrue D.tells →
            AddsOnly D.moment D.images_since disk.old disk.new (IsFinished self.now (D.reading disk.old) (D.images disk.old)) }
        ensures only { IsTrue D.tells → IsKnown self.now (D.reading disk.old) (D.images disk.old) → OnOk result
            (Leaves (D.images disk.new) (IsAdded self.now (D.reading disk.old) (D.images disk.old) [])) }
        ensures quick { D.moment disk.new ≤ D.moment disk.old + (if self.now.is_dirty then 7 else 0) }
        ensures faults { CountsFaults (D.faults disk.old) (D.faults disk.new) result }
    {
        if self.is_dirty {
            return self.take_away(disk);
        }
        Ok(())
    }

    /// Takes away what stands behind the text. After the first sync what a read gives is what stands there.
    fn take_away<D: Disk>(&self, disk: &mut D) -> Result<(), Failed>
        requires there { IsTrue D.tells → self.now.file < file_count (D.reading disk.old) self.now.kind }
        requires in_range { IsTrue D.tells → self.now.end ≤ length (bytes_of self.now (D.reading disk.old)) }
        requires apart { self.now.commit ≢ 45 }
        ensures mended { IsTrue D.tells → OnOk result (D.reading disk.new
            ≡ with_file (D.reading disk.old) self.now.kind self.now.file (text_of self.now (D.reading disk.old))) }
        ensures stays { IsTrue D.tells → KeepsText self.now (D.reading disk.old) (D.reading disk.new) }
        ensures leaves { IsTrue D.tells →
            AddsOnly D.moment D.images_since disk.old disk.new (IsFinished self.now (D.reading disk.old) (D.images disk.old)) }
        ensures only { IsTrue D.tells → OnOk result (Leaves (D.images disk.new)
            (IsAdded self.now (D.reading disk.old) (D.images disk.old) [])) }
        ensures quick { D.moment disk.new ≤ D.moment disk.old + 7 }
        ensures faults { CountsFaults (D.faults disk.old) (D.faults disk.new) result }
    {
        disk.sync(self.kind, self.file)?;
        self.uncommit(disk)?;
        self.cut_off(disk)
    }

    /// Puts a text behind the finished one, its commit byte last.
    fn put<D: Disk>(&self, disk: &mut D, text: &[u8]) -> Result<(), Failed>
        requires there { IsTrue D.tells → self.now.file < file_count (D.reading disk.old) self.now.kind }
        requires in_range { IsTrue D.tells → self.now.end ≤ length (bytes_of self.now (D.reading disk.old)) }
        requires apart { self.now.commit ≢ 45 }
        requires committed { IsCommitted self.now.commit text.now }
        requires fits { self.now.end + length text.now < 2 ^ 64 }
        ensures added { IsTrue D.tells → self.now.end ≡ length (bytes_of self.now (D.reading disk.old)) → OnOk result
            (D.reading disk.new ≡ with_file (D.reading disk.old) self.now.kind self.now.file
            (text_of self.now (D.reading disk.old) ++ text.now)) }
        ensures stays { IsTrue D.tells → KeepsText self.now (D.reading disk.old) (D.reading disk.new) }
        ensures leaves { IsTrue D.tells → IsEnded self.now (D.reading disk.old) (D.images disk.old) →
            AddsOnly D.moment D.images_since disk.old disk.new (IsEither self.now (D.reading disk.old) (D.images disk.old) text.now) }
        ensures only { IsTrue D.tells → IsEnded self.now (D.reading disk.old) (D.images disk.old) → OnOk result
            (Leaves (D.images disk.new) (IsAdded self.now (D.reading disk.old) (D.images disk.old) text.now)) }
        ensures quick { D.moment disk.new ≤ D.moment disk.old + 6 }
        ensures faults { CountsFaults (D.faults disk.old) (D.faults disk.new) result }
    {
        let (commit, rest) = text.split_at(1);
        self.write(disk, self.end, &[CLOSED])?;
        self.write(disk, self.end + 1, rest)?;
        self.write(disk, self.end, commit)
    }

    /// Takes the commit byte off what stands behind the end of a file that is synced, so that it is a tail.
    fn uncommit<D: Disk>(&self, disk: &mut D) -> Result<(), Failed>
        requires there { IsTrue D.tells → self.now.file < file_count (D.reading disk.old) self.now.kind }
        requires in_range { IsTrue D.tells → self.now.end ≤ length (bytes_of self.now (D.reading disk.old)) }
        requires apart { self.now.commit ≢ 45 }
        ensures rest { IsTrue D.tells → OnOk result (IsRest self.now.commit (rest_of self.now (D.reading disk.new))) }
        ensures stays { IsTrue D.tells → KeepsText self.now (D.reading disk.old) (D.reading disk.new) }
        ensures synced { IsTrue D.tells → IsSynced self.now (D.reading disk.old) (D.images disk.old) → OnOk result
            (IsSynced self.now (D.reading disk.new) (D.images disk.new)) }
        ensures leaves { IsTrue D.tells → IsSynced self.now (D.reading disk.old) (D.images disk.old) →
            AddsOnly D.moment D.images_since disk.old disk.new (IsFinished self.now (D.reading disk.old) (D.images disk.old)) }
        ensures quick { D.moment disk.new ≤ D.moment disk.old + (if is_ok result then 4 else 5) }
        ensures faults { CountsFaults (D.faults disk.old) (D.faults disk.new) result }
    {
        if self.is_committed(disk)? {
            return self.close(disk);
        }
        Ok(())
    }

    /// Whether a whole text stands behind the end, by its commit byte.
    fn is_committed<D: Disk>(&self, disk: &mut D) -> Result<bool, Failed>
        requires there { IsTrue D.tells → self.now.file < file_count (D.reading disk.old) self.now.kind }
        requires in_range { IsTrue D.tells → self.now.end ≤ length (bytes_of self.now (D.reading disk.old)) }
        ensures committed { IsTrue D.tells → IfOk result (λ is. IsTrue is
            ↔ IsCommitted self.now.commit (rest_of self.now (D.reading disk.old))) }
        ensures reading { IsTrue D.tells → D.reading disk.new ≡ D.reading disk.old }
        ensures crash { Within (D.images disk.old) (D.images disk.new) }
        ensures leaves { AddsOnly D.moment D.images_since disk.old disk.new (D.images disk.old) }
        ensures quick { D.moment disk.new ≤ D.moment disk.old + 2 }
        ensures faults { CountsFaults (D.faults disk.old) (D.faults disk.new) result }
    {
        let len = disk.len(self.kind, self.file)?;
        if len.saturating_sub(self.end) < 2 {
            return Ok(false);
        }
        let mut first = [0u8];
        disk.read(self.kind, self.file, self.end, &mut first)?;
        Ok(first[0] == self.commit)
    }

    /// Writes `-` over a commit byte and syncs that. Where the sync fails, the byte may still stand on the disk, whatever
    /// a read gives and a later sync answers. So it is put back, for the next mending to write `-` anew.
    fn close<D: Disk>(&self, disk: &mut D) -> Result<(), Failed>
        requires there { IsTrue D.tells → self.now.file < file_count (D.reading disk.old) self.now.kind }
        requires in_range { IsTrue D.tells → self.now.end ≤ length (bytes_of self.now (D.reading disk.old)) }
        requires apart { self.now.commit ≢ 45 }
        ensures rest { IsTrue D.tells → OnOk result (IsRest self.now.commit (rest_of self.now (D.reading disk.new))) }
        ensures stays { IsTrue D.tells → KeepsText self.now (D.reading disk.old) (D.reading disk.new) }
        ensures synced { IsTrue D.tells → OnOk result (IsSynced self.now (D.reading disk.new) (D.images disk.new)) }
        ensures leaves { IsTrue D.tells → IsCommitted self.now.commit (rest_of self.now (D.reading disk.old)) →
            IsSynced self.now (D.reading disk.old) (D.images disk.old) →
            AddsOnly D.moment D.images_since disk.old disk.new (Stepped
            (OnFile self.now.kind self.now.file (Torn self.now.end 1)) (D.images disk.old)) }
        ensures quick { D.moment disk.new ≤ D.moment disk.old + (if is_ok result then 2 else 3) }
        ensures faults { CountsFaults (D.faults disk.old) (D.faults disk.new) result }
    {
        disk.write_at(self.kind, self.file, self.end, &[CLOSED])?;
        if disk.sync(self.kind, self.file).is_err() {
            let _ = disk.write_at(self.kind, self.file, self.end, &[self.commit]);
            return Err(Failed);
        }
        Ok(())
    }

    /// Writes bytes and syncs them.
    fn write<D: Disk>(&self, disk: &mut D, at: u64, bytes: &[u8]) -> Result<(), Failed>
        requires there { IsTrue D.tells → self.now.file < file_count (D.reading disk.old) self.now.kind }
        requires in_range { IsTrue D.tells → at ≤ length (bytes_of self.now (D.reading disk.old)) }
        ensures written { IsTrue D.tells → OnOk result (D.reading disk.new
            ≡ with_file (D.reading disk.old) self.now.kind self.now.file
            (written (bytes_of self.now (D.reading disk.old)) at bytes.now)) }
        ensures partial { IsTrue D.tells → OnFile self.now.kind self.now.file (Torn at (length bytes.now))
            (D.reading disk.old) (D.reading disk.new) }
        ensures durable { IsTrue D.tells → OnOk result (IsSynced self.now (D.reading disk.new) (D.images disk.new)) }
        ensures crash { Follows (OnFile self.now.kind self.now.file (Torn at (length bytes.now)))
            (D.images disk.old) (D.images disk.new) }
        ensures leaves { AddsOnly D.moment D.images_since disk.old disk.new
            (Stepped (OnFile self.now.kind self.now.file (Torn at (length bytes.now))) (D.images disk.old)) }
        ensures quick { D.moment disk.new ≤ D.moment disk.old + 2 }
        ensures faults { CountsFaults (D.faults disk.old) (D.faults disk.new) result }
    {
        disk.write_at(self.kind, self.file, at, bytes)?;
        disk.sync(self.kind, self.file)
    }

    /// Cuts the file at its end and syncs that.
    fn cut_off<D: Disk>(&self, disk: &mut D) -> Result<(), Failed>
        requires there { IsTrue D.tells → self.now.file < file_count (D.reading disk.old) self.now.kind }
        requires in_range { IsTrue D.tells → self.now.end ≤ length (bytes_of self.now (D.reading disk.old)) }
        ensures cut { IsTrue D.tells → OnOk result (D.reading disk.new
            ≡ with_file (D.reading disk.old) self.now.kind self.now.file (text_of self.now (D.reading disk.old))) }
        ensures partial { IsTrue D.tells → OnFile self.now.kind self.now.file (Cut self.now.end)
            (D.reading disk.old) (D.reading disk.new) }
        ensures durable { IsTrue D.tells → OnOk result (IsSynced self.now (D.reading disk.new) (D.images disk.new)) }
        ensures crash { Follows (OnFile self.now.kind self.now.file (Cut self.now.end))
            (D.images disk.old) (D.images disk.new) }
        ensures leaves { AddsOnly D.moment D.images_since disk.old disk.new
            (Stepped (OnFile self.now.kind self.now.file (Cut self.now.end)) (D.images disk.old)) }
        ensures quick { D.moment disk.new ≤ D.moment disk.old + 2 }
        ensures faults { CountsFaults (D.faults disk.old) (D.faults disk.new) result }
    {
        disk.cut(self.kind, self.file, self.end)?;
        disk.sync(self.kind, self.file)
    }
}
