//! A disk of numbered files: what a read gives, and what a crash may leave.
ghost use Rattle.std.specs.Prelude.{◌≡◌, ◌+◌, ◌<◌, ◌≤◌, ℕ, Bool, IsTrue, [], length, take, drop, IfOk, OnOk, OnErr};
ghost use Rattle.capture.specs.Faults.{CountsFaults};
ghost use Rattle.disk_model.specs.Crash.{Torn, Cut, OnFile, MayCreate, HasFile, Within, Follows, Stepped, Leaves, Elapses};
ghost use Rattle.disk_model.specs.Image.{Image, file_count, file_of, with_file, with_new, written};

use crate::Kind;
use capture::Failed;

/// A disk. What its calls do is said of what a read gives, the reading, and of the images that a crash may
/// leave. Until a sync of the file a crash may leave any bytes in what was written and past the old end, and any
/// length between the old and the new.
///
/// A disk whose type tells what its files hold has a reading and images. One that doesn't tell has no images,
/// and answers `Failed` where a file or a range isn't there.
///
/// Each call may answer `Failed`, and then the count of faults has risen.
pub trait Disk {
    ghost use Rattle.disk_model.specs.declared.kind.Kind.{Kind};

    /// Whether disks of this type tell what their files hold.
    ghost tells: { Bool };

    /// What a read gives.
    ghost reading: { Self → Image };

    /// The images that a crash now may leave.
    ghost images: { Self → Image → Type 0 };

    /// The moment, as a number that doesn't fall, and that a call raises by one at most.
    ghost moment: { Self → ℕ };

    /// The images that a crash at some moment from that one on might have left, during a call or between two.
    ghost images_since: { Self → ℕ → Image → Type 0 };

    /// How often a call has failed.
    ghost faults: { Self → ℕ };

    /// How many files of the kind there are.
    fn files(&mut self, kind: Kind) -> Result<u32, Failed>
        ensures count { IsTrue tells → IfOk result
            (λ count. count ≡ file_count (reading self.old) kind) }
        ensures reading { IsTrue tells → reading self.new ≡ reading self.old }
        ensures crash { Within (images self.old) (images self.new) }
        ensures time { Elapses (moment self.old) (moment self.new)
            (images_since self.old) (images_since self.new) (images self.new) }
        ensures faults { CountsFaults (faults self.old) (faults self.new) result };

    /// Makes an empty file and answers its number, the number of files before. Once it answers `Ok`, each crash
    /// leaves the file there. During the call a crash leaves it there or not, also where the call then fails and has
    /// made none. A call that fails may have made it.
    fn create(&mut self, kind: Kind) -> Result<u32, Failed>
        ensures number { IsTrue tells → IfOk result
            (λ file. file ≡ file_count (reading self.old) kind) }
        ensures created { IsTrue tells → OnOk result
            (reading self.new ≡ with_new (reading self.old) kind) }
        ensures partial { IsTrue tells → OnErr result
            (MayCreate kind (file_count (reading self.old) kind) (reading self.old) (reading self.new)) }
        ensures crash { Follows (MayCreate kind (file_count (reading self.old) kind))
            (images self.old) (images self.new) }
        ensures durable { IfOk result (λ file. Leaves (images self.new) (HasFile kind file [])) }
        ensures time { Elapses (moment self.old) (moment self.new) (images_since self.old) (images_since self.new)
            (Stepped (MayCreate kind (file_count (reading self.old) kind)) (images self.old)) }
        ensures faults { CountsFaults (faults self.old) (faults self.new) result };

    /// The length of a file in bytes.
    fn len(&mut self, kind: Kind, file: u32) -> Result<u64, Failed>
        requires { IsTrue tells → file < file_count (reading self.old) kind }
        ensures length { IsTrue tells → IfOk result
            (λ len. len ≡ length (file_of (reading self.old) kind file)) }
        ensures reading { IsTrue tells → reading self.new ≡ reading self.old }
        ensures crash { Within (images self.old) (images self.new) }
        ensures time { Elapses (moment self.old) (moment self.new)
            (images_since self.old) (images_since self.new) (images self.new) }
        ensures faults { CountsFaults (faults self.old) (faults self.new) result };

    /// Fills `into` with the bytes of a file from an offset on. What a call that fails leaves in `into` isn't said.
    fn read(&mut self, kind: Kind, file: u32, at: u64, into: &mut [u8]) -> Result<(), Failed>
        requires there { IsTrue tells → file < file_count (reading self.old) kind }
        requires in_range { IsTrue tells → at + length into.old
            ≤ length (file_of (reading self.old) kind file) }
        ensures bytes { IsTrue tells → OnOk result
            (into.new ≡ take (length into.old) (drop at (file_of (reading self.old) kind file))) }
        ensures reading { IsTrue tells → reading self.new ≡ reading self.old }
        ensures crash { Within (images self.old) (images self.new) }
        ensures time { Elapses (moment self.old) (moment self.new)
            (images_since self.old) (images_since self.new) (images self.new) }
        ensures faults { CountsFaults (faults self.old) (faults self.new) result };

    /// Writes bytes at an offset, over what is there and past the end. Until a sync a crash may tear them, and a
    /// call that fails may have torn them already.
    fn write_at(&mut self, kind: Kind, file: u32, at: u64, bytes: &[u8]) -> Result<(), Failed>
        requires there { IsTrue tells → file < file_count (reading self.old) kind }
        requires in_range { IsTrue tells → at ≤ length (file_of (reading self.old) kind file) }
        ensures written { IsTrue tells → OnOk result (reading self.new
            ≡ with_file (reading self.old) kind file (written (file_of (reading self.old) kind file) at bytes.now)) }
        ensures partial { IsTrue tells → OnErr result
            (OnFile kind file (Torn at (length bytes.now)) (reading self.old) (reading self.new)) }
        ensures crash { Follows (OnFile kind file (Torn at (length bytes.now)))
            (images self.old) (images self.new) }
        ensures time { Elapses (moment self.old) (moment self.new)
            (images_since self.old) (images_since self.new) (images self.new) }
        ensures faults { CountsFaults (faults self.old) (faults self.new) result };

    /// Cuts a file to a length. Until a sync a crash may leave any length between, and a call that fails may have
    /// left one already.
    fn cut(&mut self, kind: Kind, file: u32, len: u64) -> Result<(), Failed>
        requires there { IsTrue tells → file < file_count (reading self.old) kind }
        requires in_range { IsTrue tells → len ≤ length (file_of (reading self.old) kind file) }
        ensures cut { IsTrue tells → OnOk result (reading self.new
            ≡ with_file (reading self.old) kind file (take len (file_of (reading self.old) kind file))) }
        ensures partial { IsTrue tells → OnErr result
            (OnFile kind file (Cut len) (reading self.old) (reading self.new)) }
        ensures crash { Follows (OnFile kind file (Cut len)) (images self.old) (images self.new) }
        ensures time { Elapses (moment self.old) (moment self.new)
            (images_since self.old) (images_since self.new) (images self.new) }
        ensures faults { CountsFaults (faults self.old) (faults self.new) result };

    /// After it a crash leaves of the file what a read gives. A call that fails changes no reading.
    fn sync(&mut self, kind: Kind, file: u32) -> Result<(), Failed>
        requires { IsTrue tells → file < file_count (reading self.old) kind }
        ensures durable { OnOk result (Leaves (images self.new)
            (HasFile kind file (file_of (reading self.old) kind file))) }
        ensures reading { IsTrue tells → reading self.new ≡ reading self.old }
        ensures crash { Within (images self.old) (images self.new) }
        ensures time { Elapses (moment self.old) (moment self.new)
            (images_since self.old) (images_since self.new) (images self.new) }
        ensures faults { CountsFaults (faults self.old) (faults self.new) result };

    /// How often a call has failed. It can't fail itself.
    fn faults(&self) -> u64
        ensures { result ≡ faults self.now };

    /// What a read gives is one of the images.
    ghost reading_is_image: { (disk : Self) → IsTrue tells → images disk (reading disk) };

    /// No image has more files of a kind than the reading.
    ghost no_more_files: { (disk : Self) (image : Image) (kind : Kind) → images disk image
        → file_count image kind ≤ file_count (reading disk) kind };

    /// An image now is an image since each earlier moment.
    ghost now_counts: { (disk : Self) (t : ℕ) (image : Image) → t ≤ moment disk → images disk image
        → images_since disk t image };

    /// An image since now is an image now.
    ghost now_only: { (disk : Self) (image : Image) → images_since disk (moment disk) image
        → images disk image };

    /// An image since a later moment is one since an earlier moment.
    ghost earlier: { (disk : Self) (t s : ℕ) (image : Image) → t ≤ s → images_since disk s image
        → images_since disk t image };
}
