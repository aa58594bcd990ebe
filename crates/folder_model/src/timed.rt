//! A folder with the clock of its disk, which only clauses read.
ghost use Rattle.std.specs.Prelude.{◌≡◌, ◌∷◌, [], length};
ghost use Rattle.folder_model.specs.Timed.{times_of};
ghost use Rattle.folder_model.specs.Times.{Times, goes_on};

use crate::folder::Folder;
use capture::Bytes;
use shown::Shown;

/// A folder, and when each moment of its disk began, as the number of the deeds that were done then. That takes no memory.
#[derive(Drop)]
pub struct Timed<F: Folder> {
    /// The folder.
    pub folder: F,
    /// When the disk was made.
    pub made: Shown<u64>,
    /// When each later moment began, the newest first.
    pub begun: Shown<Bytes>,
}

impl<F: Folder> Timed<F> {
    /// The folder of a disk that is just made.
    pub fn new(folder: F) -> Timed<F>
        ensures folder { result.folder ≡ folder }
        ensures times { times_of result ≡ record { made = length (F.past folder).deeds; begun = [] } }
    {
        let made = so_far(&folder);
        let begun = none_begun(&folder);
        Timed {
            folder,
            made,
            begun,
        }
    }

    /// A moment more begins now.
    pub fn go_on(&mut self)
        ensures folder { self.new.folder ≡ self.old.folder }
        ensures times { times_of self.new ≡ goes_on (times_of self.old) (F.past self.old.folder) }
    {
        let begun = one_more(self);
        self.begun = begun;
    }
}

/// How many deeds were done.
fn so_far<F: Folder>(folder: &F) -> Shown<u64>
    ensures { result.value ≡ length (F.past folder.now).deeds }
{
    Shown::told_by(folder)
}

/// No moment.
fn none_begun<F: Folder>(folder: &F) -> Shown<Bytes>
    ensures { result.value ≡ [] }
{
    Shown::told_by(folder)
}

/// The moments so far, and one that begins now.
fn one_more<F: Folder>(timed: &Timed<F>) -> Shown<Bytes>
    ensures { result.value ≡ length (F.past timed.now.folder).deeds ∷ timed.now.begun.value }
{
    Shown::told_by(timed)
}
