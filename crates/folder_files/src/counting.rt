//! How many files of each kind a folder has.
ghost use Rattle.std.specs.Prelude.{◌≡◌, ◌≢◌, ◌<◌, ◌≤◌, ◌^◌, ◌++◌, ◌∷◌, [], ℕ, false, None, List, IsTrue, IfOk, OnOk, max};
ghost use Rattle.folder_model.specs.Folder.{contents_of, IsUnfailed};
ghost use Rattle.folder_files.specs.Counting.{HasNoMore};
ghost use Rattle.folder_files.specs.Counting.{IsCounted, known_of};

use crate::names::FileNames;
use crate::reasons::{no_further_number, number_missing};
use disk_model::Kind;
use folder_model::{Access, Folder, NameList, Names};
use shown::Shown;
use std::alloc::{AllocError, Global};
use std::io;
use std::io::ErrorKind;
use std::marker::{Model, PhantomData};

/// How many files of each kind there are.
#[derive(Clone, Copy)]
pub struct Counts {
    /// How many volumes.
    pub warc: u32,
    /// How many checkpoints.
    pub cdxj: u32,
}

impl Counts {
    /// How many files of a kind there are.
    pub fn of(&self, kind: Kind) -> u32
        ensures { result ≡ known_of self.now.warc self.now.cdxj kind }
    {
        match kind {
            Kind::Warc => self.warc,
            Kind::Cdxj => self.cdxj,
        }
    }
}

/// Takes a folder's list of names, in whatever order they come, and keeps of each kind the greatest number and one more, or
/// 0 where there is none.
#[derive(Drop)]
struct Tally<N: FileNames> {
    alloc: Global,
    warc: u64,
    cdxj: u64,
    /// The names that came, which only clauses know.
    given: Shown<NameList>,
    names: PhantomData<N>,
}

impl<N: FileNames> Model for Tally<N> {
    ghost use Rattle.folder_files.specs.Counting.{Tallied, AreBelow};

    ghost Value = { Tallied };

    ghost view = { λ t. record { warc = t.warc; cdxj = t.cdxj; given = t.given.value } };

    ghost invariant = { λ t. AreBelow N.name t.warc t.cdxj t.given.value };
}

impl<N: FileNames> Tally<N> {
    /// No name so far.
    fn new(alloc: Global) -> Tally<N>
        ensures { result.given ≡ [] }
    {
        Tally {
            alloc,
            warc: 0,
            cdxj: 0,
            given: no_names(),
            names: PhantomData,
        }
    }
}

impl<N: FileNames> Names for Tally<N> {
    ghost given = { λ t. t.given };

    fn add(&mut self, name: &str) -> Result<(), AllocError> {
        let warc = past_of::<N>(self.alloc, Kind::Warc, name)?;
        let cdxj = past_of::<N>(self.alloc, Kind::Cdxj, name)?;
        let given = one_more(&self.given, name);
        self.warc = greater(self.warc, warc);
        self.cdxj = greater(self.cdxj, cdxj);
        self.given = given;
        Ok(())
    }
}

/// One more than the number of a file of a kind, by its name, or 0 where the name is no such file's.
fn past_of<N: FileNames>(alloc: Global, kind: Kind, name: &str) -> Result<u64, AllocError>
    ensures { IfOk result (λ past. (file : ℕ) → file < 2 ^ 32 → name.now ≡ N.name kind file → file < past) }
{
    match N::number_of(alloc, kind, name)? {
        Some(number) => Ok(u64::from(number) + 1),
        None => Ok(0),
    }
}

/// The greater of two numbers.
pub(crate) fn greater(a: u64, b: u64) -> u64
    ensures { result ≡ max a b }
{
    if a < b {
        return b;
    }
    a
}

/// Names that came, and one more.
#[derive(Drop)]
struct OneMore<'a> {
    given: &'a Shown<NameList>,
    name: &'a str,
}

/// No names.
fn no_names() -> Shown<NameList>
    ensures { result.value ≡ [] }
{
    Shown::told_by(&())
}

/// The names so far, and behind them one more.
fn one_more(given: &Shown<NameList>, name: &str) -> Shown<NameList>
    ensures { result.value ≡ given.now.value ++ name.now ∷ [] }
{
    Shown::told_by(&OneMore { given, name })
}

/// Counts the files of each kind in a folder. A number that is missing is a failure, and never a smaller count.
pub fn count<F: Folder, N: FileNames>(folder: &mut F, alloc: Global) -> io::Result<Counts>
    ensures past { IsTrue F.tells → F.past folder.new ≡ F.past folder.old }
    ensures counts { IsTrue F.tells → IsUnfailed (F.past folder.old) → IfOk result
        (λ counts. IsCounted N.name (F.past folder.new) counts.warc counts.cdxj) }
{
    let counts = listed::<F, N>(folder, alloc)?;
    check_there::<F, N>(folder, alloc, Kind::Warc, counts.warc)?;
    check_there::<F, N>(folder, alloc, Kind::Cdxj, counts.cdxj)?;
    Ok(counts)
}

/// The greatest number of each kind among a folder's files, and one more. It has no file of a further number.
pub fn listed<F: Folder, N: FileNames>(folder: &mut F, alloc: Global) -> io::Result<Counts>
    ensures past { IsTrue F.tells → F.past folder.new ≡ F.past folder.old }
    ensures no_more { IsTrue F.tells → IfOk result (λ counts. HasNoMore N.name (F.past folder.new) counts.warc counts.cdxj) }
    ensures warc { IfOk result (λ counts. counts.warc < 2 ^ 32) }
    ensures cdxj { IfOk result (λ counts. counts.cdxj < 2 ^ 32) }
{
    let mut tally = Tally::<N>::new(alloc);
    folder.list(&mut tally)?;
    Ok(Counts {
        warc: few(tally.warc)?,
        cdxj: few(tally.cdxj)?,
    })
}

/// A number of files, which are fewer than 2^32.
fn few(past: u64) -> io::Result<u32>
    ensures same { IfOk result (λ count. count ≡ past) }
    ensures few { IfOk result (λ count. count < 2 ^ 32) }
{
    match u32::try_from(past) {
        Ok(count) => Ok(count),
        Err(_) => Err(no_further_number()),
    }
}

/// Fails where a file of a kind is missing whose number is below the count.
pub fn check_there<F: Folder, N: FileNames>(
    folder: &mut F,
    alloc: Global,
    kind: Kind,
    count: u32,
) -> io::Result<()>
    ensures past { IsTrue F.tells → F.past folder.new ≡ F.past folder.old }
    ensures there { IsTrue F.tells → OnOk result
        ((file : ℕ) → file < count → contents_of (F.past folder.new) (N.name kind file) ≢ None) }
{
    for file in 0..count {
        check_one::<F, N>(folder, alloc, kind, file)?;
    }
    Ok(())
}

/// Fails where a file isn't there.
pub fn check_one<F: Folder, N: FileNames>(
    folder: &mut F,
    alloc: Global,
    kind: Kind,
    file: u32,
) -> io::Result<()>
    ensures past { IsTrue F.tells → F.past folder.new ≡ F.past folder.old }
    ensures there { IsTrue F.tells → OnOk result (contents_of (F.past folder.new) (N.name kind file) ≢ None) }
{
    if is_there::<F, N>(folder, alloc, kind, file)? {
        return Ok(());
    }
    Err(number_missing())
}

/// Whether a file is there.
pub fn is_there<F: Folder, N: FileNames>(
    folder: &mut F,
    alloc: Global,
    kind: Kind,
    file: u32,
) -> io::Result<bool>
    ensures past { IsTrue F.tells → F.past folder.new ≡ F.past folder.old }
    ensures there { IsTrue F.tells → IfOk result
        (λ is. IsTrue is → contents_of (F.past folder.new) (N.name kind file) ≢ None) }
{
    let name = N::name_of(alloc, kind, file)?;
    match folder.open(name.as_str(), Access::Read) {
        Ok(_file) => Ok(true),
        Err(error) => absent(error),
    }
}

/// That a file isn't there, where that is why a call of it failed.
pub(crate) fn absent(error: io::Error) -> io::Result<bool>
    ensures { IfOk result (λ is. is ≡ false) }
{
    if error.kind() == ErrorKind::NotFound {
        return Ok(false);
    }
    Err(error)
}
