//! The names of the archive's files.
ghost use Rattle.std.specs.Prelude.{◌≡◌, ◌≢◌, ◌<◌, ◌^◌, ◌++◌, ℕ, Some, List, codes, MatchOption, IfOk, IfSome, string_bytes};
ghost use Rattle.folder_disk.specs.NameTexts as spec;
ghost use Rattle.folder_disk.specs.steps.NameLaws.{names_apart, name_is_text};

use disk_model::Kind;
use folder_files::FileNames;
use std::alloc::{AllocError, Global};
use std::fmt;
use std::fmt::{Display, Formatter};
use std::str::from_utf8;

/// The folder of the archive, in the folder where the program runs.
pub const FOLDER: &str = "archive";

/// `vol-NNNNNN.warc` and `vol-NNNNNN.cdxj`, with six digits or more.
#[derive(Drop)]
pub struct ArchiveNames;

/// A file of the archive, which is printed as its path.
#[derive(Clone, Copy)]
pub struct ArchiveFile {
    kind: Kind,
    number: u32,
}

impl Display for ArchiveFile {
    fn fmt<W: fmt::Write>(&self, f: &mut Formatter<W>) -> fmt::Result {
        let (number, ending) = (self.number, ending_of(self.kind));
        write!(f, "archive/vol-{number:06}{ending}")
    }
}

impl FileNames for ArchiveNames {
    type Path = ArchiveFile;

    ghost name = { spec.name_of };

    fn name_of(alloc: Global, kind: Kind, file: u32) -> Result<String, AllocError> {
        name_of(alloc, kind, file)
    }

    fn number_of(alloc: Global, kind: Kind, text: &str) -> Result<Option<u32>, AllocError> {
        number_of(alloc, kind, text)
    }

    fn path_of(kind: Kind, file: u32) -> ArchiveFile {
        ArchiveFile { kind, number: file }
    }

    ghost apart = { names_apart };

    ghost is_text = { name_is_text };
}

#[tactic(auto, using(crate::proofs::NumberFormat::padded_to_six), unfolding(crate::specs::NameTexts::name_of))]
/// The name of a file in its folder.
fn name_of(alloc: Global, kind: Kind, number: u32) -> Result<String, AllocError>
    ensures { IfOk result (λ name. string_bytes name ≡ spec.name_of kind number) }
{
    let ending = ending_of(kind);
    format!(in alloc; "vol-{number:06}{ending}")
}

/// The number of a file of a kind by its name, or `None` where the name is no such file's.
fn number_of(alloc: Global, kind: Kind, name: &str) -> Result<Option<u32>, AllocError>
    ensures its { IfOk result (λ found. IfSome found (λ number. name.now ≡ spec.name_of kind number)) }
    ensures exact { IfOk result (λ found. (number : ℕ) → number < 2 ^ 32 → name.now ≡ spec.name_of kind number → found ≡ Some number) }
{
    let Some(number) = digits_of(kind, name.as_bytes()) else {
        return Ok(None);
    };
    let own = name_of(alloc, kind, number)?;
    if name == own.as_str() {
        Ok(Some(number))
    } else {
        Ok(None)
    }
}

/// The number in a name between `vol-` and the ending. It may be written in another way than ours.
fn digits_of(kind: Kind, name: &[u8]) -> Option<u32>
    ensures { (number : ℕ) → number < 2 ^ 32 → name.now ≡ spec.name_of kind number → result ≡ Some number }
{
    let digits = between(kind, name)?;
    let Ok(text) = from_utf8(digits) else {
        return None;
    };
    match text.parse::<u32>() {
        Ok(number) => Some(number),
        Err(_) => None,
    }
}

/// What stands in a name between `vol-` and the ending.
fn between(kind: Kind, name: &[u8]) -> Option<&[u8]>
    ensures { MatchOption result ((digits : List ℕ) → name.now ≢ codes "vol-" ++ digits ++ spec.ending_of kind)
        (λ digits. name.now ≡ codes "vol-" ++ digits.now ++ spec.ending_of kind) }
{
    let front: &[u8] = b"vol-";
    let rest = name.strip_prefix(front)?;
    rest.strip_suffix(ending_of(kind).as_bytes())
}

/// The ending of the files of a kind.
fn ending_of(kind: Kind) -> &'static str
    ensures { result.now ≡ spec.ending_of kind }
{
    match kind {
        Kind::Warc => ".warc",
        Kind::Cdxj => ".cdxj",
    }
}
