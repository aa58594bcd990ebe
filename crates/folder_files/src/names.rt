//! The names of a disk's files in its folder.
ghost use Rattle.std.specs.Prelude.{◌≡◌, ◌<◌, ◌^◌, ℕ, Some, List, IfOk, IfSome, string_bytes};
ghost use Rattle.std.specs.Str.{IsUtf8};
ghost use Rattle.folder_model.specs.Seen.{NamesApart};

use disk_model::Kind;
use std::alloc::{AllocError, Global};
use std::fmt::Display;

/// How files are named by their kinds and numbers.
pub trait FileNames {
    ghost use Rattle.disk_model.specs.declared.kind.Kind.{Kind};

    /// A file as it is printed.
    type Path: Display + Drop;

    /// The name of a file.
    ghost name: { Kind → ℕ → List ℕ };

    /// The name of a file, as text.
    fn name_of(alloc: Global, kind: Kind, file: u32) -> Result<String, AllocError>
        ensures { IfOk result (λ text. string_bytes text ≡ name kind file) };

    /// The number of a file of a kind by its name, or `None` where the name is no such file's.
    fn number_of(alloc: Global, kind: Kind, text: &str) -> Result<Option<u32>, AllocError>
        ensures its { IfOk result (λ found. IfSome found (λ file. text.now ≡ name kind file)) }
        ensures exact { IfOk result (λ found. (file : ℕ) → file < 2 ^ 32 → text.now ≡ name kind file → found ≡ Some file) };

    /// A file, to be printed.
    fn path_of(kind: Kind, file: u32) -> Self::Path;

    /// Each file has a name of its own.
    ghost apart: { NamesApart name };

    /// Names are text.
    ghost is_text: { (kind : Kind) (file : ℕ) → file < 2 ^ 32 → IsUtf8 (name kind file) };
}
