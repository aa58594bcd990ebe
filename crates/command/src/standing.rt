//! What stood finished in the volumes when an archive was opened on a disk.
ghost use Rattle.std.specs.Prelude.{◌≡◌, IsTrue};
ghost use Rattle.archive_core.specs.Lasting.{KeepsStored};
ghost use Rattle.archive_reopening.specs.Standing.{KeepsOn, StoodOn};

use archive_core::{Archive, StoodTexts};
use disk_model::Disk;
use shown::{Choice, Shown};

/// A disk as it was given, and the archive that was opened on it.
#[derive(Drop)]
struct OpenedOn<'a, D: Disk> {
    given: &'a Shown<D>,
    archive: &'a Archive<D>,
}

/// What stood there, and stands still.
struct HasStood;

impl<'a, D: Disk> Choice<OpenedOn<'a, D>, StoodTexts> for HasStood {
    ghost use Rattle.std.specs.Prelude.{◌≡◌, IsTrue};
    ghost use Rattle.archive_core.specs.Lasting.{KeepsStored};
    ghost use Rattle.archive_reopening.specs.Standing.{StoodOn};

    ghost holds = { λ opened stood. IsTrue D.tells → StoodOn D.Disk opened.given.now.value stood × KeepsStored D.Disk stood opened.archive.now × (stood.book ≡ opened.archive.now.book) };
}

/// What stood when the archive was opened on a disk that was given so, and stands still.
pub fn stood_on<D: Disk>(given: &Shown<D>, archive: &Archive<D>) -> Shown<StoodTexts>
    requires { IsTrue D.tells → KeepsOn D.Disk given.now.value archive.now }
    ensures on { IsTrue D.tells → StoodOn D.Disk given.now.value result.value }
    ensures keeps { IsTrue D.tells → KeepsStored D.Disk result.value archive.now }
    ensures book { IsTrue D.tells → result.value.book ≡ archive.now.book }
{
    let opened = OpenedOn { given, archive };
    Shown::chosen::<OpenedOn<D>, HasStood>(&opened)
}
