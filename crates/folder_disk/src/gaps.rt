//! Checkpoints that are missing below others. Each can be written anew from its volume, so the archive isn't refused for one: who
//! writes makes an empty file in its place, which is a checkpoint that isn't finished, and who only reads takes those before it.
ghost use Rattle.std.specs.Prelude.{◌≡◌, ◌≢◌, ◌<◌, ◌^◌, ◌+◌, None, IsTrue, IfOk, OnOk};
ghost use Rattle.folder_model.specs.Calls.{MayMake};
ghost use Rattle.folder_model.specs.Folder.{contents_of, IsUnfailed};
ghost use Rattle.folder_files.specs.Counting.{HasBelow, HasNoMore, HasNoMoreOf, IsCounted};
ghost use Rattle.folder_disk.specs.Gaps.{OnlyFills, LeavesFilled};

use crate::reasons::of_dangling_link;
use disk_model::Kind;
use folder_files::{Counts, FileNames, check_one, check_there, is_there, listed, number_missing};
use folder_model::Folder;
use std::alloc::Global;
use std::io;

/// The files of each kind as they were found.
#[derive(Clone, Copy)]
struct Looked {
    /// The greatest number of each kind, and one more.
    counts: Counts,
    /// How many checkpoints stand before the first that is missing.
    whole: u32,
}

/// Counts the files of each kind for who writes, and fails where this process may not write the last of a kind, where a volume is
/// missing, or a checkpoint of no volume. Other checkpoints that are missing are made, each empty, and nothing else is done, also
/// where it fails. Until the folder is synced a crash may take them away again.
pub(crate) fn count_to_write<F: Folder, N: FileNames>(
    folder: &mut F,
    alloc: Global,
) -> io::Result<Counts>
    requires { IsTrue F.tells → IsUnfailed (F.past folder.old) }
    ensures fills { IsTrue F.tells → OnlyFills N.name (F.past folder.old) (F.past folder.new) }
    ensures crash { IsTrue F.tells → LeavesFilled N.name (F.past folder.old) (F.past folder.new) }
    ensures counts { IsTrue F.tells → IfOk result (λ counts. IsCounted N.name (F.past folder.new) counts.warc counts.cdxj) }
{
    let looked = look::<F, N>(folder, alloc)?;
    check_last::<F, N>(folder, alloc, Kind::Warc, looked.counts.warc)?;
    check_last::<F, N>(folder, alloc, Kind::Cdxj, looked.counts.cdxj)?;
    if looked.whole == looked.counts.cdxj {
        return Ok(looked.counts);
    }
    fill::<F, N>(folder, alloc, looked.counts)?;
    Ok(looked.counts)
}

/// Counts the files of each kind for who only reads, and fails where a volume is missing. Of the checkpoints those before the first
/// that is missing are counted: the volumes of the others are read as those that have none.
pub(crate) fn count_to_read<F: Folder, N: FileNames>(
    folder: &mut F,
    alloc: Global,
) -> io::Result<Counts>
    ensures past { IsTrue F.tells → F.past folder.new ≡ F.past folder.old }
    ensures warc { IsTrue F.tells → IfOk result (λ counts. HasBelow N.name (F.past folder.new) Kind.Warc counts.warc) }
    ensures cdxj { IsTrue F.tells → IfOk result (λ counts. HasBelow N.name (F.past folder.new) Kind.Cdxj counts.cdxj) }
    ensures no_more { IsTrue F.tells → IfOk result (λ counts. HasNoMoreOf N.name (F.past folder.new) Kind.Warc counts.warc) }
    ensures few { IfOk result (λ counts. counts.warc < 2 ^ 32) }
{
    let looked = look::<F, N>(folder, alloc)?;
    Ok(Counts {
        warc: looked.counts.warc,
        cdxj: looked.whole,
    })
}

/// Looks for the files of each kind. A volume that is missing is a failure.
fn look<F: Folder, N: FileNames>(folder: &mut F, alloc: Global) -> io::Result<Looked>
    ensures past { IsTrue F.tells → F.past folder.new ≡ F.past folder.old }
    ensures no_more { IsTrue F.tells → IfOk result
        (λ looked. HasNoMore N.name (F.past folder.new) looked.counts.warc looked.counts.cdxj) }
    ensures warc { IsTrue F.tells → IfOk result (λ looked. HasBelow N.name (F.past folder.new) Kind.Warc looked.counts.warc) }
    ensures whole { IsTrue F.tells → IfOk result (λ looked. HasBelow N.name (F.past folder.new) Kind.Cdxj looked.whole) }
    ensures few { IfOk result (λ looked. looked.counts.warc < 2 ^ 32) }
    ensures fewer { IfOk result (λ looked. looked.counts.cdxj < 2 ^ 32) }
{
    let counts = listed::<F, N>(folder, alloc)?;
    check_there::<F, N>(folder, alloc, Kind::Warc, counts.warc)?;
    let whole = before_gap::<F, N>(folder, alloc, counts.cdxj)?;
    Ok(Looked { counts, whole })
}

/// How many checkpoints, of so many, stand before the first that is missing.
fn before_gap<F: Folder, N: FileNames>(folder: &mut F, alloc: Global, count: u32) -> io::Result<u32>
    ensures past { IsTrue F.tells → F.past folder.new ≡ F.past folder.old }
    ensures there { IsTrue F.tells → IfOk result (λ whole. HasBelow N.name (F.past folder.new) Kind.Cdxj whole) }
{
    for file in 0..count {
        if !is_there::<F, N>(folder, alloc, Kind::Cdxj, file)? {
            return Ok(file);
        }
    }
    Ok(count)
}

/// Makes the checkpoints that are missing below the last one, which is there. Fails where one would be of no volume that is there.
fn fill<F: Folder, N: FileNames>(folder: &mut F, alloc: Global, counts: Counts) -> io::Result<()>
    requires { IsTrue F.tells → HasBelow N.name (F.past folder.old) Kind.Warc counts.warc }
    ensures fills { IsTrue F.tells → OnlyFills N.name (F.past folder.old) (F.past folder.new) }
    ensures there { IsTrue F.tells → OnOk result (HasBelow N.name (F.past folder.new) Kind.Cdxj counts.cdxj) }
{
    if counts.warc < counts.cdxj {
        return Err(number_missing());
    }
    let Some(last) = counts.cdxj.checked_sub(1) else {
        return Ok(());
    };
    check_one::<F, N>(folder, alloc, Kind::Cdxj, last)?;
    fill_below::<F, N>(folder, alloc, last)
}

/// Makes the checkpoints that are missing below one that is there, of volumes that are there.
fn fill_below<F: Folder, N: FileNames>(folder: &mut F, alloc: Global, last: u32) -> io::Result<()>
    requires volumes { IsTrue F.tells → HasBelow N.name (F.past folder.old) Kind.Warc last }
    requires last { IsTrue F.tells → contents_of (F.past folder.old) (N.name Kind.Cdxj last) ≢ None }
    ensures fills { IsTrue F.tells → OnlyFills N.name (F.past folder.old) (F.past folder.new) }
    ensures there { IsTrue F.tells → OnOk result (HasBelow N.name (F.past folder.new) Kind.Cdxj (last + 1)) }
{
    for file in 0..last {
        fill_one::<F, N>(folder, alloc, file)?;
    }
    Ok(())
}

/// Makes a checkpoint where it is missing.
fn fill_one<F: Folder, N: FileNames>(folder: &mut F, alloc: Global, file: u32) -> io::Result<()>
    ensures makes { IsTrue F.tells → MayMake (N.name Kind.Cdxj file) (F.past folder.old) (F.past folder.new) }
    ensures there { IsTrue F.tells → OnOk result (contents_of (F.past folder.new) (N.name Kind.Cdxj file) ≢ None) }
{
    if is_there::<F, N>(folder, alloc, Kind::Cdxj, file)? {
        return Ok(());
    }
    make::<F, N>(folder, alloc, file)
}

/// Makes a checkpoint, empty.
fn make<F: Folder, N: FileNames>(folder: &mut F, alloc: Global, file: u32) -> io::Result<()>
    ensures makes { IsTrue F.tells → MayMake (N.name Kind.Cdxj file) (F.past folder.old) (F.past folder.new) }
    ensures there { IsTrue F.tells → OnOk result (contents_of (F.past folder.new) (N.name Kind.Cdxj file) ≢ None) }
{
    let missing = N::name_of(alloc, Kind::Cdxj, file)?;
    match folder.make(missing.as_str()) {
        Ok(_file) => Ok(()),
        Err(error) => Err(of_dangling_link(error)),
    }
}

/// Fails where this process may not write the last of so many files of a kind.
fn check_last<F: Folder, N: FileNames>(
    folder: &mut F,
    alloc: Global,
    kind: Kind,
    count: u32,
) -> io::Result<()>
    ensures { IsTrue F.tells → F.past folder.new ≡ F.past folder.old }
{
    match count.checked_sub(1) {
        None => Ok(()),
        Some(last) => {
            let name = N::name_of(alloc, kind, last)?;
            folder.check_writable(name.as_str())
        }
    }
}
