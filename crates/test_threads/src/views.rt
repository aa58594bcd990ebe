//! A view of a list that is held while another thread shows a longer list.
ghost use Rattle.std.specs.Prelude.{◌≡◌, None, [], ◌∷◌};

use cdxj_index::{Index, SharedEntry};
use cdxj_line::read_line;
use index_entry::Entry;
use index_snapshot::{Brings, Publisher, Viewer, published};
use std::alloc::Global;
use std::process::Abort;
use std::sync::Wait;
use std::test::*;
use std::thread::{Threads, join_mut};

// Items that bring an entry each, or none.
struct Pages;

impl Brings<Option<Entry>> for Pages {
    ghost use Rattle.std.specs.Prelude.{option_to_list};

    ghost entries = { λ item. option_to_list item };

    ghost fits = { λ _. Unit {0} };
}

// The publisher of a list of one item that brings no entry, and a reader.
fn begun<R: Wait + Abort>(
    rt: &R,
    alloc: Global,
) -> (
    Publisher<Option<Entry>, Pages>,
    Viewer<Option<Entry>, Pages>,
)
    ensures { result.0.full ≡ None ∷ [] }
{
    let first = Index::new(alloc);
    let second = Index::new(alloc);
    let none: Option<Entry> = None;
    let Ok((publisher, mut viewers)) = published::<R, Option<Entry>, Pages>(
        alloc, rt, 1, first, second, &none,
    ) else {
        panic!(rt; "no memory")
    };
    let viewer = viewers.pop().expect(rt, "a viewer is left");
    (publisher, viewer)
}

// A line of an index.
const LINE: &[u8] =
    b"test,a)/x 20240131120000 {\"digest\":\"VL2MMHO4YXUKFWV63YHTWSBM3GXKSQ2N\",\"filename\":\"vol-000000.warc\",\"length\":\"341\",\"method\":\"GET\",\"mime\":\"unk\",\"number\":\"0\",\"offset\":\"311\",\"status\":\"200\",\"url\":\"http://a.test/x\"}\n";

// The entry of that line.
fn entry_of_line<R: Abort>(rt: &R, alloc: Global) -> Entry {
    let Ok(Some(line)) = read_line(alloc, LINE) else {
        panic!(rt; "no line")
    };
    Entry::of_line(line)
}

// Appends an item that brings an entry.
fn append_one<R: Abort>(rt: &R, alloc: Global, publisher: &mut Publisher<Option<Entry>, Pages>)
    requires { publisher.old.full ≡ None ∷ [] }
{
    let entry = entry_of_line(rt, alloc);
    let Ok(copy) = entry.copy() else {
        panic!(rt; "no memory")
    };
    let Ok(shared) = SharedEntry::new(alloc, copy) else {
        panic!(rt; "no memory")
    };
    let item = Some(entry);
    assert!(rt; publisher.append(&item, Some(shared)).is_ok());
}

// Shows readers in another thread what was appended, and says whether that was done.
fn shown_beside<R: Threads + Wait + Sync>(
    rt: &R,
    publisher: &mut Publisher<Option<Entry>, Pages>,
) -> bool {
    let mut beside = || -> bool { publisher.publish(rt).is_ok() };
    let mut here = || {};
    let (done, ()) = join_mut(rt, &mut beside, &mut here);
    done
}

#[test]
fn a_view_that_is_held_keeps_its_list(rt: HostRuntime) -> Result<(), Fail> {
    shown_beside_a_view(&rt, rt.alloc());
    Ok(())
}

fn shown_beside_a_view<R: Threads + Wait + Abort + Sync>(rt: &R, alloc: Global) {
    let (mut publisher, viewer) = begun(rt, alloc);
    let Ok(view) = viewer.enter() else {
        panic!(rt; "no view")
    };
    append_one(rt, alloc, &mut publisher);
    assert!(rt; shown_beside(rt, &mut publisher));
    assert!(rt; view.index().len() == 0);
    assert!(rt; listed_by(rt, view.leave()) == 1);
    publisher.close(rt);
}

// How many entries a reader sees.
fn listed_by<R: Abort>(rt: &R, viewer: Viewer<Option<Entry>, Pages>) -> usize {
    let Ok(view) = viewer.enter() else {
        panic!(rt; "no view")
    };
    let count = view.index().len();
    drop(view.leave());
    count
}
