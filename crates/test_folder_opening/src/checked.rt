//! What was written, compared with what was expected.
use call_log::Written;
use recorded_folders::{Row, played, whole};
use std::alloc::Global;
use std::process::Abort;

/// Asserts that rows are called so.
pub(crate) fn check_rows<R: Abort>(rt: &R, alloc: Global, rows: &[Row]) {
    for (plan, lock, steps, want) in rows {
        check(rt, played(alloc, *plan, *lock, steps), whole(want).as_str());
    }
}

/// Asserts that just this was written.
pub(crate) fn check<R: Abort>(rt: &R, written: Written, want: &str) {
    assert_eq!(rt; written.as_str(), want);
}
