//! What passes answer and leave, where it is as it has to be.
use archive_shelf::Counts;
use shelf_samples::StoreAnswer;

/// Whether the first capture keeps its wire, and the second one refers to it.
pub(crate) fn are_first_and_second(first: StoreAnswer, second: StoreAnswer) -> bool {
    first.number == 0 && first.same.is_none() && second.number == 1 && second.same == Some(0)
}

/// Whether an archive has two captures, of which one refers to the other.
pub(crate) fn has_both(counts: Counts) -> bool {
    counts.captures == 2 && counts.revisits == 1
}
