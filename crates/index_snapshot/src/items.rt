//! The items of a list that is published.
ghost use Rattle.std.specs.Prelude.{List};
ghost use Rattle.index_entry.specs.Facts.{Facts};

/// What the items of a list bring into its index, and which lists may be published. Only clauses know of it.
pub trait Brings<E> {
    /// The entries of an item: the first one may bring many, each later one brings one at most.
    ghost entries: { E → List Facts };

    /// What holds of each list that is published.
    ghost fits: { List E → Type 0 };
}
