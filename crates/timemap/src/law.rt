//! What holds of every index.
ghost use Rattle.timemap.specs.Order.{KeysAreInOrder};

/// The entries of a key in an index are in order of their dates.
pub fn entries_of_a_key_are_in_order()
    ensures { KeysAreInOrder }
{}
