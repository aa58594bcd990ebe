//! That how many captures stand in files is one.
ghost use Rattle.archive_opening.specs.Counting.{BytesHaveOneCount};

/// What bytes say of how many captures each volume has is one: books of which it is true have the same volumes by how many captures they
/// have, in one namespace, if there are any. It does nothing: what it says is proved.
pub fn bytes_have_one_count()
    ensures { BytesHaveOneCount }
{}
