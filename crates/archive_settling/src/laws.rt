//! What writing checkpoints keeps.
ghost use Rattle.archive_settling.specs.Settling.{KeepsSettled};

/// Writing the checkpoints that are missing makes none wrong, at whatever moment a crash stops it: where the finished checkpoints of an image were those
/// of a book's sealed volumes, so are those of each image that goes with it.
pub fn settling_keeps_checkpoints_right()
    ensures { KeepsSettled }
{}
