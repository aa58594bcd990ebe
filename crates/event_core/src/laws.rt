//! What stands whatever events come.
ghost use Rattle.event_core.specs.Acknowledged.{AcknowledgedStay, OtherHasOneMore};
ghost use Rattle.event_core.specs.Running.{DisksHoldWhatIsAcknowledged, NewDisksStart};

/// Each capture that a reply acknowledged stands in every later book, in order, and in the one that an opening may give in its place.
pub fn acknowledged_captures_stay()
    ensures { AcknowledgedStay }
{}

/// The other book that an opening may give has the captures of the book, and one more at most behind them.
pub fn one_more_at_most()
    ensures { OtherHasOneMore }
{}

/// A new disk has no volumes and no checkpoints, so a run may begin with it, in any namespace.
pub fn new_disks_start()
    ensures { NewDisksStart }
{}

/// However a run ends, its disk holds each capture that a reply acknowledged, in order.
pub fn disks_hold_what_is_acknowledged()
    ensures { DisksHoldWhatIsAcknowledged }
{}
