//! What the definitions promise to those who build on them.
ghost use Rattle.http_wire.specs.Decisions.{ArrivalsAreOne, FirstsAreOne, MessagesStay, RefusalsStay};
ghost use Rattle.http_wire.specs.Storing.{ResponsesCanBeStored};

/// What is decided of a stream stays so, however the stream goes on: that a message stands first, and that a fault does.
pub fn decisions_stay()
    ensures messages { MessagesStay }
    ensures refusals { RefusalsStay }
{}

/// One thing stands first in a stream: a message of one length, one fault, nothing yet, or the beginning of a message; and an
/// origin's stream comes to one thing behind its interim responses.
pub fn decisions_are_one()
    ensures firsts { FirstsAreOne }
    ensures arrivals { ArrivalsAreOne }
{}

/// A final response that was read is one to its request, whole or cut, and short enough to be stored.
pub fn responses_can_be_stored()
    ensures { ResponsesCanBeStored }
{}
