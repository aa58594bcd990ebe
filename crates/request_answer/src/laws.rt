//! What is promised to those who build on the definitions.
ghost use Rattle.std.specs.Prelude.{◌≡◌};
ghost use Rattle.request_answer.specs.Laws.{StoredCapturesHaveTheirPayload};
ghost use Rattle.request_answer.specs.declared.TheConstants.{REQUEST_LIMIT};

use archive_shelf::stored_captures_stand_behind;
use capture::{captures_have_one_payload, growth_keeps_captures};

/// A response that was passed on is the archive's last capture, with the payload of the bytes that came, where the book is sound.
pub fn stored_captures_have_their_payload()
    ensures { StoredCapturesHaveTheirPayload }
{
    stored_captures_stand_behind();
    growth_keeps_captures();
    captures_have_one_payload();
}

/// What the limit is that the definitions speak of: the answer to the 1,000th request of a connection closes it.
pub fn limits_are_these()
    ensures { REQUEST_LIMIT ≡ 1000 }
{}
