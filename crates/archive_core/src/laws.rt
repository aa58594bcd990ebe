//! What comparing promises to those who store later.
ghost use Rattle.archive_core.specs.Looking.{DigestsServe, FoundServesLater};

use archive_shelf::looked_stays_right;
use capture::wires_have_one_payload;

/// What was found of a capture's payload is right of the capture, also in a book that has grown since: what `compare` answered
/// serves `store_after` at any later time. The payload's digest is that of the capture.
pub fn compared_payloads_serve_later()
    ensures digest { DigestsServe }
    ensures found { FoundServesLater }
{
    looked_stays_right();
    wires_have_one_payload();
}
