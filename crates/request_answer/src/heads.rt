//! What the head of a request asks of the answer.
ghost use Rattle.std.specs.Prelude.{◌≡◌};
ghost use Rattle.capture.specs.Methods.{asks_for_head as method_asks};

use http_head::RequestHead;

/// Whether a request is answered with a head alone (RFC 9110, section 9.3.2).
pub fn asks_for_head(head: &RequestHead) -> bool
    ensures { result ≡ method_asks head.now.method }
{
    head.method.as_slice() == b"HEAD".as_slice()
}
