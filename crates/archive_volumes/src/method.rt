//! Methods of requests.
ghost use Rattle.std.specs.Prelude.{◌≡◌};
ghost use Rattle.capture.specs.Methods.{asks_for_head};

/// Whether a request of this method asks for a head alone (RFC 9110, section 9.3.2).
pub fn is_head(method: &[u8]) -> bool
    ensures { result ≡ asks_for_head method.now }
{
    method == b"HEAD".as_slice()
}
