//! Texts at the front of bytes.
ghost use Rattle.std.specs.Prelude.{◌≡◌, ◌++◌, IfOk, IfErr};
ghost use Rattle.record_opening.specs.Stops.{Differs};

use crate::stop::Stop;

/// What stands behind a text that the bytes begin with.
pub fn strip<'b>(bytes: &'b [u8], text: &[u8]) -> Result<&'b [u8], Stop>
    ensures ok { IfOk result (λ rest. bytes.now ≡ text.now ++ rest.now) }
    ensures err { IfErr result (λ stop. Differs stop bytes.now text.now) }
{
    if bytes.len() < text.len() {
        let (front, _) = text.split_at(bytes.len());
        if front == bytes {
            return Err(Stop::Open);
        }
        return Err(Stop::Wrong);
    }
    let (front, rest) = bytes.split_at(text.len());
    if front == text {
        Ok(rest)
    } else {
        Err(Stop::Wrong)
    }
}
