//! The lines of a stream, and the limits of a head.
ghost use Rattle.std.specs.Prelude.{◌≡◌, ◌==◌, ◌≤◌, ◌↔◌, Some, length, count_by, IsTrue};
ghost use Rattle.httparse.specs.Ascii.{line_feed};
ghost use Rattle.capture.specs.Head.{head_end, line_ends_len};
ghost use Rattle.capture.specs.Message.{IsShortHead};

use capture::{FIELD_LIMIT, HEAD_LIMIT};
use memchr::memchr_iter;

/// How many bytes of line ends, CR LF or LF, stand at the front.
pub fn line_ends_len(stream: &[u8]) -> usize
    ensures value { result ≡ line_ends_len stream.now }
    ensures fits { result ≤ length stream.now }
{
    let mut rest = stream;
    loop {
        rest = match rest {
            [b'\n', others @ ..] => others,
            [b'\r', b'\n', others @ ..] => others,
            _ => return stream.len() - rest.len(),
        };
    }
}

/// How many line feeds there are.
pub fn count_line_feeds(text: &[u8]) -> usize
    ensures { result ≡ count_by (λ b. b == line_feed) text.now }
{
    memchr_iter(b'\n', text).count()
}

/// Whether a head, which begins at once and ends with the text, is within the limits.
pub fn is_short_head(head: &[u8]) -> bool
    requires ends { head_end head.now ≡ Some (length head.now) }
    requires at_once { line_ends_len head.now ≡ 0 }
    ensures { IsTrue result ↔ IsShortHead head.now }
{
    if head.len() > HEAD_LIMIT {
        return false;
    }
    // The first line and the empty line are no fields.
    count_line_feeds(head) <= FIELD_LIMIT + 2
}
