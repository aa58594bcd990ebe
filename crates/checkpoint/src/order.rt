//! The order of lines.
ghost use Rattle.std.specs.Prelude.{◌≡◌};
ghost use Rattle.std.specs.Ordering.{is_lt};
ghost use Rattle.checkpoint.specs.Checkpoints.{line_order};

use cdxj_line::Line;
use std::cmp::Ordering;

/// Whether the first of two lines comes before the second: by the bytes of the key, then by date, then by number.
pub(crate) fn comes_before(first: &Line, second: &Line) -> bool
    ensures { result ≡ is_lt (line_order first.now second.now) }
{
    match first.key.cmp(&second.key) {
        Ordering::Less => true,
        Ordering::Equal => (first.date, first.number) < (second.date, second.number),
        Ordering::Greater => false,
    }
}
