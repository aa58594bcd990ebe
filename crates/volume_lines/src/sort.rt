//! Lines in the order of a checkpoint.
ghost use Rattle.std.specs.Prelude.{◌≡◌};
ghost use Rattle.std.specs.List.Sorted.{IsPermutation, IsStrictlySortedBy};
ghost use Rattle.checkpoint.specs.Checkpoints.{line_order};
ghost use Rattle.volume_lines.specs.OfGroups.{line_numbers};

use cdxj_line::Line;
use std::cmp::Ordering;

/// Puts lines whose numbers rise into the order of their keys, their dates and their numbers.
pub(crate) fn sort_lines(lines: &mut Vec<Line>)
    requires numbered { IsStrictlySortedBy line_numbers lines.old.items }
    ensures same { IsPermutation lines.old.items lines.new.items }
    ensures in_order { IsStrictlySortedBy line_order lines.new.items }
{
    lines.sort_unstable_by(|a, b| compared(a, b));
}

/// Which of two lines comes first.
fn compared(a: &Line, b: &Line) -> Ordering
    ensures { result ≡ line_order a.now b.now }
{
    a.key
        .cmp(&b.key)
        .then(a.date.cmp(&b.date).then(a.number.cmp(&b.number)))
}
