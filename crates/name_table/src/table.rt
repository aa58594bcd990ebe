//! Tables of names, searched by halves with ASCII case ignored.
ghost use Rattle.std.specs.Prelude.{◌≡◌, List, ℕ, map, IsTrue};
ghost use Rattle.std.specs.Cmp.Lexicographic.{slice_cmp};
ghost use Rattle.std.specs.List.{list_all};
ghost use Rattle.std.specs.Ordering.{nat_cmp};
ghost use Rattle.std.specs.Str.{str_to_ascii_lowercase};
ghost use Rattle.name_table.specs.NameTable.{is_row, is_rising, is_table, is_named};

use std::cmp::Ordering;
use std::convert::AsStr;
use std::marker::Model;

/// A table of `N` names, in which ASCII case is ignored. A clause sees the list of its rows.
///
/// The rows are of a type that lends text: those of a `NameTable<N>` are `&'static str`.
// Rows of `[&'static str; N]` would get no generated proof, and `[T; N]` does.
#[derive(Drop)]
pub struct NameTable<const N: usize, T: AsStr = &'static str> {
    rows: [T; N],
}

impl<const N: usize, T: AsStr> Model for NameTable<N, T> {
    ghost Value = { List (List ℕ) };

    ghost view = { λ table. map T.text table.rows };

    ghost invariant = { λ table. IsTrue (is_table (map T.text table.rows)) };
}

impl<const N: usize, T: AsStr> NameTable<N, T> {
    /// The table of these rows, each of which has one or more bytes, all from 0x20 to 0x7E and
    /// none of A to Z, and which rise strictly in byte order.
    pub fn new(rows: [T; N]) -> NameTable<N, T>
        requires each_is_a_row { IsTrue (list_all is_row (map T.text rows)) }
        requires rising { IsTrue (is_rising (map T.text rows)) }
        ensures { result ≡ map T.text rows }
    {
        NameTable { rows }
    }

    /// Whether a row equals the name, ASCII case ignored (RFC 9110 section 5.1).
    ///
    /// A binary search, which takes no memory.
    pub fn has(&self, name: &[u8]) -> bool
        ensures { result ≡ is_named self.now name.now }
    {
        self.rows
            .binary_search_by(|row| compare_lowered(row.as_str(), name))
            .is_ok()
    }
}

/// Compares a row with a name as the name reads in lower case.
fn compare_lowered(row: &str, name: &[u8]) -> Ordering
    ensures { result ≡ slice_cmp nat_cmp row.now (str_to_ascii_lowercase name.now) }
{
    row.bytes()
        .cmp(name.iter().map(|byte| byte.to_ascii_lowercase()))
}

#[cfg(test)]
mod tests {
    use super::*;

    /// No case reaches it: every table of the program has more rows.
    #[test]
    fn searches_a_table_of_one_row(rt: HostRuntime) {
        let table = NameTable::<1>::new(["a href"]);
        assert!(rt; table.has(b"A hreF"));
        for name in [b"".as_slice(), b"a", b"a hre", b"a href ", b"a hreg"] {
            assert!(rt; !table.has(name), "{name:?}");
        }
    }
}
