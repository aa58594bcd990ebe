//! Beginnings of the list.
ghost use Rattle.std.specs.Prelude.{◌≡◌, MatchBool, IfOk, IfSome, [], ◌∷◌};
ghost use mathlib.Core.List.{IsPrefix};
ghost use Rattle.index_snapshot.specs.Edges.{head_of, with_item};

use capture::Memory;
use logbook::{Gain, Offer, Plain, Play, Rule, Seen, Start, Word};
use std::marker::Model;

/// The rule of the book.
pub struct Law;

impl<E> Rule<E, u64> for Law {
    ghost use Rattle.std.specs.Prelude.{[]};
    ghost use base.Fml.{ftrue};
    ghost use Rattle.index_snapshot.specs.Edges.{IsKept};

    ghost holds = { λ cells log. IsKept cells log };

    ghost first = { [] };

    ghost hinted = { λ n log. Unit {0} };

    ghost shows = { λ log. [] };

    ghost keeps = { λ names log. ftrue };

    ghost moves = { λ ask before after answer. Unit {0} };
}

/// Nothing is traded.
pub(crate) struct Nothing;

impl<E> Gain<E, u64> for Nothing {
    ghost use base.Fml.{ftrue};

    ghost after = { λ names about answer. ftrue };
}

/// A step that adds an item.
pub(crate) struct Add;

impl<E> Play<E, u64> for Add {
    ghost use Rattle.index_snapshot.specs.Edges.{Adds};

    ghost then = { Adds };
}

impl<E> Plain<E, E, u64> for Add {
    ghost use Rattle.std.specs.Prelude.{None};

    ghost ask = { λ item. item };

    ghost state = { λ item. None };
}

/// The word that counts the list's items.
pub(crate) type Count<E> = Word<E, u64, Law>;

/// A beginning of the list that was seen.
#[derive(Drop)]
pub struct Note<E> {
    len: u64,
    seen: Seen<E, u64, Law>,
}

impl<E> Model for Note<E> {
    ghost use Rattle.std.specs.Prelude.{◌≡◌, length};
    ghost use Rattle.index_snapshot.specs.Edges.{Edge};

    ghost Value = { Edge E };

    ghost view = { λ f. record { of = f.seen.book; items = f.seen.log } };

    ghost invariant = { λ f. f.len ≡ length f.seen.log };
}

impl<E> Note<E> {
    /// A new list of one item, and the word that counts its items.
    pub(crate) fn begun(item: &E) -> Result<(Note<E>, Count<E>), Memory>
        ensures items { IfOk result (λ made. made.0.items ≡ item.now ∷ []) }
        ensures head { IfOk result (λ made. made.1 ≡ head_of made.0.of) }
    {
        let (empty, word) = Note::open();
        match empty.after(&word, item) {
            Some(note) => Ok((note, word)),
            None => Err(Memory),
        }
    }

    /// The beginning of a new list, and the word that counts its items.
    fn open() -> (Note<E>, Count<E>)
        ensures empty { result.0.items ≡ [] }
        ensures head { result.1 ≡ head_of result.0.of }
    {
        let (seen, mut first, _second) = Seen::open(Start::alone(), 0, 0);
        let word = Word::tracked(0, &mut first);
        (Note { len: 0, seen }, word)
    }

    /// The same beginning.
    pub fn again(&self) -> Note<E>
        ensures { result ≡ self.now }
    {
        Note {
            len: self.len,
            seen: self.seen.again(),
        }
    }

    /// Whether the list as it was seen here begins the list as it was seen there. Else it is the other way round.
    pub fn begins(&self, other: &Note<E>) -> bool
        requires { other.now.of ≡ self.now.of }
        ensures { MatchBool result (IsPrefix self.now.items other.now.items) (IsPrefix other.now.items self.now.items) }
    {
        let mut both = self.seen.again();
        both.learn(&other.seen);
        self.len <= other.len
    }

    /// The list with an item more. None only where the count is at its end, or somebody else counts.
    pub(crate) fn after(&self, word: &Count<E>, item: &E) -> Option<Note<E>>
        requires { word.now ≡ head_of self.now.of }
        ensures { IfSome result (λ note. note ≡ with_item self.now item.now) }
    {
        let len = self.len;
        if len == u64::MAX {
            return None;
        }
        let mut seen = self.seen.again();
        let mut offer: Offer<E, u64, Law, Nothing> = seen.plain::<Nothing, E, Add>(item);
        let mut pen = seen.no_pen();
        let found = word.compare_exchange::<Add, Nothing>(
            len,
            len + 1,
            &mut seen,
            &mut offer,
            &mut pen,
        );
        if found != len {
            return None;
        }
        Some(Note { len: len + 1, seen })
    }
}
