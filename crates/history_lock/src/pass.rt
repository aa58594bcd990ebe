//! The right to take turns.
ghost use Rattle.std.specs.Prelude.{◌≡◌, [], ◌∷◌, Some, slice_get};
ghost use Rattle.history_lock.specs.Known.{known_of, sole, AtRest};

use crate::view::View;
use atomic_table::{Badge, Seat};
use std::marker::Model;
use std::mem;

/// The right to take turns at one lock. It knows the list that it saw last, of entries of type `E`, and doesn't name the
/// type of the value behind the lock.
#[derive(Drop)]
pub struct Pass<E> {
    pub(crate) badge: Badge<View<E>>,
    pub(crate) number: u32,
}

impl<E> Model for Pass<E> {
    ghost use Rattle.history_lock.specs.Known.{Known, known_of, sole, IsPass};

    ghost Value = { Known E };

    ghost view = { λ p. known_of p.badge.table_id p.number (sole p.badge.views) };

    ghost invariant = { λ p. IsPass p.number p.badge.views };
}

impl<E> Pass<E> {
    /// The number that the entries of its turns name. It is the first of its numbers.
    pub fn number(&self) -> u32
        ensures number { result ≡ self.now.number }
        ensures first { slice_get self.now.numbers 0 ≡ Some result }
    {
        self.number
    }

    /// Its seat and its number.
    pub(crate) fn into_parts<S>(self) -> (Seat<S, View<E>>, u32)
        ensures known { self ≡ known_of result.0.table_id result.1 result.0.me.0 }
        ensures rest { AtRest result.1 result.0.me }
    {
        let Self { badge, number } = self;
        (badge.into_seat(), number)
    }
}

/// Takes the seat out of its place, for a call.
pub(crate) fn take_seat<S, E>(badge: &mut Badge<View<E>>) -> Seat<S, View<E>>
    requires { badge.old.views ≡ sole badge.old.views ∷ [] }
    ensures { (result.table_id ≡ badge.old.table_id) × (result.me ≡ (sole badge.old.views, [])) }
{
    mem::replace(badge, Badge::blank()).into_seat()
}
