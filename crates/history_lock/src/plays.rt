//! What each step on the table tells.
ghost use Rattle.history_lock.specs.Steps.{drawn, looked, filled, noted, passed_on, emptied, settled, opener, opened, joined};
ghost use Rattle.history_lock.specs.Known.{spent};

use crate::told::Told;
use crate::view::View;
use atomic_table::{Join, Play, Split};

pub(crate) struct Draw;

impl<T: Told> Play<Option<T>, View<T::Entry>> for Draw {
    ghost then = { drawn };
}

pub(crate) struct Look;

impl<T: Told> Play<Option<T>, View<T::Entry>> for Look {
    ghost then = { looked T.list T.by };
}

pub(crate) struct Fill;

impl<T: Told> Play<Option<T>, View<T::Entry>> for Fill {
    ghost then = { filled };
}

pub(crate) struct Note;

impl<T: Told> Play<Option<T>, View<T::Entry>> for Note {
    ghost then = { noted T.list };
}

pub(crate) struct PassOn;

impl<T: Told> Play<Option<T>, View<T::Entry>> for PassOn {
    ghost then = { passed_on };
}

pub(crate) struct LeaveEmpty;

impl<T: Told> Play<Option<T>, View<T::Entry>> for LeaveEmpty {
    ghost then = { emptied };
}

pub(crate) struct Settle;

impl<T: Told> Play<Option<T>, View<T::Entry>> for Settle {
    ghost then = { settled T.by };
}

pub(crate) struct Opens;

impl<E> Split<View<E>> for Opens {
    ghost left = { opener };

    ghost right = { opened };
}

pub(crate) struct Merges;

impl<E> Join<View<E>> for Merges {
    ghost both = { joined };

    ghost spent = { spent };
}
