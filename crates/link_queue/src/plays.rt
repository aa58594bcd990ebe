//! What each step on the table tells.
ghost use Rattle.link_queue.specs.Rule.{spent};
ghost use Rattle.link_queue.specs.Steps.{puts, audits, less_one, one_part, waiting_of, rest_of, others_of, taker_of, both};

use crate::view::Holding;
use atomic_table::{Join, Play, Split};

pub(crate) struct Puts;

impl<K> Play<K, Holding<K>> for Puts {
    ghost then = { puts };
}

pub(crate) struct Audits;

impl<K> Play<K, Holding<K>> for Audits {
    ghost then = { audits };
}

pub(crate) struct Cuts;

impl<K> Split<Holding<K>> for Cuts {
    ghost left = { less_one };

    ghost right = { one_part };
}

pub(crate) struct Gives;

impl<K> Split<Holding<K>> for Gives {
    ghost left = { waiting_of };

    ghost right = { rest_of };
}

pub(crate) struct Takes;

impl<K> Split<Holding<K>> for Takes {
    ghost left = { others_of };

    ghost right = { taker_of };
}

pub(crate) struct Merges;

impl<K> Join<Holding<K>> for Merges {
    ghost both = { both };

    ghost spent = { spent };
}
