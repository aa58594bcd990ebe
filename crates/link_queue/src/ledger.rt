//! The ledger: which links were put, which were taken, and which wait.
ghost use Rattle.std.specs.Prelude.{◌≡◌, ◌+◌, ◌-◌, ◌<◌, [], ◌∷◌, ◌++◌, take, drop};
ghost use Rattle.link_queue.specs.Accounts.{all_parts, newcomer, with_put, merged, IsWhole};
ghost use Rattle.link_queue.specs.Rule.{sole};

use crate::plays::{Audits, Cuts, Gives, Merges, Puts, Takes};
use crate::view::Holding;
use atomic_table::{Badge, Seat, Table, TableRule};
use std::alloc::{AllocError, Global};
use std::marker::{Brand, Model, PhantomData};
use std::mem;

/// Which ledger it is. Each call of a program picks it.
pub trait Naming {
    ghost use Rattle.link_queue.specs.Accounts.{LedgerId};

    ghost ledger: { LedgerId };
}

impl Naming for Brand {
    ghost ledger = { record { words = 0; slots = 0; views_name = 0; atom = 0; block = 0; offset = 0; slot_names = [] } };
}

/// The rule: what was put was taken or waits.
pub struct Sums;

impl<K> TableRule<K, Holding<K>, ()> for Sums {
    ghost use Rattle.link_queue.specs.Rule.{Kept, founder};

    ghost holds = { λ _. Kept };

    ghost first = { λ _. founder };
}

pub(crate) type Board<K> = Table<K, Holding<K>, (), Sums, Global>;

pub(crate) type Place<K> = Seat<K, Holding<K>>;

/// Takes the seat out of its place, for a call.
fn take_seat<K>(badge: &mut Badge<Holding<K>>) -> Place<K>
    requires { badge.old.views ≡ sole badge.old.views ∷ [] }
    ensures { (result.table_id ≡ badge.old.table_id) × (result.me ≡ (sole badge.old.views, [])) }
{
    mem::replace(badge, Badge::blank()).into_seat()
}

/// A share of the ledger: what was put and taken by who has it.
#[derive(Drop)]
pub struct Share<K, J: Naming> {
    badge: Badge<Holding<K>>,
    of: PhantomData<J>,
}

impl<K, J: Naming> Model for Share<K, J> {
    ghost use Rattle.std.specs.Prelude.{◌≡◌};
    ghost use Rattle.link_queue.specs.Accounts.{Account};
    ghost use Rattle.link_queue.specs.Rule.{account_of, sole, IsShare};

    ghost Value = { Account K };

    ghost view = { λ s. account_of (sole s.badge.views) };

    ghost invariant = { λ s. (s.badge.table_id ≡ J.ledger) × IsShare s.badge.views };
}

/// The queue's own seat: the links that wait.
#[derive(Drop)]
pub(crate) struct Store<K, J: Naming> {
    badge: Badge<Holding<K>>,
    of: PhantomData<J>,
}

impl<K, J: Naming> Model for Store<K, J> {
    ghost use Rattle.std.specs.Prelude.{◌≡◌, List, [], ◌∷◌};
    ghost use Rattle.link_queue.specs.Rule.{keeper, sole};

    ghost Value = { List K };

    ghost view = { λ s. (sole s.badge.views).held };

    ghost invariant = { λ s. (s.badge.table_id ≡ J.ledger) × (s.badge.views ≡ keeper (sole s.badge.views).held ∷ []) };
}

/// A ledger in which nothing was put, and which has no name yet.
#[derive(Drop)]
pub(crate) struct Blank<K> {
    board: Board<K>,
    badge: Badge<Holding<K>>,
}

impl<K> Model for Blank<K> {
    ghost use Rattle.std.specs.Prelude.{◌≡◌, [], ◌∷◌};
    ghost use Rattle.link_queue.specs.Accounts.{LedgerId};
    ghost use Rattle.link_queue.specs.Rule.{founder};

    ghost Value = { LedgerId };

    ghost view = { λ b. b.board.shared.table_id };

    ghost invariant = { λ b. (b.board.shared.table_id.words ≡ 1) × (b.badge.table_id ≡ b.board.shared.table_id) × (b.badge.views ≡ founder ∷ []) };
}

impl<K> Blank<K> {
    /// A ledger in which nothing is written yet, with the seat of its founder.
    pub(crate) fn new(alloc: Global) -> Result<Blank<K>, AllocError> {
        let (board, seat) = Table::of_words(alloc, &[0], &())?;
        Ok(Blank {
            board,
            badge: seat.into_badge(),
        })
    }

    /// The ledger under a name, the queue's own seat and a share with all other parts.
    pub(crate) fn named<J: Naming>(self) -> (Ledger<K, J>, Store<K, J>, Share<K, J>)
        requires { self ≡ J.ledger }
        ensures store { result.1 ≡ [] }
        ensures share { result.2 ≡ record newcomer { parts = all_parts - 1 } }
    {
        let Blank { board, badge } = self;
        let mut seat = badge.into_seat();
        let store = board.shared.split_seat::<Cuts>(&mut seat);
        (
            Ledger {
                board,
                of: PhantomData,
            },
            Store {
                badge: store.into_badge(),
                of: PhantomData,
            },
            Share {
                badge: seat.into_badge(),
                of: PhantomData,
            },
        )
    }
}

/// A ledger under a name.
#[derive(Drop)]
pub(crate) struct Ledger<K, J: Naming> {
    board: Board<K>,
    of: PhantomData<J>,
    ghost named: { board.shared.table_id ≡ J.ledger },
    ghost word: { board.shared.table_id.words ≡ 1 },
}

impl<K, J: Naming> Ledger<K, J> {
    /// Cuts one part off.
    pub(crate) fn cut(&self, share: &mut Share<K, J>) -> Share<K, J>
        requires { 1 < share.old.parts }
        ensures cut { result ≡ newcomer }
        ensures rest { share.new ≡ record share.old { parts = share.old.parts - 1 } }
    {
        let Share { badge, of: _ } = share;
        let mut seat = take_seat(badge);
        let cut = self.board.shared.split_seat::<Cuts>(&mut seat);
        *badge = seat.into_badge();
        Share {
            badge: cut.into_badge(),
            of: PhantomData,
        }
    }

    /// Makes one share of two.
    pub(crate) fn merge(&self, share: &mut Share<K, J>, other: Share<K, J>)
        ensures { share.new ≡ merged share.old other }
    {
        let Share { badge, of: _ } = share;
        let Share {
            badge: spent,
            of: _,
        } = other;
        let mut seat = take_seat(badge);
        self.board
            .shared
            .join_seat::<Merges>(&mut seat, spent.into_seat());
        *badge = seat.into_badge();
    }

    /// The link was put by the share, and waits behind the others.
    pub(crate) fn put(&self, share: &mut Share<K, J>, store: &mut Store<K, J>, link: &K)
        ensures share { share.new ≡ with_put share.old link.now }
        ensures store { store.new ≡ store.old ++ link.now ∷ [] }
    {
        let Share { badge, of: _ } = share;
        let Store { badge: kept, of: _ } = store;
        let desk = &self.board.shared;
        let mut seat = take_seat(kept);
        desk.join_seat::<Merges>(&mut seat, take_seat(badge));
        desk.compare_exchange_with::<Puts>(&mut seat, 0, 0, 0, link);
        let rest = desk.split_seat::<Gives>(&mut seat);
        *badge = rest.into_badge();
        *kept = seat.into_badge();
    }

    /// The first link that waits was taken by the share.
    pub(crate) fn take(&self, share: &mut Share<K, J>, store: &mut Store<K, J>)
        ensures share { share.new ≡ record share.old { taken = share.old.taken ++ take 1 store.old } }
        ensures store { store.new ≡ drop 1 store.old }
    {
        let Share { badge, of: _ } = share;
        let Store { badge: kept, of: _ } = store;
        let desk = &self.board.shared;
        let mut seat = take_seat(kept);
        desk.join_seat::<Merges>(&mut seat, take_seat(badge));
        let rest = desk.split_seat::<Takes>(&mut seat);
        *badge = rest.into_badge();
        *kept = seat.into_badge();
    }

    /// Who has all other parts learns that each link that was put was taken or waits.
    pub(crate) fn audit(&self, share: Share<K, J>, store: Store<K, J>)
        requires { share.parts ≡ all_parts - 1 }
        ensures { IsWhole share.put share.taken store }
    {
        let Share { badge, of: _ } = share;
        let Store { badge: kept, of: _ } = store;
        let desk = &self.board.shared;
        let mut seat = kept.into_seat();
        desk.join_seat::<Merges>(&mut seat, badge.into_seat());
        desk.load::<Audits>(&mut seat, 0);
    }
}
