//! The captures of one key, by date and number.
ghost use Rattle.std.specs.Prelude.{◌≡◌, false, None, Some, IfOk, IsTrue, OnOk, OnErr};
ghost use Rattle.cdxj_index.specs.declared.entry_map.captures.Captures.TheVariants.{One, Many};
ghost use Rattle.cdxj_index.specs.Maps.{Changes, HoldsOnly, HoldsSame, IsInOrder, entry_of};

use crate::shared::Shared;
use capture::Memory;
use index_entry::Moment;
use std::alloc::Global;
use std::collections::BTreeMap;

/// Captures by date and number, behind a pointer, since a map takes more room than the one capture that most keys have.
pub(crate) type Places = Box<BTreeMap<Moment, Shared>>;

/// The captures of a key. Most keys have one, for which a node would take more memory than the entry itself.
#[derive(Drop)]
pub(crate) enum Captures {
    One(Shared),
    Many(Places),
}

impl Captures {
    /// Puts an entry in its place. After `Memory` the captures are as they were.
    pub fn insert(&mut self, alloc: Global, moment: Moment, entry: Shared) -> Result<(), Memory>
        requires { IsInOrder self.old }
        ensures ordered { IsInOrder self.new }
        ensures ok { OnOk result (Changes self.old self.new moment (Some (entry_of entry))) }
        ensures err { OnErr result (HoldsSame self.old self.new) }
    {
        match self {
            Captures::One(first) => {
                let places = both_of(alloc, first, moment, entry)?;
                *self = Captures::Many(places);
                Ok(())
            }
            Captures::Many(places) => {
                places.insert(moment, entry)?;
                Ok(())
            }
        }
    }

    /// Takes the entry of a date and number out, or tells that no other one is left, in which case it may stay.
    pub fn remove(&mut self, moment: Moment) -> bool
        requires { IsInOrder self.old }
        ensures ordered { result ≡ false → IsInOrder self.new }
        ensures taken { result ≡ false → Changes self.old self.new moment None }
        ensures only { IsTrue result → HoldsOnly self.old moment }
    {
        match self {
            Captures::One(entry) => {
                let place = entry.facts().moment();
                moment.cmp(&place).is_eq()
            }
            Captures::Many(places) => {
                places.remove(&moment);
                places.is_empty()
            }
        }
    }
}

/// The only capture of a key and another one.
fn both_of(alloc: Global, first: &Shared, moment: Moment, entry: Shared) -> Result<Places, Memory>
    ensures ordered { IfOk result (λ places. IsInOrder (Many places)) }
    ensures changes { IfOk result (λ places. Changes (One first.now) (Many places) moment (Some (entry_of entry))) }
{
    let shared = first.share()?;
    let mut places = BTreeMap::new(alloc);
    places.insert(first.facts().moment(), shared)?;
    places.insert(moment, entry)?;
    let places = Box::new(alloc, places)?;
    Ok(places)
}
