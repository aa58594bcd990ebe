//! The steps of a case, one after the other.
use crate::deed::Deed;
use crate::ends::{is_some, kept};
use crate::outcome::Outcome;
use capture::Memory;
use std::alloc::Global;

/// What does the steps of a case.
pub trait Player {
    /// What is held between two steps.
    type Held: Drop;

    /// Does a step, and puts what it tells. `None` where it is none.
    fn step(
        &mut self,
        alloc: Global,
        outcome: &mut Outcome,
        held: Self::Held,
        step: &Deed,
    ) -> Result<Option<Self::Held>, Memory>;
}

/// What the steps tell. `None` where one is none.
pub fn outcome_of_steps<P: Player>(
    alloc: Global,
    player: &mut P,
    first: P::Held,
    steps: &[Deed],
) -> Result<Option<Outcome>, Memory> {
    let mut outcome = Outcome::new(alloc);
    let held = behind_steps(alloc, &mut outcome, player, first, steps);
    kept(outcome, is_some(held))
}

/// What is held behind the steps that are due. `None` where one is none.
fn behind_steps<P: Player>(
    alloc: Global,
    outcome: &mut Outcome,
    player: &mut P,
    first: P::Held,
    steps: &[Deed],
) -> Result<Option<P::Held>, Memory> {
    let mut held = first;
    for step in steps {
        if !step.is_due(outcome) {
            continue;
        }
        held = match player.step(alloc, outcome, held, step)? {
            Some(held) => held,
            None => return Ok(None),
        };
    }
    Ok(Some(held))
}
