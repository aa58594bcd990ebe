//! A turn that publishes what had no memory before.
use crate::published::Published;
use crate::turning::Act;
use disk_model::Disk;
use std::alloc::Global;
use std::sync::Wait;

/// What is stored is published, as far as it isn't.
pub struct Flush<'a, R> {
    /// A publication may wait for readers.
    pub rt: &'a R,
    pub alloc: Global,
}

impl<'a, R: Wait, D: Disk> Act<D> for Flush<'a, R> {
    ghost use Rattle.vault_turns.specs.Turns.{AddsNone};

    type Answer = ();

    ghost ready = { λ work found. Unit {0} };

    ghost does = { λ work tells entries found added answer. AddsNone tells found added };

    #[tactic(auto, using(crate::proofs::TellingLaws::adds_none))]
    fn act(self, _by: u32, value: &mut Published<D>) {
        let Flush { rt, alloc } = self;
        value.stays_sound();
        let _appended = value.catch_up(alloc);
        value.show(rt);
    }
}
