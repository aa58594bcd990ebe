//! The first turn of a store.
use crate::commit::Commit;
use crate::published::Published;
use crate::turning::Act;
use archive_core::compared_payloads_serve_later;
use archive_shelf::{Looked, Receipt, StoreFault};
use capture::{Digest, Taken, growth_keeps_captures};
use disk_model::Disk;
use index_snapshot::Note;
use message_body::Payload;
use std::alloc::Global;
use std::sync::Wait;
use vault_lists::Item;

/// What the first turn of a store answers.
#[derive(Drop)]
pub enum FirstAnswer {
    /// What the store answers: it was refused, or no capture had its payload and it was stored there and then.
    Whole(Result<Receipt, StoreFault>),
    /// A capture has its payload. What was read for that may have taken long, so others have their turns before it is stored.
    Compared(Looked),
}

/// A capture that is to be stored, whose payload is looked for among all captures, byte for byte.
pub struct FirstTurn<'a, 't, R> {
    /// A publication may wait for readers.
    pub rt: &'a R,
    pub alloc: Global,
    pub taken: &'t Taken,
    /// The capture's payload. What is joined of a chunked one is let go once it was looked for.
    pub payload: Payload<'t>,
    /// The digest of the payload.
    pub digest: Digest,
    /// What the pass has seen of the list that is published.
    pub seen: &'a Note<Item>,
}

impl<'a, 't, R: Wait, D: Disk> Act<D> for FirstTurn<'a, 't, R> {
    ghost use Rattle.vault_turns.specs.FirstTurns.{Begins, IsReady};
    ghost use Rattle.vault_turns.specs.History.{Names};
    ghost use Rattle.vault_lists.specs.Items.{shown_in};

    type Answer = FirstAnswer;

    ghost ready = { λ work found. IsReady work.taken.now work.payload work.digest × Names found work.seen.now.of };

    ghost does = { λ work tells entries found added answer. Begins tells (shown_in work.seen.now.items) work.taken.now work.payload found added answer };

    fn act(self, by: u32, value: &mut Published<D>) -> FirstAnswer {
        compared_payloads_serve_later();
        growth_keeps_captures();
        let FirstTurn {
            rt,
            alloc,
            taken,
            payload,
            digest,
            seen,
        } = self;
        let compared = value.compare(by, alloc, payload.as_slice(), &digest);
        // The group that is made of the capture takes as much again.
        drop(payload);
        match compared {
            Ok(looked) => match looked.same {
                Some(_) => FirstAnswer::Compared(looked),
                None => {
                    let commit = Commit {
                        rt,
                        alloc,
                        taken,
                        digest,
                        looked,
                        seen,
                    };
                    FirstAnswer::Whole(commit.act(by, value))
                }
            },
            Err(fault) => FirstAnswer::Whole(Err(fault)),
        }
    }
}
