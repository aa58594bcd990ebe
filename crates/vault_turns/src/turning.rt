//! What a pass does in its turn, and what is told of the list behind it.
use crate::published::Published;
use disk_model::Disk;
use history_lock::Work;
use vault_lists::Listed;

/// What a pass does in its turn with what lies behind the lock.
pub trait Act<D: Disk> {
    ghost use Rattle.std.specs.Prelude.{Bool, List};
    ghost use Rattle.index_entry.specs.Facts.{Facts};
    ghost use Rattle.index_snapshot.specs.Entries.{entries_in};
    ghost use Rattle.vault_lists.specs.Items.{brings_of};
    ghost use Rattle.history_lock.specs.Seen.{Adds};
    ghost use Rattle.vault_turns.specs.History.{by_of, is_told};
    ghost use Rattle.vault_turns.specs.declared.noted.Noted.{Noted};

    type Answer;

    /// The histories at which it can be done.
    ghost ready: { Self → List Noted → Type 0 };

    /// Of the act, whether the book is told, the entries of the list as it stands behind it, the history found, what was added to that, and the
    /// answer.
    ghost does: { Self → Bool → List Facts → List Noted → List Noted → Self.Answer → Type 0 };

    /// Does it for the pass of this number.
    fn act(self, by: u32, value: &mut Published<D>) -> Self::Answer
        requires { ready self value.old.kept.history }
        ensures { Adds by_of by value.old.kept.history value.new.kept.history (λ added. does self (is_told value.old.kept.history) (entries_in brings_of value.new.print.full) value.old.kept.history added result) };
}

/// An act, behind which the list is told as it stands.
pub struct Telling<A> {
    pub act: A,
}

impl<D: Disk, A: Act<D>> Work<Published<D>> for Telling<A> {
    ghost use Rattle.std.specs.Prelude.{◌++◌};
    ghost use Rattle.index_snapshot.specs.Entries.{entries_in};
    ghost use Rattle.vault_lists.specs.Items.{brings_of};
    ghost use Rattle.vault_turns.specs.History.{is_told};
    ghost use Rattle.vault_turns.specs.Listing.{IsListed};

    type Reply = (A::Answer, Listed);

    ghost ready = { λ work found. A.ready work.act found };

    ghost does = { λ work by found added reply. A.does work.act (is_told found) (entries_in brings_of reply.1.note.items) found added reply.0 × IsListed (found ++ added) reply.1.note reply.1.whole };

    fn act(self, by: u32, value: &mut Published<D>) -> (A::Answer, Listed) {
        let Telling { act } = self;
        let answer = act.act(by, value);
        (answer, value.tell())
    }
}
