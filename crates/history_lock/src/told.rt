//! What a value behind the lock keeps, and what a turn does to it.
ghost use Rattle.std.specs.Prelude.{◌≡◌, ℕ, List, ◌++◌, length};
ghost use Rattle.history_lock.specs.Seen.{Adds};

/// A value that keeps a list of entries, each of which names the number of the pass that added it, or 0.
pub trait Told {
    type Entry;

    /// The entries, the oldest first.
    ghost list: { Self → List Self.Entry };

    /// The number of the pass that added the entry, or 0 where it stood there before the lock was made.
    ghost by: { Self.Entry → ℕ };

    /// How many entries there are.
    fn told(&self) -> u64
        ensures { result ≡ length (list self.now) };
}

/// What one turn does. It adds entries that name its pass, and takes none away.
pub trait Work<T: Told> {
    type Reply;

    /// The lists of entries at which the work can be done.
    ghost ready: { Self → List T.Entry → Type 0 };

    /// Of the work, the pass's number, the list found, what was added to it, and the reply.
    ghost does: { Self → ℕ → List T.Entry → List T.Entry → Self.Reply → Type 0 };

    /// Does the work for the pass of this number.
    fn act(self, by: u32, value: &mut T) -> Self::Reply
        requires { ready self (T.list value.old) }
        ensures { Adds T.by by (T.list value.old) (T.list value.new) (λ added. does self by (T.list value.old) added result) };
}
