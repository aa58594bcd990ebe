//! A clock, which is asked for the time of a capture.
ghost use Rattle.std.specs.Prelude.{◌≡◌, ◌-◌, ◌^◌, ◌<◌, ◌≤◌, ◌++◌, ◌∷◌, [], List, ℕ, Bool, length, IsTrue};

/// A clock answers any number, also one below its last answer. No call of it fails.
pub trait Clock {
    /// Whether clocks of this type tell their answers.
    ghost tells: { Bool };

    /// The answers so far.
    ghost answers: { Self → List ℕ };

    /// The time, in milliseconds since 1970. The answer is added to the list where that then has fewer than
    /// 2^64 - 1, so that a clock in memory may count its answers in 64 bits.
    fn now(&mut self) -> u64
        ensures answers { IsTrue tells → length (answers self.new) < 2 ^ 64 - 1 →
            answers self.new ≡ answers self.old ++ result ∷ [] }
        ensures later { IsTrue tells → length (answers self.old) ≤ length (answers self.new) };
}
