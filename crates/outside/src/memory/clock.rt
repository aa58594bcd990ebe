//! A clock in memory.
ghost use Rattle.std.specs.Prelude.{◌≡◌, ◌≤◌, true};
ghost use Rattle.outside.specs.Calls.{one_more};
ghost use Rattle.outside.specs.MemoryClock.{answer_at, first_answers};

use crate::Clock;
use capture::Items;
use std::marker::Model;

/// A clock that answers a list in order, and then its last answer again, or 0 where the list is empty.
#[derive(Drop)]
pub struct MemoryClock {
    list: Items<u64>,
    // How often it was asked. The count stands still at its greatest value.
    asked: u64,
}

impl Model for MemoryClock {
    ghost use Rattle.outside.specs.MemoryClock.{ClockInMemory};

    ghost Value = { ClockInMemory };

    ghost view = { λ clock. record { list = clock.list; asked = clock.asked } };
}

impl MemoryClock {
    /// A clock that hasn't been asked yet.
    pub fn new(answers: Vec<u64>) -> MemoryClock
        ensures { result ≡ record { list = answers.items; asked = 0 } }
    {
        MemoryClock {
            list: Items::of(answers),
            asked: 0,
        }
    }
}

impl Clock for MemoryClock {
    ghost tells = { true };

    ghost answers = { λ clock. first_answers clock.list clock.asked };

    fn now(&mut self) -> u64
        ensures value { result ≡ answer_at self.old.list self.old.asked }
        ensures after { self.new ≡ record self.old { asked = one_more self.old.asked } }
        ensures later { self.old.asked ≤ self.new.asked }
    {
        let list = self.list.as_slice();
        let answer = match list.get(self.asked as usize) {
            Some(answer) => *answer,
            None => match list.last() {
                Some(last) => *last,
                None => 0,
            },
        };
        self.asked = self.asked.saturating_add(1);
        answer
    }
}
