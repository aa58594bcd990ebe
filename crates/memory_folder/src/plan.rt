//! Which calls of a folder in memory fail, and how much a call does.
ghost use Rattle.std.specs.Prelude.{◌≡◌, ◌||◌, ◌==◌};
ghost use Rattle.std.specs.List.{list_any};
ghost use Rattle.disk_model.specs.Device.{is_burnt_down};

use std::alloc::Global;

/// Which calls fail, and how much each of them does. Calls are numbered from 0, those of the folder and those that find it.
#[derive(Drop)]
pub struct Plan {
    /// The numbers of the calls that fail.
    pub fails: Vec<u64>,
    /// After how many further calls each call fails.
    pub fuse: Option<u64>,
    /// Whether a call that is to fail does a part: a write its first half, a cut and a `make` all.
    pub in_part: bool,
    /// How many bytes a read or a write moves at most. A read moves one at least, where there is one.
    pub most: usize,
    /// How many calls were made.
    pub calls: u64,
}

impl Plan {
    /// No call fails, and each does all that it is to do.
    pub fn none(alloc: Global) -> Plan {
        Plan {
            fails: Vec::new(alloc),
            fuse: None,
            in_part: false,
            most: usize::MAX,
            calls: 0,
        }
    }

    /// Counts a call, and says whether it is to fail.
    pub(crate) fn begin(&mut self) -> bool
        ensures { result ≡ (list_any (λ number. number == self.old.calls) self.old.fails.items || is_burnt_down self.old.fuse) }
    {
        let listed = self.fails.contains(&self.calls);
        let burnt_down = self.fuse == Some(0);
        self.calls = self.calls.saturating_add(1);
        self.fuse = match self.fuse {
            Some(calls) => Some(calls.saturating_sub(1)),
            None => None,
        };
        listed || burnt_down
    }
}
