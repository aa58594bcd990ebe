//! A connection that waits for one who serves it.
ghost use Rattle.std.specs.Prelude.{◌≡◌, IsTrue};
ghost use Rattle.outside.specs.Link.{IsFresh};

use outside::Link;

/// A connection that the gate gave, and from which nobody has read yet.
#[derive(Drop)]
pub(crate) struct Fresh<L: Link> {
    pub(crate) link: L,
    ghost fresh: { IsTrue L.tells → IsFresh (L.traffic link) },
    ghost no_fault: { L.faults link ≡ 0 },
}

impl<L: Link> Fresh<L> {
    /// The connection.
    pub(crate) fn new(link: L) -> Fresh<L>
        requires fresh { IsTrue L.tells → IsFresh (L.traffic link) }
        requires no_fault { L.faults link ≡ 0 }
        ensures { result.link ≡ link }
    {
        Fresh { link }
    }
}
