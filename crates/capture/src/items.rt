//! A list of values that owns its memory.
ghost use Rattle.std.specs.Prelude.{◌≡◌};

use std::marker::Model;

/// Values in order. A contract sees the list of them.
#[derive(Drop)]
pub struct Items<X> {
    list: Vec<X>,
}

impl<X> Model for Items<X> {
    ghost use Rattle.std.specs.Prelude.{List};

    ghost Value = { List X };

    ghost view = { λ v. v.list.items };
}

impl<X> Items<X> {
    /// These values. Takes no memory.
    pub fn of(list: Vec<X>) -> Items<X>
        ensures { result ≡ list.items }
    {
        Items { list }
    }

    /// The values in place.
    pub fn as_slice(&self) -> &[X]
        ensures { result.now ≡ self.now }
    {
        self.list.as_slice()
    }
}
