//! A value that only clauses see.
ghost use Rattle.std.specs.Prelude.{◌≡◌};
ghost use base.Fml.{ftrue};

use std::marker::{Model, PhantomData};

/// Which values may be chosen, by what is passed.
pub trait Choice<A, T> {
    ghost holds: { A → T → Type 0 };
}

/// A `T` as clauses see it. It has no bytes and owns nothing.
pub struct Shown<T> {
    marker: PhantomData<T>,
    /// What it is.
    pub ghost value: { T },
}

impl<T> Model for Shown<T> {
    ghost also_owns = { λ _. ftrue };
}

impl<T> Shown<T> {
    /// The value that the caller's proof names. It may be made of what is passed, and of ghost values that the caller has.
    pub fn told_by<A>(from: &A) -> Shown<T>
        ghost named: { T }
        ensures { result.value ≡ named }
    {
        let _ = from;
        Shown {
            marker: PhantomData,
        }
    }

    /// A value that may be chosen by what is passed, where there is one.
    pub fn chosen<A, K: Choice<A, T>>(from: &A) -> Shown<T>
        requires { (value : T) × K.holds from.now value }
        ensures { K.holds from.now result.value }
    {
        let _ = from;
        Shown {
            marker: PhantomData,
        }
    }
}

impl<T> Drop for Shown<T> {
    fn drop(self) {
        let Self { marker: _ } = self;
    }
}
