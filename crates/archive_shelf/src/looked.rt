//! How far a payload was looked for.
ghost use Rattle.std.specs.Prelude.{◌≡◌, Bool, None, List, ℕ};
ghost use Rattle.capture.specs.declared.book.Book.{Book};
ghost use Rattle.archive_shelf.specs.Comparing.{IsRight};

/// What was found of a payload among the captures below a number.
#[derive(Clone, Copy)]
pub struct Looked {
    /// The number of captures that were looked at: those below it.
    pub upto: u32,
    /// The first of them that has the payload.
    pub same: Option<u32>,
}

impl Looked {
    /// Nothing was looked at. That is right of each payload.
    pub fn none() -> Looked
        ensures value { result ≡ record { upto = 0; same = None } }
        ensures right { (tells : Bool) (book : Book) (payload : List ℕ) → IsRight tells book payload result }
    {
        Looked {
            upto: 0,
            same: None,
        }
    }
}
