//! A page that is rewritten while it is read from left to right.
ghost use Rattle.std.specs.Prelude.{◌≤◌, length};

/// What is written of a page.
#[derive(Drop)]
pub struct Written {
    /// The text so far.
    pub text: Vec<u8>,
    /// Whether the page was within its limit so far. Where it wasn't, nothing more is written.
    pub fits: bool,
}

/// A page, what of it was read, and what is written.
#[derive(Drop)]
pub struct Rewriter<'a> {
    /// What stands before `run`, its links replaced.
    pub written: Written,
    /// The page behind the last link.
    pub run: &'a [u8],
    /// How much of that was read.
    pub read: usize,
    ghost within: { read ≤ length run.now },
}
