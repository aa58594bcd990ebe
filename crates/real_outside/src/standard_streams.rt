//! Standard input and standard error as streams of bytes.
use std::io::{Read, Stderr, Stdin, Write};

/// Gives the standard streams that std's traits give in another way: `Eprint` takes text alone, and a reader of
/// `Input` asks where standard input stands before it reads.
pub trait StandardStreams {
    /// Standard input.
    type Input: Read + Drop;

    /// Standard error.
    type Error: Write + Drop;

    /// Standard input.
    fn standard_input(&self) -> Self::Input;

    /// Standard error.
    fn standard_error(&self) -> Self::Error;
}

impl StandardStreams for HostRuntime {
    type Input = Stdin;

    type Error = Stderr;

    fn standard_input(&self) -> Stdin {
        self.stdin()
    }

    fn standard_error(&self) -> Stderr {
        self.stderr()
    }
}
