//! A folder that writes each call down, fails at one of them, and holds nothing, and rows of steps that the program's disk takes over it.
#![tactic(auto)]

mod folders;
mod rows;

pub use folders::{NEVER, NO_VOLUME, Plan, TWO_VOLUMES};
pub use rows::{
    CREATE, CUT_0, FILES, LEN_0, MOVES_AT_4, NO_FOLDER, NOT_FOUND, ONE_WRITE, READ, READ_0,
    REOPENED, Row, SYNC_0, SYNC_2, WRITE_0, WRITE_2, played, whole,
};
