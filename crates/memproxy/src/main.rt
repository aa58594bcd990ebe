//! The program: real objects of the outside for the call that serves.
#![tactic(auto)]

mod command_line;
mod objects;
mod staffing;
mod status;

use command::{Status, Unknown};
use command_line::{out_of, texts_of, words_of};
use objects::objects_for;
use proxy_run::{Crew, run};
use real_outside::{Made, hold_standard_descriptors};
use staffing::try_threads;
use status::{ended, exit_code};
use std::process::ExitCode;

/// Makes the real objects, runs, and ends with the status's number.
fn main(rt: HostRuntime) -> ExitCode {
    if hold_standard_descriptors(&rt).is_err() {
        return exit_code(Status::Outside);
    }
    let Ok(words) = words_of(&rt) else {
        return exit_code(Status::Memory);
    };
    let Ok(texts) = texts_of(rt.alloc(), words.as_slice()) else {
        return exit_code(Status::Memory);
    };
    let Ok(made) = objects_for(&rt, texts.as_slice()) else {
        return exit_code(Status::Memory);
    };
    let Made {
        disk,
        mut gate,
        members,
        out,
    } = made;
    try_threads(&rt, rt.alloc(), texts.as_slice(), &mut gate);
    let mut out = out_of(rt, texts.as_slice(), out);
    let mut crew = Crew { members };
    ended(run::<_, _, _, _, _, _, Unknown>(
        &rt,
        rt.alloc(),
        texts.as_slice(),
        disk,
        &mut gate,
        &mut crew,
        &mut out,
    ))
}
