//! Plays the cases of a file.
ghost use Rattle.std.specs.Thread.{IsSync};

use crate::single::outcome_of_one;
use capture::Memory;
use case_language::{Case, CaseFile, Line, NamedText, Names, difference, plays_of};
use case_setting::{Played, Script};
use case_steps::Outcome;
use std::alloc::{AllocError, Global};
use std::io::Print;
use std::sync::Wait;
use std::thread::Threads;
use std::{fmt, io};

/// The program, whose runs a case may play.
pub trait Program {
    /// What the runs of a case give in this turn, a line `then` between them. `None` where a disk could not be made or stopped.
    fn outcome_of_runs<R: Threads + Wait + Sync>(
        rt: &R,
        alloc: Global,
        script: &Script,
        turn: u32,
    ) -> Result<Option<Outcome>, Memory>
        requires { IsSync R.row };
}

/// How many cases a file has, and how many of their plays gave something else than was expected.
#[derive(Clone, Copy)]
pub struct Tally {
    pub cases: u64,
    pub differences: u64,
}

impl fmt::Display for Tally {
    fn fmt<W: fmt::Write>(&self, f: &mut fmt::Formatter<W>) -> fmt::Result {
        match self.differences {
            0 => write!(f, "{} cases, all as expected", self.cases),
            _ => write!(f, "{} cases, {} differences", self.cases, self.differences),
        }
    }
}

/// Plays each case of the text, and prints the differences.
pub fn play_file<P: Program, R>(rt: &R, alloc: Global, text: &str) -> io::Result<Tally>
where
    R: Threads + Wait + Sync + Print,
{
    let file = CaseFile::of(alloc, text)?;
    let mut differences = 0u64;
    for case in file.cases.as_slice() {
        let differed = play_case::<P, R>(rt, alloc, file.texts.as_slice(), case)?;
        differences = differences.saturating_add(differed);
    }
    Ok(Tally {
        cases: file.cases.len() as u64,
        differences,
    })
}

/// Plays a case for each of its numbers, and says how often it differed.
fn play_case<P: Program, R>(
    rt: &R,
    alloc: Global,
    texts: &[NamedText],
    case: &Case,
) -> io::Result<u64>
where
    R: Threads + Wait + Sync + Print,
{
    let Some(numbers) = plays_of(alloc, case.plays)? else {
        println!(rt; "{}: no numbers to play it for", case.name)?;
        return Ok(1);
    };
    if numbers.is_empty() {
        println!(rt; "{}: played for no number", case.name)?;
        return Ok(1);
    }
    let mut differences = 0u64;
    for k in numbers {
        match play_once::<P, R>(rt, alloc, case, Names { k, texts }) {
            Ok(None) => continue,
            Ok(Some(text)) => println!(rt; "{} ({k}): {text}", case.name)?,
            Err(Memory) => println!(rt; "{} ({k}): no memory", case.name)?,
        }
        differences = differences.saturating_add(1);
    }
    Ok(differences)
}

/// Plays a case for one number, and each choice of its stops. The answer is the first difference.
fn play_once<P: Program, R>(
    rt: &R,
    alloc: Global,
    case: &Case,
    names: Names,
) -> Result<Option<String>, Memory>
where
    R: Threads + Wait + Sync,
{
    let mut script = Script::new(alloc)?;
    difference_by::<P, R>(rt, alloc, &mut script, case, names)
}

/// The first difference of a case, whose lines this script takes.
fn difference_by<'a, P: Program, R>(
    rt: &R,
    alloc: Global,
    script: &mut Script<'a>,
    case: &Case<'a>,
    names: Names,
) -> Result<Option<String>, Memory>
where
    R: Threads + Wait + Sync,
{
    if let Some(text) = set(alloc, script, case, names)? {
        return Ok(Some(text));
    }
    for turn in 0..script.turns() {
        let outcome = outcome_of::<P, R>(rt, alloc, script, turn)?;
        if let Some(text) = difference_from(alloc, case, outcome, turn, names)? {
            return Ok(Some(text));
        }
    }
    Ok(None)
}

/// Takes the lines of what a case is given. The answer is the first that is none, as a text.
fn set<'a>(
    alloc: Global,
    script: &mut Script<'a>,
    case: &Case<'a>,
    names: Names,
) -> Result<Option<String>, Memory> {
    for text in case.given.as_slice() {
        if !script.take(alloc, Line::of(text), names)? {
            return Ok(Some(format!(in alloc; "no line: {text}")?));
        }
    }
    Ok(None)
}

/// How what a case gave in this turn differs from what it expects.
fn difference_from(
    alloc: Global,
    case: &Case,
    outcome: Option<Outcome>,
    turn: u32,
    names: Names,
) -> Result<Option<String>, Memory> {
    match outcome {
        Some(outcome) => {
            let (expected, given) = (case.expected.as_slice(), outcome.lines.as_slice());
            in_turn(alloc, turn, difference(alloc, expected, given, names))
        }
        None => Ok(Some(String::from_str(alloc, "no such call, or no objects for the case")?)),
    }
}

/// A difference with its turn.
fn in_turn(
    alloc: Global,
    turn: u32,
    differed: Result<Option<String>, AllocError>,
) -> Result<Option<String>, Memory> {
    match differed? {
        Some(text) => Ok(Some(format!(in alloc; "(turn {turn}) {text}")?)),
        None => Ok(None),
    }
}

/// What the case gives in this turn. `None` where there is no such call, where an object of the case could not be made, or
/// where something else than a run stands behind a line `then` or before it.
fn outcome_of<P: Program, R>(
    rt: &R,
    alloc: Global,
    script: &Script,
    turn: u32,
) -> Result<Option<Outcome>, Memory>
where
    R: Threads + Wait + Sync,
{
    match &script.first.played {
        Played::Program if script.goes_on() => P::outcome_of_runs(rt, alloc, script, turn),
        Played::Program => Ok(None),
        _ if script.further.is_empty() => outcome_of_one(rt, alloc, &script.first, turn),
        _ => Ok(None),
    }
}
