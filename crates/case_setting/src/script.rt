//! What a case is given: one thing that is played, or runs of the program one after the other over one disk.
use crate::setting::Setting;
use case_language::{Line, Names};
use std::alloc::{AllocError, Global};

/// What is played first, and the runs behind it.
#[derive(Drop)]
pub struct Script<'a> {
    /// What is played first.
    pub first: Setting<'a>,
    /// Each is a run over the disk that the stop behind the one before it leaves.
    pub further: Vec<Setting<'a>>,
}

impl<'a> Script<'a> {
    /// One run, as a case has it that says nothing.
    pub fn new(alloc: Global) -> Result<Script<'a>, AllocError> {
        Ok(Script {
            first: Setting::new(alloc)?,
            further: Vec::new(alloc),
        })
    }

    /// Takes a line of a case, and says whether it is one. Behind a line `then` lines are those of a further run.
    pub fn take(
        &mut self,
        alloc: Global,
        line: Line<'a>,
        names: Names,
    ) -> Result<bool, AllocError> {
        if line.word == "then" {
            self.further.push(Setting::new(alloc)?)?;
            return Ok(true);
        }
        match self.further.last_mut() {
            Some(setting) => setting.take(alloc, line, names),
            None => self.first.take(alloc, line, names),
        }
    }

    /// Whether each run behind the first can go on with the disk that it is given.
    pub fn goes_on(&self) -> bool {
        for setting in self.further.as_slice() {
            if !setting.goes_on() {
                return false;
            }
        }
        true
    }

    /// How often the case is played for one number: for each choice of the stop that has the most.
    pub fn turns(&self) -> u32 {
        let mut turns = self.first.stops.turns();
        for setting in self.further.as_slice() {
            turns = turns.max(setting.stops.turns());
        }
        turns
    }
}
