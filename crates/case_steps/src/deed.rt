//! A step of a case, by its name.
use crate::outcome::Outcome;
use case_language::number_in;

/// What is done with an archive or with a disk, by its name, and the text that it is given.
#[derive(Drop)]
pub struct Deed<'a> {
    pub name: &'a str,
    pub text: Vec<u8>,
    /// Whether it is done only where the disk failed in the step before it.
    pub again: bool,
}

impl<'a> Deed<'a> {
    /// Whether it is to be done behind the steps that told this.
    pub fn is_due(&self, outcome: &Outcome) -> bool {
        !self.again || outcome.is_refused()
    }

    /// The choice of a stop that the text names, or this one where it is empty.
    pub fn choice(&self, choice: u32) -> Option<u32> {
        if self.text.is_empty() {
            return Some(choice);
        }
        u32::try_from(number_in(self.text.as_slice())?).ok()
    }
}
