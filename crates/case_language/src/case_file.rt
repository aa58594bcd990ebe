//! The cases of a file, and the texts that it names.
use crate::escapes::decode;
use crate::line::Line;
use crate::names::{NamedText, Names};
use std::alloc::{AllocError, Global};

/// A case: its name, how often it is played, what it is given, and what it is to give.
#[derive(Drop)]
pub struct Case<'a> {
    pub name: &'a str,
    /// The line that says for which numbers the case is played; none where it is played once.
    pub plays: Option<Line<'a>>,
    pub given: Vec<&'a str>,
    pub expected: Vec<&'a str>,
    /// Whether the line `gives` has come.
    gives: bool,
}

impl<'a> Case<'a> {
    fn new(alloc: Global, name: &'a str) -> Case<'a> {
        Case {
            name,
            plays: None,
            given: Vec::new(alloc),
            expected: Vec::new(alloc),
            gives: false,
        }
    }

    fn add(&mut self, text: &'a str) -> Result<(), AllocError> {
        let line = Line::of(text);
        match line.word {
            "for" => self.plays = Some(line),
            "each" => self.plays = Some(line),
            "gives" => self.gives = true,
            _ if self.gives => self.expected.push(text)?,
            _ => self.given.push(text)?,
        }
        Ok(())
    }
}

/// The cases of a file, and the texts that it names.
#[derive(Drop)]
pub struct CaseFile<'a> {
    pub texts: Vec<NamedText>,
    pub cases: Vec<Case<'a>>,
}

impl<'a> CaseFile<'a> {
    /// The cases of a text. Empty lines and those that begin with `#` are passed over. What stands before the first case
    /// is a case of its own, which gives nothing that is expected.
    pub fn of(alloc: Global, text: &'a str) -> Result<CaseFile<'a>, AllocError> {
        let mut file = CaseFile {
            texts: Vec::new(alloc),
            cases: Vec::new(alloc),
        };
        for text in text.lines() {
            if !text.is_empty() && !text.starts_with('#') {
                file.add(alloc, text)?;
            }
        }
        Ok(file)
    }

    fn add(&mut self, alloc: Global, text: &'a str) -> Result<(), AllocError> {
        let line = Line::of(text);
        if line.word == "case" {
            return self.begin(alloc, line.rest);
        }
        if line.word == "text" && self.name_text(alloc, Line::of(line.rest))? {
            return Ok(());
        }
        self.add_line(alloc, text)
    }

    /// Begins a case of this name.
    fn begin(&mut self, alloc: Global, name: &'a str) -> Result<(), AllocError> {
        self.cases.push(Case::new(alloc, name))?;
        Ok(())
    }

    /// Names a text, and says whether it is one.
    fn name_text(&mut self, alloc: Global, line: Line) -> Result<bool, AllocError> {
        let names = Names {
            k: 0,
            texts: self.texts.as_slice(),
        };
        let Some(text) = decode(alloc, line.rest, names)? else {
            return Ok(false);
        };
        let named = NamedText::new(alloc, line.word, text)?;
        self.texts.push(named)?;
        Ok(true)
    }

    /// Adds a line to the last case.
    fn add_line(&mut self, alloc: Global, text: &'a str) -> Result<(), AllocError> {
        if self.cases.is_empty() {
            self.begin(alloc, "(before the first case)")?;
        }
        match self.cases.last_mut() {
            Some(case) => case.add(text),
            None => Ok(()),
        }
    }
}
