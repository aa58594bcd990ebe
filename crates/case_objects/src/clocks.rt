//! Calls of a clock.
use capture::Memory;
use case_language::number_in;
use case_texts::put_next_number;
use outside::{Clock, MemoryClock};
use std::alloc::Global;

/// How often a clock is asked.
const TIMES: u32 = 4;

/// What a clock of these answers, between which stands a space, gives in four calls.
pub fn clock_asked(alloc: Global, text: &[u8]) -> Result<Option<Vec<u8>>, Memory> {
    match clock_of(alloc, text)? {
        Some(clock) => answers_of(alloc, clock),
        None => Ok(None),
    }
}

/// `None` where a word is no number.
fn clock_of(alloc: Global, text: &[u8]) -> Result<Option<MemoryClock>, Memory> {
    let mut answers = Vec::new(alloc);
    for word in text.split(|byte| *byte == b' ') {
        match number_in(word) {
            Some(answer) => answers.push(answer)?,
            None if word.is_empty() => {}
            None => return Ok(None),
        }
    }
    Ok(Some(MemoryClock::new(answers)))
}

fn answers_of<C: Clock + Drop>(alloc: Global, clock: C) -> Result<Option<Vec<u8>>, Memory> {
    let mut clock = clock;
    let mut out = Vec::new(alloc);
    for _ in 0..TIMES {
        put_next_number(&mut out, clock.now())?;
    }
    Ok(Some(out))
}
