//! Objects in memory, played by the steps of a call's text.
use crate::given::is_given;
use crate::parts::word_of;
use capture::Memory;
use std::alloc::Global;

/// An object that takes steps and tells what it kept.
pub trait Object {
    /// Takes a step and puts what it gives. Whether it is one of the object's.
    fn take_step(
        &mut self,
        alloc: Global,
        out: &mut Vec<u8>,
        word: &str,
        text: &[u8],
    ) -> Result<bool, Memory>;

    /// Puts what the object kept.
    fn put_kept(&self, out: &mut Vec<u8>) -> Result<(), Memory>;
}

/// What each step gave, and what the object kept. `None` where a part is neither a step nor says what the object is made with.
pub fn played<O: Object + Drop>(
    alloc: Global,
    object: O,
    text: &[u8],
) -> Result<Option<Vec<u8>>, Memory> {
    let mut object = object;
    let mut out = Vec::new(alloc);
    match put_steps(alloc, &mut out, &mut object, text) {
        Ok(true) => Ok(Some(out)),
        Ok(false) => Ok(None),
        Err(Memory) => Err(Memory),
    }
}

/// Puts what each step gives, and what the object kept. Whether all are steps.
fn put_steps<O: Object>(
    alloc: Global,
    out: &mut Vec<u8>,
    object: &mut O,
    text: &[u8],
) -> Result<bool, Memory> {
    for part in text.split(|byte| *byte == b';') {
        if !put_step(alloc, out, object, part)? {
            return Ok(false);
        }
    }
    object.put_kept(out)?;
    Ok(true)
}

fn put_step<O: Object>(
    alloc: Global,
    out: &mut Vec<u8>,
    object: &mut O,
    part: &[u8],
) -> Result<bool, Memory> {
    match word_of(part) {
        Some((word, _)) if is_given(word) => Ok(true),
        Some((word, text)) => object.take_step(alloc, out, word, text),
        None => Ok(false),
    }
}
