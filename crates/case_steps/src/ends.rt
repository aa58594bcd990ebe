//! How a value goes on behind what was done with it. What holds one over several `?` is dear to prove, since each of them lets it go; these
//! let it go once.
use capture::Memory;

/// The value, where all was done; `None` where something was none of what is done.
pub fn kept<T: Drop>(value: T, done: Result<bool, Memory>) -> Result<Option<T>, Memory> {
    match done {
        Ok(true) => Ok(Some(value)),
        Ok(false) => Ok(None),
        Err(Memory) => Err(Memory),
    }
}

/// The value, where this was done.
pub fn after<T: Drop>(done: Result<(), Memory>, value: T) -> Result<T, Memory> {
    match done {
        Ok(()) => Ok(value),
        Err(Memory) => Err(Memory),
    }
}

/// Whether there is a value, which is let go.
pub fn is_some<T: Drop>(found: Result<Option<T>, Memory>) -> Result<bool, Memory> {
    match found {
        Ok(Some(_)) => Ok(true),
        Ok(None) => Ok(false),
        Err(Memory) => Err(Memory),
    }
}

/// None of these, which is let go.
pub fn none_of<T: Drop>(_held: T) -> Option<T> {
    None
}
