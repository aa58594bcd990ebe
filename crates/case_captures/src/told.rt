//! What a step tells that was given a text that it takes.
use capture::Memory;

/// These bytes.
pub fn told_bytes(told: Result<Vec<u8>, Memory>) -> Result<Option<Vec<u8>>, Memory> {
    match told {
        Ok(bytes) => Ok(Some(bytes)),
        Err(Memory) => Err(Memory),
    }
}

/// This text.
pub fn told_text(told: Result<String, Memory>) -> Result<Option<Vec<u8>>, Memory> {
    match told {
        Ok(text) => Ok(Some(text.into_bytes())),
        Err(Memory) => Err(Memory),
    }
}
