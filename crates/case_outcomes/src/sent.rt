//! What was sent over links, as lines of a case.
use capture::Memory;
use case_steps::Outcome;
use case_texts::{put_next, put_next_number};
use outside::Transcript;
use std::alloc::Global;

/// `sent HOST PORT TEXT` for each link that was hung up.
pub fn put_sent(
    alloc: Global,
    outcome: &mut Outcome,
    transcripts: &[Transcript],
) -> Result<(), Memory> {
    for transcript in transcripts {
        let text = sent_text(alloc, transcript)?;
        outcome.put(alloc, b"sent ", text.as_slice())?;
    }
    Ok(())
}

/// `HOST PORT TEXT`
fn sent_text(alloc: Global, transcript: &Transcript) -> Result<Vec<u8>, Memory> {
    let mut text = Vec::from_slice(alloc, transcript.host.as_slice())?;
    put_next_number(&mut text, u64::from(transcript.port))?;
    put_next(&mut text, transcript.sent.as_slice())?;
    Ok(text)
}
