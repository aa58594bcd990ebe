//! Calls of dialers. A step is `ask TEXT`: a host is dialed, the text is written to the link, which is read up to its end and hung
//! up.
ghost use Rattle.std.specs.Prelude.{IsAscii};

use crate::given::Given;
use crate::made::links_of;
use crate::object::{Object, played};
use crate::parts::{put_answer, put_with};
use crate::traffic::{Reply, talk};
use capture::{Memory, put_all, put_number};
use case_texts::told;
use outside::{DialError, Dialer, EchoDialer, MemoryDialer, Transcript};
use std::alloc::Global;

/// What each step gave, and the transcripts of the links that were hung up.
pub fn dialer_played(alloc: Global, given: &Given, text: &[u8]) -> Result<Option<Vec<u8>>, Memory> {
    let (texts, breaks) = (given.texts.as_slice(), given.breaks.as_slice());
    let links = links_of(alloc, texts, usize::MAX, given.most, breaks)?;
    let dialer = MemoryDialer::new(alloc, links, given.fails.clone()?);
    played(alloc, dialer, text)
}

impl Object for MemoryDialer {
    fn take_step(
        &mut self,
        alloc: Global,
        out: &mut Vec<u8>,
        word: &str,
        text: &[u8],
    ) -> Result<bool, Memory> {
        if word != "ask" {
            return Ok(false);
        }
        put_talk(out, asked(alloc, self, text))?;
        Ok(true)
    }

    fn put_kept(&self, out: &mut Vec<u8>) -> Result<(), Memory> {
        for transcript in self.transcripts() {
            put_transcript(out, transcript)?;
        }
        Ok(())
    }
}

/// What a link to the host gives for the text.
fn asked<D: Dialer>(alloc: Global, dialer: &mut D, text: &[u8]) -> Reply {
    asked_at(alloc, dialer, "a.test", text)
}

fn asked_at<D: Dialer>(alloc: Global, dialer: &mut D, host: &str, text: &[u8]) -> Reply
    requires { IsAscii host.now }
{
    match dialer.dial(host, 80) {
        Ok(link) => {
            let mut link = link;
            let came = talk(alloc, &mut link, text);
            dialer.hang_up(link);
            came
        }
        Err(DialError::Failed) => Reply::Failed,
        Err(DialError::Memory) => Reply::Memory,
    }
}

/// Puts `gave` and the bytes, or `Failed`.
fn put_talk(out: &mut Vec<u8>, came: Reply) -> Result<(), Memory> {
    match came {
        Reply::Gave(text) => put_with(out, b"gave ", text.as_slice()),
        Reply::Failed => put_answer(out, b"Failed"),
        Reply::Memory => Err(Memory),
    }
}

/// Puts the host and the port, what was sent and given, `ended` where the end was met, and how many calls of the link failed.
fn put_transcript(out: &mut Vec<u8>, transcript: &Transcript) -> Result<(), Memory> {
    put_answer(out, transcript.host.as_slice())?;
    put_all(out, b" ")?;
    put_number(out, u64::from(transcript.port))?;
    put_all(out, b" sent ")?;
    put_all(out, transcript.sent.as_slice())?;
    put_all(out, b", gave ")?;
    put_all(out, transcript.given.as_slice())?;
    put_end(out, transcript.ended)?;
    put_all(out, b", faults ")?;
    put_number(out, transcript.faults)
}

/// Puts whether the end of what a link gave was met.
pub fn put_end(out: &mut Vec<u8>, ended: bool) -> Result<(), Memory> {
    if ended {
        return put_all(out, b", ended");
    }
    Ok(())
}

/// What the trial origin gives for the text.
pub fn echo_asked(alloc: Global, text: &[u8]) -> Result<Vec<u8>, Memory> {
    let mut dialer = EchoDialer::new(alloc);
    match asked(alloc, &mut dialer, text) {
        Reply::Gave(text) => Ok(text),
        Reply::Failed => told(alloc, b"Failed"),
        Reply::Memory => Err(Memory),
    }
}
