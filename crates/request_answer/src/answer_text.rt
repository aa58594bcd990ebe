//! An answer.
ghost use Rattle.std.specs.Prelude.{◌≡◌, ◌++◌, IfOk, IsTrue, MatchResult, OnOk, Some};
ghost use Rattle.capture.specs.Faults.{CountsFaults};
ghost use Rattle.outside.specs.Gate.{heard_of};
ghost use Rattle.request_answer.specs.steps.Givens.{with_body};
ghost use Rattle.request_answer.specs.steps.Fronts.{front_text};
ghost use Rattle.request_answer.specs.steps.Wire.{Breaks, Writes};

use crate::saying::{say, say_both};
use capture::{Bytes, Failed, Memory, put_all};
use exchange::RefusalText;
use outside::Link;
use std::marker::Model;

/// A body of so many bytes at most is copied behind its head, so that both are written at once.
pub const SHORT: usize = 65_536;

/// The answer to a request. A long body isn't copied behind its head: both are written one after the other. A contract sees one
/// text.
#[derive(Drop)]
pub struct Answer {
    /// The text, or the head of a long one.
    front: Front,
    /// What is written behind the head.
    body: Option<Bytes>,
    /// Whether the connection closes behind it.
    closes: bool,
}

/// Where the text of an answer lies, or the head of a long one.
#[derive(Drop)]
pub(crate) enum Front {
    /// In memory of its own.
    Made(Bytes),
    /// In the value itself: that of a refusal.
    Refusing(RefusalText),
}

impl Front {
    /// The bytes in place.
    fn as_slice(&self) -> &[u8]
        ensures { result.now ≡ front_text self.now }
    {
        match self {
            Front::Made(text) => text.as_slice(),
            Front::Refusing(text) => text.as_slice(),
        }
    }
}

impl Model for Answer {
    ghost use Rattle.request_answer.specs.steps.Givens.{Given, with_body};
    ghost use Rattle.request_answer.specs.steps.Fronts.{front_text};

    ghost Value = { Given };

    ghost view = { λ a. record { text = with_body (front_text a.front) a.body; closes = a.closes } };
}

impl Answer {
    /// The answer with this text.
    pub fn of(text: Bytes, closes: bool) -> Answer
        ensures { result ≡ record { text = text; closes = closes } }
    {
        Answer {
            front: Front::Made(text),
            body: None,
            closes,
        }
    }

    /// The answer that refuses a request by this text. It takes no memory.
    pub fn refusing(text: RefusalText, closes: bool) -> Answer
        ensures { result ≡ record { text = text; closes = closes } }
    {
        Answer {
            front: Front::Refusing(text),
            body: None,
            closes,
        }
    }

    /// The answer with this text and a body behind it.
    pub fn with_body(head: Bytes, body: Bytes, closes: bool) -> Answer
        ensures { result ≡ record { text = with_body head (Some body); closes = closes } }
    {
        Answer {
            front: Front::Made(head),
            body: Some(body),
            closes,
        }
    }

    /// The answer with this head and a body behind it, which is copied where it is short.
    pub fn behind(head: Vec<u8>, body: Bytes, closes: bool) -> Result<Answer, Memory>
        ensures { IfOk result (λ answer. answer ≡ record { text = head.items ++ body; closes = closes }) }
    {
        let mut head = head;
        if body.as_slice().len() <= SHORT {
            put_all(&mut head, body.as_slice())?;
            return Ok(Answer::of(Bytes::of(head), closes));
        }
        Ok(Answer::with_body(Bytes::of(head), body, closes))
    }

    /// Whether the connection closes behind it.
    pub fn closes(&self) -> bool
        ensures { result ≡ self.now.closes }
    {
        self.closes
    }

    /// Writes the whole text to a client whose link is whole.
    pub fn say<L: Link>(&self, client: &mut L) -> Result<(), Failed>
        requires { L.faults client.old ≡ 0 }
        ensures says { IsTrue L.tells → MatchResult result
            (λ _. Writes self.now.text (heard_of (L.traffic client.old) (L.faults client.old)) (heard_of (L.traffic client.new) (L.faults client.new)))
            (λ _. Breaks self.now.text (heard_of (L.traffic client.old) (L.faults client.old)) (heard_of (L.traffic client.new) (L.faults client.new))) }
        ensures whole { OnOk result (L.faults client.new ≡ 0) }
        ensures counts { CountsFaults (L.faults client.old) (L.faults client.new) result }
    {
        match &self.body {
            Some(body) => say_both(client, self.front.as_slice(), body.as_slice()),
            None => say(client, self.front.as_slice()),
        }
    }
}
