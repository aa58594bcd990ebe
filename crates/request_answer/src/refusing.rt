//! Answers that refuse a request.
ghost use Rattle.std.specs.Prelude.{◌≡◌, IfOk};
ghost use Rattle.exchange.specs.Refusals as spec;
ghost use Rattle.request_answer.specs.steps.Declining.{Declines};

use crate::answer_text::Answer;
use capture::{Memory, Refusal};
use exchange::refusal_text;

/// The answer to a request that is refused, HEAD or another. It takes no memory.
pub fn refused(refusal: Refusal, answers_head: bool, closes: bool) -> Answer
    ensures value { result ≡ record { text = spec.refusal_text refusal answers_head closes; closes = closes } }
    ensures closes { result.closes ≡ closes }
{
    Answer::refusing(refusal_text(&refusal, answers_head, closes), closes)
}

/// The answer to a request that is refused for this, or for which there was no memory.
pub fn declined(
    refusal: Option<Refusal>,
    answers_head: bool,
    closes: bool,
) -> Result<Answer, Memory>
    ensures declines { Declines refusal answers_head closes result }
    ensures closes { IfOk result (λ answer. answer.closes ≡ closes) }
{
    match refusal {
        Some(refusal) => Ok(refused(refusal, answers_head, closes)),
        None => Err(Memory),
    }
}
