//! Answers with captures that are brought from the archive.
ghost use Rattle.std.specs.Prelude.{◌≡◌, Bool, IfOk};
ghost use Rattle.archive_shelf.specs.Told.{CatchesUp, GoesOn};
ghost use Rattle.archive_shelf.specs.Answers.{IsReplayable};
ghost use Rattle.capture.specs.Methods.{asks_for_head as is_head};
ghost use Rattle.replay_answer.specs.Mementos.{IsMemento, delivery_of};
ghost use Rattle.replay_url.specs.Questions.{by_memento};
ghost use Rattle.replay_url.specs.declared.form.Form.TheVariants.{Number as TheNumber};
ghost use Rattle.request_answer.specs.steps.Answering.{AnswersVisit};
ghost use Rattle.request_answer.specs.steps.Looking.{FindsJust};
ghost use Rattle.request_answer.specs.SiteAnswers.{Asks};

use crate::answer_text::Answer;
use crate::faults::why_unbrought;
use crate::heads::asks_for_head;
use crate::refusing::declined;
use crate::visit::{Sought, Visit};
use archive_shelf::Shelf;
use capture::{Brought, Memory};
use replay_answer::memento;
use std::alloc::Global;

/// Answers with the capture of a number, as it was received.
pub fn replay_number<S: Shelf>(
    alloc: Global,
    shelf: &mut S,
    visit: Visit,
    number: u32,
) -> Result<Answer, Memory>
    requires asks { Asks (record { message = visit.message.now; address = visit.address.now }) (TheNumber number) }
    ensures answers { (clock_tells : Bool) → AnswersVisit S.alone (record { site = visit.entry.site.now; clock_tells = clock_tells })
        (record { message = visit.entry.message.now; address = visit.entry.address.now }) visit.entry.closes result (S.told shelf.old) (S.told shelf.new) }
    ensures closes { IfOk result (λ answer. answer.closes ≡ visit.entry.closes) }
    ensures goes_on { GoesOn S.alone (S.told shelf.old) (S.told shelf.new) }
{
    let answers_head = asks_for_head(&visit.message.head);
    match shelf.bring(alloc, number) {
        Ok(brought) => replay(alloc, visit, &brought, true),
        Err(fault) => declined(why_unbrought(number, fault), answers_head, visit.closes),
    }
}

/// Answers with the capture that was found, whose date the address names, as it was received or for a reader of the archive.
pub fn replay_found<S: Shelf>(
    alloc: Global,
    shelf: &mut S,
    visit: Visit,
    sought: Sought,
    number: u32,
) -> Result<Answer, Memory>
    requires found { FindsJust S.alone (S.told shelf.old).contents (record { message = visit.message.now; address = visit.address.now })
        (by_memento sought.time sought.digits sought.raw sought.of.now.url) number }
    ensures answers { (clock_tells : Bool) (was : S) → CatchesUp S.alone (S.told was) (S.told shelf.old)
        → AnswersVisit S.alone (record { site = visit.entry.site.now; clock_tells = clock_tells })
        (record { message = visit.entry.message.now; address = visit.entry.address.now }) visit.entry.closes result (S.told was) (S.told shelf.new) }
    ensures closes { IfOk result (λ answer. answer.closes ≡ visit.entry.closes) }
    ensures goes_on { GoesOn S.alone (S.told shelf.old) (S.told shelf.new) }
{
    let answers_head = asks_for_head(&visit.message.head);
    match shelf.bring(alloc, number) {
        Ok(brought) => replay(alloc, visit, &brought, sought.raw),
        Err(fault) => declined(why_unbrought(number, fault), answers_head, visit.closes),
    }
}

/// The answer that replays a capture, as it was received or for a reader of the archive.
fn replay(alloc: Global, visit: Visit, brought: &Brought, raw: bool) -> Result<Answer, Memory>
    requires { IsReplayable brought.now }
    ensures text { IfOk result (λ answer. IsMemento visit.entry.site.now.base brought.now
        (delivery_of raw (is_head visit.entry.message.now.head.method) visit.entry.closes) answer.text) }
    ensures closes { IfOk result (λ answer. answer.closes ≡ visit.entry.closes) }
{
    let text = memento(
        alloc,
        visit.site,
        brought,
        raw,
        asks_for_head(&visit.message.head),
        visit.closes,
    )?;
    Ok(Answer::of(text, visit.closes))
}
