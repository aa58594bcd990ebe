//! Answers requests to the archive's own site (RFC 7089).
ghost use Rattle.std.specs.Prelude.{◌≡◌, Bool, true, IfOk};
ghost use Rattle.archive_shelf.specs.Told.{GoesOn};
ghost use Rattle.replay_url.specs.Forms.{IsForm};
ghost use Rattle.replay_url.specs.Keyed.{HasKeys, form_of};
ghost use Rattle.request_answer.specs.steps.Answering.{AnswersVisit};
ghost use Rattle.request_answer.specs.SiteAnswers as spec;

use crate::answer_text::Answer;
use crate::finding::visit_query;
use crate::heads::asks_for_head;
use crate::listing::visit_map;
use crate::refusing::refused;
use crate::replaying::replay_number;
use crate::seeking::{visit_gate, visit_memento};
use crate::shipping::ship;
use crate::visit::{Sought, Visit};
use archive_shelf::Shelf;
use capture::{Memory, Refusal};
use http_head::RequestMessage;
use replay_url::{FormFault, KeyedForm, read_keyed_form};
use std::alloc::Global;

/// Answers a request to the site by what the archive holds.
pub fn answer_visit<S: Shelf>(alloc: Global, shelf: &mut S, visit: Visit) -> Result<Answer, Memory>
    ensures answers { (clock_tells : Bool) → AnswersVisit S.alone (record { site = visit.entry.site.now; clock_tells = clock_tells })
        (record { message = visit.entry.message.now; address = visit.entry.address.now }) visit.entry.closes result (S.told shelf.old) (S.told shelf.new) }
    ensures closes { IfOk result (λ answer. answer.closes ≡ visit.entry.closes) }
    ensures goes_on { GoesOn S.alone (S.told shelf.old) (S.told shelf.new) }
{
    let answers_head = asks_for_head(&visit.message.head);
    if !serves(visit.message) {
        return Ok(refused(Refusal::MethodRefused, answers_head, visit.closes));
    }
    match read_keyed_form(alloc, visit.address) {
        Ok(form) => visit_form(alloc, shelf, visit, &form),
        Err(FormFault::NotAForm) => Ok(refused(Refusal::NotAForm, answers_head, visit.closes)),
        Err(FormFault::BadTime) => Ok(refused(Refusal::BadTime, answers_head, visit.closes)),
        Err(FormFault::Memory) => Err(Memory),
    }
}

/// Whether the site answers requests of this method: GET and HEAD.
fn serves(message: &RequestMessage) -> bool
    ensures { result ≡ spec.serves_method message.now.head.method }
{
    message.head.method.as_slice() == b"GET".as_slice() || asks_for_head(&message.head)
}

/// Answers a request for an address that has this form.
fn visit_form<S: Shelf>(
    alloc: Global,
    shelf: &mut S,
    visit: Visit,
    form: &KeyedForm,
) -> Result<Answer, Memory>
    requires method { spec.serves_method visit.message.now.head.method ≡ true }
    requires form { IsForm visit.address.now (form_of form.now) }
    requires keys { HasKeys form.now }
    ensures answers { (clock_tells : Bool) → AnswersVisit S.alone (record { site = visit.entry.site.now; clock_tells = clock_tells })
        (record { message = visit.entry.message.now; address = visit.entry.address.now }) visit.entry.closes result (S.told shelf.old) (S.told shelf.new) }
    ensures closes { IfOk result (λ answer. answer.closes ≡ visit.entry.closes) }
    ensures goes_on { GoesOn S.alone (S.told shelf.old) (S.told shelf.new) }
{
    match form {
        KeyedForm::Number(number) => replay_number(alloc, shelf, visit, *number),
        KeyedForm::Memento {
            time,
            digits,
            raw,
            of,
        } => visit_memento(
            alloc,
            shelf,
            visit,
            Sought {
                time: *time,
                digits: *digits,
                raw: *raw,
                of,
            },
        ),
        KeyedForm::Gate { of } => visit_gate(alloc, shelf, visit, of),
        KeyedForm::Map { of } => visit_map(alloc, shelf, visit, of),
        KeyedForm::Query { text } => visit_query(alloc, shelf, visit, text.as_slice()),
        KeyedForm::Ship(number) => ship(alloc, shelf, visit, *number),
    }
}
