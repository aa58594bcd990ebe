//! Pieces of captures, as another archive takes them.
ghost use Rattle.std.specs.Prelude.{◌≡◌, Bool, IfOk};
ghost use Rattle.archive_shelf.specs.Told.{GoesOn};
ghost use Rattle.replay_url.specs.declared.form.Form.TheVariants.{Ship as TheShip};
ghost use Rattle.request_answer.specs.steps.Answering.{AnswersVisit};
ghost use Rattle.request_answer.specs.steps.Declining as spec;
ghost use Rattle.request_answer.specs.steps.Declining.{DeclinesPiece};
ghost use Rattle.request_answer.specs.SiteAnswers.{Asks};

use crate::answer_text::Answer;
use crate::faults::why_unbrought;
use crate::found::{found, nothing};
use crate::heads::asks_for_head;
use crate::refusing::declined;
use crate::visit::Visit;
use archive_shelf::{BringFault, Shelf};
use capture::Memory;
use std::alloc::Global;

/// Answers with the piece of the capture of a number, or with nothing where it is that of the next capture.
pub fn ship<S: Shelf>(
    alloc: Global,
    shelf: &mut S,
    visit: Visit,
    number: u32,
) -> Result<Answer, Memory>
    requires asks { Asks (record { message = visit.message.now; address = visit.address.now }) (TheShip number) }
    ensures answers { (clock_tells : Bool) → AnswersVisit S.alone (record { site = visit.entry.site.now; clock_tells = clock_tells })
        (record { message = visit.entry.message.now; address = visit.entry.address.now }) visit.entry.closes result (S.told shelf.old) (S.told shelf.new) }
    ensures closes { IfOk result (λ answer. answer.closes ≡ visit.entry.closes) }
    ensures goes_on { GoesOn S.alone (S.told shelf.old) (S.told shelf.new) }
{
    let answers_head = asks_for_head(&visit.message.head);
    match shelf.piece(alloc, number) {
        Ok(piece) => found(alloc, visit, b"application/warc", piece),
        Err(fault) => unshipped(alloc, number, fault, answers_head, visit.closes),
    }
}

/// The answer to a request for the piece of the capture with this number, which wasn't brought.
fn unshipped(
    alloc: Global,
    number: u32,
    fault: BringFault,
    answers_head: bool,
    closes: bool,
) -> Result<Answer, Memory>
    ensures declines { DeclinesPiece number fault answers_head closes result }
    ensures closes { IfOk result (λ answer. answer.closes ≡ closes) }
{
    if is_next(number, fault) {
        return nothing(alloc, closes);
    }
    declined(why_unbrought(number, fault), answers_head, closes)
}

/// Whether the piece is that of the next capture, which is still to come.
fn is_next(number: u32, fault: BringFault) -> bool
    ensures { result ≡ spec.is_next number fault }
{
    match fault {
        BringFault::NoSuch { count } => number == count,
        BringFault::DiskFault => false,
        BringFault::Damaged { .. } => false,
        BringFault::Memory => false,
    }
}
