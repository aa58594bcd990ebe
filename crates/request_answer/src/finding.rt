//! The entries of the index that meet a query, as an answer.
ghost use Rattle.std.specs.Prelude.{◌≡◌, ℕ, Bool, List, IfOk};
ghost use Rattle.archive_shelf.specs.Told.{CatchesUp, GoesOn};
ghost use Rattle.cdx_query.specs.Picking.{start_of};
ghost use Rattle.cdx_query.specs.Reading.{IsQuery};
ghost use Rattle.replay_url.specs.declared.form.Form.TheVariants.{Query as TheQuery};
ghost use Rattle.request_answer.specs.steps.Answering.{AnswersVisit};
ghost use Rattle.request_answer.specs.steps.Looking.{FindsAnswer};
ghost use Rattle.request_answer.specs.SiteAnswers.{Asks};

use crate::answer_text::Answer;
use crate::found::found;
use crate::heads::asks_for_head;
use crate::refusing::refused;
use crate::visit::Visit;
use archive_shelf::{Shelf, find_starting};
use capture::{Bytes, Memory, Refusal};
use cdx_query::{Query, QueryFault, answer, read_query};
use std::alloc::Global;

/// Answers with the entries of the index that meet the query which this text is.
pub fn visit_query<S: Shelf>(
    alloc: Global,
    shelf: &mut S,
    visit: Visit,
    text: &[u8],
) -> Result<Answer, Memory>
    requires asks { Asks (record { message = visit.message.now; address = visit.address.now }) (TheQuery text.now) }
    ensures answers { (clock_tells : Bool) → AnswersVisit S.alone (record { site = visit.entry.site.now; clock_tells = clock_tells })
        (record { message = visit.entry.message.now; address = visit.entry.address.now }) visit.entry.closes result (S.told shelf.old) (S.told shelf.new) }
    ensures closes { IfOk result (λ answer. answer.closes ≡ visit.entry.closes) }
    ensures goes_on { GoesOn S.alone (S.told shelf.old) (S.told shelf.new) }
{
    let answers_head = asks_for_head(&visit.message.head);
    match read_query(alloc, text) {
        Ok(query) => answer_query(alloc, shelf, visit, &query),
        Err(QueryFault::BadQuery) => Ok(refused(Refusal::BadQuery, answers_head, visit.closes)),
        Err(QueryFault::Memory) => Err(Memory),
    }
}

/// Answers a query.
fn answer_query<S: Shelf>(
    alloc: Global,
    shelf: &mut S,
    visit: Visit,
    query: &Query,
) -> Result<Answer, Memory>
    requires asks { (text : List ℕ) × Asks (record { message = visit.message.now; address = visit.address.now }) (TheQuery text)
        × IsQuery text query.now }
    ensures answers { (clock_tells : Bool) → AnswersVisit S.alone (record { site = visit.entry.site.now; clock_tells = clock_tells })
        (record { message = visit.entry.message.now; address = visit.entry.address.now }) visit.entry.closes result (S.told shelf.old) (S.told shelf.new) }
    ensures closes { IfOk result (λ answer. answer.closes ≡ visit.entry.closes) }
    ensures goes_on { GoesOn S.alone (S.told shelf.old) (S.told shelf.new) }
{
    match look_up(alloc, shelf, query) {
        Ok(text) => found(alloc, visit, query.media_type(), text),
        Err(Memory) => Err(Memory),
    }
}

/// The text of the entries that meet a query.
fn look_up<S: Shelf>(alloc: Global, shelf: &mut S, query: &Query) -> Result<Bytes, Memory>
    requires start { query.now.start ≡ start_of query.now.kind query.now.key }
    ensures found { IfOk result (λ text. FindsAnswer S.alone (S.told shelf.new).contents query.now text) }
    ensures looks { CatchesUp S.alone (S.told shelf.old) (S.told shelf.new) }
{
    match find_starting(alloc, shelf, &query.start) {
        Ok(entries) => answer(alloc, query, entries.as_slice()),
        Err(Memory) => Err(Memory),
    }
}
