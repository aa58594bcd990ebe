//! The list of a URL's captures, as an answer.
ghost use Rattle.std.specs.Prelude.{◌≡◌, ◌<◌, Bool, codes, length, IfOk};
ghost use Rattle.std.specs.List.Sorted.{IsNonDecreasingBy};
ghost use Rattle.archive_shelf.specs.Told.{CatchesUp, GoesOn};
ghost use Rattle.capture.specs.Methods.{asks_for_head as is_head};
ghost use Rattle.replay_url.specs.Keyed.{HasKey};
ghost use Rattle.replay_url.specs.declared.form.Form.TheVariants.{Map as TheMap};
ghost use Rattle.request_answer.specs.steps.Answering.{AnswersVisit};
ghost use Rattle.request_answer.specs.steps.Looking.{FindsAll};
ghost use Rattle.request_answer.specs.SiteAnswers as spec;
ghost use Rattle.request_answer.specs.SiteAnswers.{Asks};
ghost use Rattle.timemap.specs.LinkList.{timemap_text};

use crate::answer_text::Answer;
use crate::found::found;
use crate::heads::asks_for_head;
use crate::refusing::refused;
use crate::visit::Visit;
use archive_shelf::{Shelf, find_all};
use capture::{Memory, Refusal};
use index_entry::Entry;
use std::alloc::Global;
use surt_key::KeyedUrl;
use timemap::body;

/// Answers with the list of a URL's captures (RFC 7089, section 5).
pub fn visit_map<S: Shelf>(
    alloc: Global,
    shelf: &mut S,
    visit: Visit,
    of: &KeyedUrl,
) -> Result<Answer, Memory>
    requires asks { Asks (record { message = visit.message.now; address = visit.address.now }) (TheMap of.now.url) }
    requires keyed { HasKey of.now }
    ensures answers { (clock_tells : Bool) → AnswersVisit S.alone (record { site = visit.entry.site.now; clock_tells = clock_tells })
        (record { message = visit.entry.message.now; address = visit.entry.address.now }) visit.entry.closes result (S.told shelf.old) (S.told shelf.new) }
    ensures closes { IfOk result (λ answer. answer.closes ≡ visit.entry.closes) }
    ensures goes_on { GoesOn S.alone (S.told shelf.old) (S.told shelf.new) }
{
    let answers_head = asks_for_head(&visit.message.head);
    match all_of(alloc, shelf, of) {
        Ok(entries) => {
            if entries.is_empty() {
                return Ok(refused(Refusal::NoCapture, answers_head, visit.closes));
            }
            list(alloc, visit, of.url.as_slice(), entries.as_slice())
        }
        Err(Memory) => Err(Memory),
    }
}

/// All entries of a URL's key, in order of their dates.
fn all_of<S: Shelf>(alloc: Global, shelf: &mut S, of: &KeyedUrl) -> Result<Vec<Entry>, Memory>
    requires keyed { HasKey of.now }
    ensures found { IfOk result (λ entries. FindsAll S.alone (S.told shelf.new).contents of.now.url entries.items) }
    ensures looks { CatchesUp S.alone (S.told shelf.old) (S.told shelf.new) }
{
    find_all(alloc, shelf, &of.key)
}

/// The answer that lists entries, where `url` was asked for.
fn list(alloc: Global, visit: Visit, url: &[u8], entries: &[Entry]) -> Result<Answer, Memory>
    requires some { 0 < length entries.now }
    requires in_order { IsNonDecreasingBy (λ e. e.date) entries.now }
    ensures text { IfOk result (λ answer. answer.text ≡ spec.found_text (codes "application/link-format") (timemap_text visit.entry.site.now.base url.now entries.now)
        (is_head visit.entry.message.now.head.method) visit.entry.closes) }
    ensures closes { IfOk result (λ answer. answer.closes ≡ visit.entry.closes) }
{
    let body = body(alloc, visit.site, url, entries)?;
    found(alloc, visit, b"application/link-format", body)
}
