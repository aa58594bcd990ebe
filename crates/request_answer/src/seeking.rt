//! Answers requests to the site for a capture by its date (RFC 7089, sections 4 and 4.1.1).
ghost use Rattle.std.specs.Prelude.{◌≡◌, Bool, true, Some, None, IfOk, MatchResult, codes, map, slice_get};
ghost use Rattle.archive_shelf.specs.Told.{CatchesUp, GoesOn};
ghost use Rattle.capture.specs.Fields.{values_of};
ghost use Rattle.http_head.specs.Heads.{named_value};
ghost use Rattle.replay_url.specs.Forms.{IsForm};
ghost use Rattle.replay_url.specs.Keyed.{HasKey};
ghost use Rattle.replay_url.specs.Questions.{names_date};
ghost use Rattle.replay_url.specs.declared.form.Form.TheVariants.{Gate as TheGate, Memento as TheMemento};
ghost use Rattle.request_answer.specs.steps.Answering.{AnswersVisit};
ghost use Rattle.request_answer.specs.steps.Looking.{FindsNearest, NamesNoTime};
ghost use Rattle.request_answer.specs.SiteAnswers as spec;
ghost use Rattle.request_answer.specs.SiteAnswers.{Asks, IsSoughtTime};
ghost use Rattle.timegate.specs.Redirect.{redirect_text};

use crate::answer_text::Answer;
use crate::heads::asks_for_head;
use crate::refusing::refused;
use crate::replaying::replay_found;
use crate::visit::{Sought, Visit};
use archive_shelf::{Shelf, find_nearest};
use capture::{Memory, Refusal};
use http_head::{Field, first_value};
use index_entry::{Entry, number_of};
use std::alloc::Global;
use surt_key::KeyedUrl;
use time_text::{LATEST, NotATime, read_http};
use timegate::redirect;

/// Answers a gate by a redirect to the capture that is nearest to the time which the first field Accept-Datetime names, the latest
/// where there is none (RFC 7089, section 4.1).
pub fn visit_gate<S: Shelf>(
    alloc: Global,
    shelf: &mut S,
    visit: Visit,
    of: &KeyedUrl,
) -> Result<Answer, Memory>
    requires method { spec.serves_method visit.message.now.head.method ≡ true }
    requires form { IsForm visit.address.now (TheGate of.now.url) }
    requires keyed { HasKey of.now }
    ensures answers { (clock_tells : Bool) → AnswersVisit S.alone (record { site = visit.entry.site.now; clock_tells = clock_tells })
        (record { message = visit.entry.message.now; address = visit.entry.address.now }) visit.entry.closes result (S.told shelf.old) (S.told shelf.new) }
    ensures closes { IfOk result (λ answer. answer.closes ≡ visit.entry.closes) }
    ensures goes_on { GoesOn S.alone (S.told shelf.old) (S.told shelf.new) }
{
    match gate_time(visit.message.head.fields.as_slice()) {
        Ok(time) => redirect_to_nearest(alloc, shelf, visit, of, time),
        Err(NotATime) => Ok(refused(
            Refusal::BadAcceptDatetime,
            asks_for_head(&visit.message.head),
            visit.closes,
        )),
    }
}

/// Answers a gate by a redirect to the capture that is nearest to a time.
fn redirect_to_nearest<S: Shelf>(
    alloc: Global,
    shelf: &mut S,
    visit: Visit,
    of: &KeyedUrl,
    time: u64,
) -> Result<Answer, Memory>
    requires asks { Asks (record { message = visit.message.now; address = visit.address.now }) (TheGate of.now.url) }
    requires keyed { HasKey of.now }
    requires timed { IsSoughtTime None (map named_value visit.message.now.head.fields) time }
    ensures answers { (clock_tells : Bool) → AnswersVisit S.alone (record { site = visit.entry.site.now; clock_tells = clock_tells })
        (record { message = visit.entry.message.now; address = visit.entry.address.now }) visit.entry.closes result (S.told shelf.old) (S.told shelf.new) }
    ensures closes { IfOk result (λ answer. answer.closes ≡ visit.entry.closes) }
    ensures goes_on { GoesOn S.alone (S.told shelf.old) (S.told shelf.new) }
{
    let answers_head = asks_for_head(&visit.message.head);
    match seek(alloc, shelf, of, time) {
        Ok(Some(entry)) => lead_to(alloc, visit, of.url.as_slice(), &entry, false, true),
        Ok(None) => Ok(refused(Refusal::NoCapture, answers_head, visit.closes)),
        Err(Memory) => Err(Memory),
    }
}

/// Answers a memento's address by the capture that is nearest to its time: with the capture itself where the address names its date,
/// else by a redirect to it (RFC 7089, section 4.1.1).
pub fn visit_memento<S: Shelf>(
    alloc: Global,
    shelf: &mut S,
    visit: Visit,
    sought: Sought,
) -> Result<Answer, Memory>
    requires asks { Asks (record { message = visit.message.now; address = visit.address.now }) (TheMemento sought.time sought.digits sought.raw sought.of.now.url) }
    requires keyed { HasKey sought.of.now }
    ensures answers { (clock_tells : Bool) → AnswersVisit S.alone (record { site = visit.entry.site.now; clock_tells = clock_tells })
        (record { message = visit.entry.message.now; address = visit.entry.address.now }) visit.entry.closes result (S.told shelf.old) (S.told shelf.new) }
    ensures closes { IfOk result (λ answer. answer.closes ≡ visit.entry.closes) }
    ensures goes_on { GoesOn S.alone (S.told shelf.old) (S.told shelf.new) }
{
    let answers_head = asks_for_head(&visit.message.head);
    match seek(alloc, shelf, sought.of, sought.time) {
        Ok(Some(entry)) => {
            if names_date(sought, &entry) {
                return replay_found(alloc, shelf, visit, sought, number_of(&entry));
            }
            lead_to(
                alloc,
                visit,
                sought.of.url.as_slice(),
                &entry,
                sought.raw,
                false,
            )
        }
        Ok(None) => Ok(refused(Refusal::NoCapture, answers_head, visit.closes)),
        Err(Memory) => Err(Memory),
    }
}

/// The entry of a URL's key that is nearest to a time, if the key has one.
fn seek<S: Shelf>(
    alloc: Global,
    shelf: &mut S,
    of: &KeyedUrl,
    time: u64,
) -> Result<Option<Entry>, Memory>
    requires keyed { HasKey of.now }
    ensures found { IfOk result (λ found. FindsNearest S.alone (S.told shelf.new).contents of.now.url time found) }
    ensures looks { CatchesUp S.alone (S.told shelf.old) (S.told shelf.new) }
{
    find_nearest(alloc, shelf, &of.key, time)
}

/// Whether the address names the date of the entry, by all its digits.
fn names_date(sought: Sought, entry: &Entry) -> bool
    ensures { result ≡ names_date (Some (record { time = sought.entry.time; digits = sought.entry.digits })) entry.now.date }
{
    (sought.digits == 14 || sought.digits == 17) && sought.time == entry.date
}

/// The answer that leads to the capture of an entry, where `url` was asked for.
fn lead_to(
    alloc: Global,
    visit: Visit,
    url: &[u8],
    entry: &Entry,
    raw: bool,
    by_gate: bool,
) -> Result<Answer, Memory>
    ensures text { IfOk result (λ answer. answer.text ≡ redirect_text visit.entry.site.now.base url.now entry.now raw by_gate visit.entry.closes) }
    ensures closes { IfOk result (λ answer. answer.closes ≡ visit.entry.closes) }
{
    let text = redirect(alloc, visit.site, url, entry, raw, by_gate, visit.closes)?;
    Ok(Answer::of(text, visit.closes))
}

/// The time that a gate is asked for, by the first field Accept-Datetime (RFC 7089, section 2.1.1).
fn gate_time(fields: &[Field]) -> Result<u64, NotATime>
    ensures { MatchResult result
        (λ time. IsSoughtTime None (map named_value fields.now) time)
        (λ _. NamesNoTime (slice_get (values_of (codes "accept-datetime") (map named_value fields.now)) 0)) }
{
    match first_value(fields, b"accept-datetime") {
        Some(value) => read_http(value),
        None => Ok(LATEST),
    }
}
