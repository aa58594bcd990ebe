//! Lists of events over an archive, and what each replies.
ghost use Rattle.std.specs.Prelude.{All, IfOk, IfSome};
ghost use Rattle.case_events.specs.Listing.{IsListing};
ghost use Rattle.case_stores.specs.Opening.{IsOpening};
ghost use Rattle.event_core.specs.Events.{CanCome};
ghost use Rattle.warc_text.specs.Fits.{Fits};

use crate::replies::put_ran;
use capture::{Limits, Memory, Taken};
use case_captures::{exchanged_in, prepared_of};
use case_language::{number_in, split_word};
use case_steps::{Deed, Outcome};
use case_stores::{Opening, opening_in};
use case_texts::key_in;
use disk_model::MemoryDisk;
use event_core::{Event, run_events};
use std::alloc::Global;
use time_text::LATEST;
use uuid::Uuid;

/// How the archive of a run is opened.
#[derive(Clone, Copy)]
pub struct Listing {
    pub namespace: Uuid,
    pub limits: Limits,
}

/// What each event replies, why the archive wasn't opened, where it wasn't, and the files that are left. A stop behind which no number
/// stands is by this choice. `None` where a step is no event.
pub fn events_outcome_of(
    alloc: Global,
    disk: MemoryDisk,
    steps: &[Deed],
    choice: u32,
) -> Result<Option<Outcome>, Memory> {
    let Some(listing) = listing_in(opening_text(steps)) else {
        return Ok(None);
    };
    let Some(events) = events_in(alloc, behind_opening(steps), choice)? else {
        return Ok(None);
    };
    let ran = run_events(
        alloc,
        disk,
        listing.namespace,
        listing.limits,
        events.as_slice(),
    );
    let mut outcome = Outcome::new(alloc);
    put_ran(alloc, &mut outcome, ran)?;
    Ok(Some(outcome))
}

/// What a first step `open` is given, which says how the archive is opened.
fn opening_text<'b>(steps: &'b [Deed]) -> &'b [u8] {
    match steps.first() {
        Some(first) if first.name == "open" => first.text.as_slice(),
        _ => b"",
    }
}

fn listing_in(text: &[u8]) -> Option<Listing>
    ensures { IfSome result IsListing }
{
    match opening_in(text) {
        Some(opening) => listing_with(opening),
        None => None,
    }
}

/// The steps behind it.
fn behind_opening<'a, 'b>(steps: &'b [Deed<'a>]) -> &'b [Deed<'a>] {
    match steps {
        [first, rest @ ..] if first.name == "open" => rest,
        _ => steps,
    }
}

fn listing_with(opening: Opening) -> Option<Listing>
    requires { IsOpening opening }
    ensures { IfSome result IsListing }
{
    match opening.namespace {
        Some(namespace) => Some(Listing {
            namespace,
            limits: opening.limits,
        }),
        None => None,
    }
}

/// The events of these steps.
fn events_in(alloc: Global, steps: &[Deed], choice: u32) -> Result<Option<Vec<Event>>, Memory>
    ensures { IfOk result (λ found. IfSome found (λ events. All CanCome events.items)) }
{
    let mut events = Vec::new(alloc);
    for step in steps {
        match event_in(alloc, step, choice)? {
            Some(event) => events.push(event)?,
            None => return Ok(None),
        }
    }
    Ok(Some(events))
}

/// The event of a step. `None` where it is none.
fn event_in(alloc: Global, step: &Deed, choice: u32) -> Result<Option<Event>, Memory>
    ensures { IfOk result (λ found. IfSome found CanCome) }
{
    let text = step.text.as_slice();
    match step.name {
        "store" => store_in(alloc, text),
        "map" => map_in(alloc, text),
        "by-date" => date_in(alloc, text),
        "stop-within" => within_in(alloc, text, choice),
        _ => Ok(small_event_in(step.name, text, choice)),
    }
}

/// An event that is given a number at most.
fn small_event_in(name: &str, text: &[u8], choice: u32) -> Option<Event>
    ensures { IfSome result CanCome }
{
    match name {
        "roll" => roll_in(text),
        "bring" => Some(Event::Bring(small_in(text)?)),
        "stop" if text.is_empty() => Some(Event::Stop(choice)),
        "stop" => Some(Event::Stop(small_in(text)?)),
        "settle" if text.is_empty() => Some(Event::Settle),
        _ => None,
    }
}

fn small_in(text: &[u8]) -> Option<u32> {
    u32::try_from(number_in(text)?).ok()
}

fn roll_in(text: &[u8]) -> Option<Event>
    ensures { IfSome result CanCome }
{
    let now = number_in(text)?;
    if now > LATEST {
        return None;
    }
    Some(Event::Roll(now))
}

fn taken_in(alloc: Global, text: &[u8]) -> Result<Option<Taken>, Memory>
    ensures { IfOk result (λ found. IfSome found Fits) }
{
    let Some(exchanged) = exchanged_in(text) else {
        return Ok(None);
    };
    match prepared_of(alloc, &exchanged)? {
        Some(prepared) => Ok(Some(prepared.taken)),
        None => Ok(None),
    }
}

fn store_in(alloc: Global, text: &[u8]) -> Result<Option<Event>, Memory>
    ensures { IfOk result (λ found. IfSome found CanCome) }
{
    match taken_in(alloc, text)? {
        Some(taken) => Ok(Some(Event::Store(taken))),
        None => Ok(None),
    }
}

/// A number of calls, and what `store` is given.
fn within_in(alloc: Global, text: &[u8], choice: u32) -> Result<Option<Event>, Memory>
    ensures { IfOk result (λ found. IfSome found CanCome) }
{
    let Some((calls, rest)) = split_word(text) else {
        return Ok(None);
    };
    let Some(calls) = number_in(calls.as_bytes()) else {
        return Ok(None);
    };
    match taken_in(alloc, rest)? {
        Some(taken) => Ok(Some(Event::StopWithin {
            taken,
            calls,
            choice,
        })),
        None => Ok(None),
    }
}

fn map_in(alloc: Global, uri: &[u8]) -> Result<Option<Event>, Memory>
    ensures { IfOk result (λ found. IfSome found CanCome) }
{
    match key_in(alloc, uri)? {
        Some(key) => Ok(Some(Event::Map(key))),
        None => Ok(None),
    }
}

/// A time, a space, and a url.
fn date_in(alloc: Global, text: &[u8]) -> Result<Option<Event>, Memory>
    ensures { IfOk result (λ found. IfSome found CanCome) }
{
    let Some((time, uri)) = split_word(text) else {
        return Ok(None);
    };
    let Some(time) = number_in(time.as_bytes()) else {
        return Ok(None);
    };
    match key_in(alloc, uri)? {
        Some(key) => Ok(Some(Event::ByDate(key, time))),
        None => Ok(None),
    }
}
