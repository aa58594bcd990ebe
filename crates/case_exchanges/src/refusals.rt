//! The texts that `exchange` has for requests without a response.
use capture::{Memory, Refusal};
use case_language::TextWords;
use case_texts::{always, told};
use exchange::{memory_text, refusal_text};
use std::alloc::Global;

/// What a client gets of a refusal. The text is the method of the request, `closes` or `stays`, the refusal's name, and its
/// numbers, each behind a space.
pub fn refused(alloc: Global, text: &[u8]) -> Result<Option<Vec<u8>>, Memory> {
    let mut words = TextWords::of(text);
    let (Some(method), Some(word)) = (words.word(), words.word()) else {
        return Ok(None);
    };
    let Some(refusal) = refusal_in(words.rest) else {
        return Ok(None);
    };
    let text = refusal_text(&refusal, method == "HEAD", word == "closes");
    always(told(alloc, text.as_slice()))
}

/// What a client gets where memory ran out.
pub fn lacked(alloc: Global) -> Result<Vec<u8>, Memory> {
    told(alloc, memory_text())
}

fn refusal_in(text: &[u8]) -> Option<Refusal> {
    let Ok(text) = str::from_utf8(text) else {
        return None;
    };
    match text.split_once(' ') {
        Some((name, numbers)) => refusal_with(name, numbers),
        None => plain_refusal(text),
    }
}

fn refusal_with(name: &str, numbers: &str) -> Option<Refusal> {
    match numbers.split_once(' ') {
        Some((first, second)) => refusal_by(name, first, second),
        None => refusal_by(name, numbers, "0"),
    }
}

/// The refusal with these numbers.
fn refusal_by(name: &str, first: &str, second: &str) -> Option<Refusal> {
    match (first.parse::<u64>(), second.parse::<u32>()) {
        (Ok(now), Ok(_)) if name == "ClockRange" => Some(Refusal::ClockRange { now }),
        (Ok(first), Ok(second)) => counted_refusal(name, u32::try_from(first).ok()?, second),
        _ => None,
    }
}

fn counted_refusal(name: &str, first: u32, second: u32) -> Option<Refusal> {
    match name {
        "NoSuch" => Some(Refusal::NoSuch {
            number: first,
            count: second,
        }),
        "Full" => Some(Refusal::Full {
            count: first,
            limit: second,
        }),
        "Damaged" => Some(Refusal::Damaged {
            number: first,
            kept: [0; 20],
            found: None,
        }),
        _ => None,
    }
}

fn plain_refusal(name: &str) -> Option<Refusal> {
    match name {
        "Malformed" => Some(Refusal::Malformed),
        "TargetRefused" => Some(Refusal::TargetRefused),
        "BadTime" => Some(Refusal::BadTime),
        "BadAcceptDatetime" => Some(Refusal::BadAcceptDatetime),
        "BadQuery" => Some(Refusal::BadQuery),
        "NotAForm" => Some(Refusal::NotAForm),
        "NoCapture" => Some(Refusal::NoCapture),
        "MethodRefused" => Some(Refusal::MethodRefused),
        "BodyTooLong" => Some(Refusal::BodyTooLong),
        "HeadTooLong" => Some(Refusal::HeadTooLong),
        "ConnectRefused" => Some(Refusal::ConnectRefused),
        "SecureRefused" => Some(Refusal::SecureRefused),
        "CodingRefused" => Some(Refusal::CodingRefused),
        "DialFault" => Some(Refusal::DialFault),
        "OriginFault" => Some(Refusal::OriginFault),
        "OriginEnded" => Some(Refusal::OriginEnded),
        "OriginMalformed" => Some(Refusal::OriginMalformed),
        "OriginTooLong" => Some(Refusal::OriginTooLong),
        "TooManyInterim" => Some(Refusal::TooManyInterim),
        "DiskFault" => Some(Refusal::DiskFault),
        _ => None,
    }
}
