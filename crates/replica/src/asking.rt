//! Asks a source for the piece of a capture.
ghost use Rattle.std.specs.Prelude.{◌≡◌, ◌++◌, [], false, IfOk, IsTrue, OnOk};
ghost use Rattle.archive_shelf.specs.Answers.{CountsIf};
ghost use Rattle.http_wire.specs.Messages.{IsOneResponse};
ghost use Rattle.replica.specs.Sources as spec;
ghost use Rattle.replica.specs.Sources.{Asks, Gives, is_outside};

use capture::{Bytes, Memory, Site, Text, put_all, put_number};
use exchange::{FetchFault, HTTP_PORT, Target, Window, fetch};
use http_head::Received;
use message_body::payload_in_place;
use outside::Dialer;
use std::alloc::Global;

/// The status of a response that has a piece (RFC 9110, section 15.3.1).
const OK: u16 = 200;

/// The status of a response that says that there is none yet (RFC 9110, section 15.3.5).
const NO_CONTENT: u16 = 204;

/// Why a source gave neither a piece nor its end.
#[derive(Clone, Copy)]
pub enum SourceFault {
    /// It wasn't reached: the dialer's count of faults rose.
    DialFault,
    /// The link to it failed: the dialer's count of faults rose.
    OriginFault,
    /// What it gave is no whole response.
    Malformed,
    /// Its response passes a limit.
    TooLong,
    /// Its response has this status, by which it gives nothing.
    Refused(u16),
    /// There was no memory.
    Memory,
}

/// The source that is reached at a site.
pub fn source_of(alloc: Global, site: &Site) -> Result<Target, Memory>
    ensures { IfOk result (λ source. source ≡ spec.source_of site.now) }
{
    Ok(Target {
        uri: Text::empty(alloc),
        host: site.host.copy()?,
        port: site.port,
        path: Text::empty(alloc),
    })
}

/// Asks the source once for the piece of the capture with this number; none, where it has no such capture yet. The window is empty, and
/// is so afterwards. Whether the piece is one is for others to say.
pub fn ask<N: Dialer>(
    alloc: Global,
    dialer: &mut N,
    window: &mut Window,
    source: &Target,
    number: u32,
) -> Result<Option<Bytes>, SourceFault>
    requires { window.old ≡ [] }
    ensures asks { IsTrue N.Link.tells → Asks source.now number (N.links dialer.old) (N.links dialer.new) result }
    ensures counts { CountsIf (is_outside result) (N.faults dialer.old) (N.faults dialer.new) }
    ensures window { window.new ≡ [] }
{
    let request = match request_for(alloc, source, number) {
        Ok(request) => request,
        Err(Memory) => return Err(SourceFault::Memory),
    };
    match fetch(alloc, dialer, window, source, false, request.as_slice()) {
        Ok(received) => given_in(received),
        Err(fault) => Err(why(fault)),
    }
}

/// The request for the piece of the capture with this number.
#[tactic(auto, unfolding(crate::specs::Sources::request_text))]
fn request_for(alloc: Global, source: &Target, number: u32) -> Result<Vec<u8>, Memory>
    ensures { IfOk result (λ text. text.items ≡ spec.request_text source.now.host source.now.port number) }
{
    let mut text = Vec::new(alloc);
    put_all(&mut text, b"GET /web/ship/")?;
    put_number(&mut text, u64::from(number))?;
    put_all(&mut text, b" HTTP/1.1\r\nHost: ")?;
    put_authority(&mut text, source.host.as_slice(), source.port)?;
    put_all(&mut text, b"\r\nConnection: close\r\n\r\n")?;
    Ok(text)
}

/// Puts the host, with the port where it isn't the default one (RFC 9110, section 7.2).
#[tactic(auto, unfolding(crate::specs::Sources::authority_text))]
fn put_authority(out: &mut Vec<u8>, host: &[u8], port: u16) -> Result<(), Memory>
    ensures { OnOk result (out.new.items ≡ out.old.items ++ spec.authority_text host.now port) }
{
    put_all(out, host)?;
    if port == HTTP_PORT {
        return Ok(());
    }
    put_all(out, b":")?;
    put_number(out, u64::from(port))
}

/// What a response gives: a whole one its payload, or that there is none yet.
fn given_in(received: Received) -> Result<Option<Bytes>, SourceFault>
    requires { IsOneResponse false received }
    ensures { Gives received result }
{
    let Received {
        head,
        framing,
        wire,
        cut,
    } = received;
    if cut {
        return Err(SourceFault::Malformed);
    }
    let status = head.status;
    if status == OK {
        return Ok(Some(payload_in_place(framing, wire)));
    }
    if status == NO_CONTENT {
        return Ok(None);
    }
    Err(SourceFault::Refused(status))
}

/// Why a fetch gave no response.
fn why(fault: FetchFault) -> SourceFault
    ensures { result ≡ spec.why fault }
{
    match fault {
        FetchFault::DialFault => SourceFault::DialFault,
        FetchFault::OriginFault => SourceFault::OriginFault,
        FetchFault::OriginEnded => SourceFault::Malformed,
        FetchFault::OriginMalformed => SourceFault::Malformed,
        FetchFault::OriginTooLong => SourceFault::TooLong,
        FetchFault::TooManyInterim => SourceFault::Malformed,
        FetchFault::Memory => SourceFault::Memory,
    }
}
