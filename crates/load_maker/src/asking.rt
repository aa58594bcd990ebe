//! What clients ask.
ghost use Rattle.std.specs.Prelude.{◌≡◌, ◌-◌, ◌++◌, IfOk, OnOk};
ghost use Rattle.load_maker.specs.Load as load;

use crate::exchange::put_host;
use capture::{Bytes, Memory, put_all, put_number};
use std::alloc::Global;

/// Room for the longest request, in bytes.
const REQUEST_ROOM: usize = 80;

/// What a client sends over one connection: the requests of the exchanges from one number up to another, which isn't
/// among them.
#[tactic(auto, using(crate::proofs::Requests::one_more, crate::proofs::Requests::none_left))]
pub fn client(alloc: Global, from: u32, to: u32) -> Result<Bytes, Memory>
    ensures { IfOk result (λ text. text ≡ load.requests_text from (to - from)) }
{
    let mut out = Vec::new(alloc);
    for number in from..to {
        out.reserve(REQUEST_ROOM)?;
        put_request(&mut out, number)?;
    }
    Ok(Bytes::of(out))
}

/// The URL of an exchange.
pub fn uri(alloc: Global, number: u32) -> Result<Bytes, Memory>
    ensures { IfOk result (λ text. text ≡ load.uri_text number) }
{
    let mut out = Vec::new(alloc);
    put_uri(&mut out, number)?;
    Ok(Bytes::of(out))
}

/// Puts the request of an exchange, as it is sent to a proxy (RFC 9112, section 3.2.2).
#[tactic(auto, unfolding(crate::specs::Load::request_text, crate::specs::Load::uri_text))]
fn put_request(out: &mut Vec<u8>, number: u32) -> Result<(), Memory>
    ensures { OnOk result (out.new.items ≡ out.old.items ++ load.request_text number) }
{
    put_all(out, b"GET ")?;
    put_uri(out, number)?;
    put_all(out, b" HTTP/1.1\r\nHost: ")?;
    put_host(out, number)?;
    put_all(out, b"\r\n\r\n")
}

/// Puts the URL of an exchange.
#[tactic(auto, unfolding(crate::specs::Load::uri_text))]
fn put_uri(out: &mut Vec<u8>, number: u32) -> Result<(), Memory>
    ensures { OnOk result (out.new.items ≡ out.old.items ++ load.uri_text number) }
{
    put_all(out, b"http://")?;
    put_host(out, number)?;
    put_all(out, b"/p")?;
    put_number(out, u64::from(number))
}
