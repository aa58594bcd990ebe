//! The answer that passes a response on, as it is ready before the exchange is stored.
ghost use Rattle.std.specs.Prelude.{◌≡◌, ◌++◌, ◌||◌, ℕ, Bool, List, length, IfOk, OnOk};
ghost use Rattle.capture.specs.Payload.{IsPayload};
ghost use Rattle.exchange.specs.Texts.{answered_head};
ghost use Rattle.http_wire.specs.Messages.{IsOneResponse};
ghost use Rattle.request_answer.specs.steps.Exchanging.{PassesOn, given_of};

use crate::answer_text::{Answer, SHORT};
use capture::{Bytes, Framing, Memory, put_all};
use exchange::put_client_head;
use http_head::Received;
use message_body::{Slices, payload_in_place};
use std::alloc::Global;

/// More than what the proxy adds to a head.
const ADDED: usize = 256;

/// What is ready of an answer before the exchange is stored.
#[derive(Drop)]
pub struct Ready {
    /// The head, and behind it the payload where that is short.
    pub text: Bytes,
    /// What is written behind that.
    pub rest: Rest,
    /// The framing of the response's wire.
    pub framing: Framing,
    /// Whether the connection closes behind it.
    pub closes: bool,
}

/// What is written behind the text that is ready.
#[derive(Clone, Copy)]
pub enum Rest {
    /// Nothing.
    Nothing,
    /// The payload, which is made in the memory of the wire.
    Payload,
}

impl Ready {
    /// The answer, once the exchange was stored and its wire isn't needed any more. Takes no memory.
    pub fn given(self, wire: Bytes) -> Answer
        ensures { (cut : Bool) (payload : List ℕ) → IsPayload cut self.framing wire payload → result ≡ given_of self payload }
    {
        let Ready {
            text,
            rest,
            framing,
            closes,
        } = self;
        match rest {
            Rest::Nothing => Answer::of(text, closes),
            Rest::Payload => Answer::with_body(text, payload_in_place(framing, wire), closes),
        }
    }
}

/// The answer that passes a response on, whole or cut. One that was cut closes the connection. A long payload takes no memory
/// beside its wire.
pub fn passed_on(
    alloc: Global,
    received: &Received,
    answers_head: bool,
    closes: bool,
) -> Result<Ready, Memory>
    requires { IsOneResponse answers_head received.now }
    ensures framing { IfOk result (λ ready. ready.framing ≡ received.now.framing) }
    ensures passes { (payload : List ℕ) → IsPayload received.now.cut received.now.framing received.now.wire payload
        → IfOk result (λ ready. PassesOn received.now answers_head closes (given_of ready payload)) }
{
    let framing = received.framing;
    let wire = received.wire.as_slice();
    let len = payload_len(framing, wire);
    let closes = closes_behind(received.cut, closes);
    let text = head_of(alloc, received, len, answers_head, closes)?;
    if len <= SHORT {
        return Ok(Ready {
            text: with_payload(text, framing, wire)?,
            rest: Rest::Nothing,
            framing,
            closes,
        });
    }
    Ok(Ready {
        text: Bytes::of(text),
        rest: Rest::Payload,
        framing,
        closes,
    })
}

/// Whether the connection closes behind a response, which was cut or not.
fn closes_behind(cut: bool, closes: bool) -> bool
    ensures { result ≡ (cut || closes) }
{
    cut || closes
}

/// The head of the answer that passes a response on, whose payload is so long.
fn head_of(
    alloc: Global,
    received: &Received,
    len: usize,
    answers_head: bool,
    closes: bool,
) -> Result<Vec<u8>, Memory>
    requires { IsOneResponse answers_head received.now }
    ensures { IfOk result (λ text. text.items ≡ answered_head received.now len answers_head closes) }
{
    let capacity = received.head.text.as_slice().len().saturating_add(ADDED);
    let mut text = Vec::with_capacity(alloc, capacity)?;
    put_client_head(alloc, &mut text, received, len as u64, answers_head, closes)?;
    Ok(text)
}

/// How long the payload of a wire is, whole or cut.
fn payload_len(framing: Framing, wire: &[u8]) -> usize
    ensures { (cut : Bool) (payload : List ℕ) → IsPayload cut framing wire.now payload → result ≡ length payload }
{
    let mut slices = Slices::of(framing, wire);
    // The check knows by this call how far the sum goes.
    let most = slices.rest.len();
    let mut len = 0;
    'counting: loop {
        let slice = slices.next();
        if slice.is_empty() {
            return len;
        }
        len += slice.len();
    }
}

/// The text, and behind it the payload of a wire, whole or cut.
fn with_payload(text: Vec<u8>, framing: Framing, wire: &[u8]) -> Result<Bytes, Memory>
    ensures { (cut : Bool) (payload : List ℕ) → IsPayload cut framing wire.now payload → IfOk result (λ bytes. bytes ≡ text.items ++ payload) }
{
    let mut text = text;
    put_payload(&mut text, framing, wire)?;
    Ok(Bytes::of(text))
}

/// Puts the payload of a wire, whole or cut, at the end.
fn put_payload(out: &mut Vec<u8>, framing: Framing, wire: &[u8]) -> Result<(), Memory>
    ensures { (cut : Bool) (payload : List ℕ) → IsPayload cut framing wire.now payload → OnOk result (out.new.items ≡ out.old.items ++ payload) }
{
    let mut slices = Slices::of(framing, wire);
    'putting: loop {
        let slice = slices.next();
        if slice.is_empty() {
            return Ok(());
        }
        put_all(out, slice)?;
    }
}
