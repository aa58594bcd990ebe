//! Calls over plain texts, by name: dates, digests, lines, keys, addresses, pages and loads. The answer is a text: the value, or
//! the name of the refusal. The crates of further calls stand on the words of this one.
#![tactic(auto)]

mod addresses;
mod keys;
mod loads;
mod pages;
mod texts;
mod times;
mod words;

use capture::Memory;
pub use keys::key_in;
use std::alloc::Global;
pub use words::{always, number, put_next, put_next_number, site_of, told};

/// A call of a case, and the text that it is given.
#[derive(Drop)]
pub struct Call<'a> {
    pub name: &'a str,
    pub text: Vec<u8>,
}

/// What the call answers. `None` where no call has that name, or the text isn't one that the call takes.
pub fn answer(alloc: Global, call: &Call) -> Result<Option<Vec<u8>>, Memory> {
    let text = call.text.as_slice();
    match call.name {
        "read_time" => always(times::read_time_of(alloc, text)),
        "read_http" => always(times::read_http_of(alloc, text)),
        "read_warc" => always(times::read_warc_of(alloc, text)),
        "write_time" => times::write_time_of(alloc, text),
        "write_http" => times::write_http_of(alloc, text),
        "write_warc" => times::write_warc_of(alloc, text),
        "write_digits" => times::write_digits_of(alloc, text),
        "text" => always(texts::text_read(alloc, text)),
        "payload_digest" => always(texts::digest_of(alloc, text)),
        "read_base32" => always(texts::base32_read(alloc, text)),
        "media_type" => always(texts::media_type_of(alloc, Some(text))),
        "default_media_type" => always(texts::media_type_of(alloc, None)),
        "read_line" => always(texts::line_read(alloc, text)),
        "query_object" => always(texts::object_of(alloc, text)),
        _ => address_answer(alloc, call),
    }
}

/// What a call answers that is about a key, an address or a page.
fn address_answer(alloc: Global, call: &Call) -> Result<Option<Vec<u8>>, Memory> {
    let text = call.text.as_slice();
    match call.name {
        "key_of" => always(keys::key_text(alloc, text)),
        "key_of_address" => always(keys::address_key(alloc, text)),
        "key_order" => keys::key_order(alloc, text),
        "key_prefix" => keys::key_prefix(alloc, text),
        "accepted_uri" => always(keys::is_accepted(alloc, text)),
        "read_form" => always(addresses::form_read(alloc, text)),
        "write_form" => addresses::form_written(alloc, text),
        "rewrite" => always(pages::rewritten(alloc, text)),
        "rewrite_of" => pages::rewritten_of(alloc, text),
        _ => load_answer(alloc, call),
    }
}

/// What a call answers that is about a load.
fn load_answer(alloc: Global, call: &Call) -> Result<Option<Vec<u8>>, Memory> {
    let text = call.text.as_slice();
    match call.name {
        "load_client" => loads::client_of(alloc, text),
        "load_origin" => loads::origin_of(alloc, text),
        "load_payload" => loads::payload_of(alloc, text),
        "load_uri" => loads::uri_of(alloc, text),
        "load_date" => loads::date_of(alloc, text),
        _ => Ok(None),
    }
}
