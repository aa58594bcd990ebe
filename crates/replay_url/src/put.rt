//! Writing an address.
ghost use Rattle.std.specs.Prelude.{◌≡◌, ◌++◌, Contains, IfOk, OnOk, IsAscii};
ghost use Rattle.time_text.specs.Reading.{lengths};
ghost use Rattle.time_text.specs.Texts.{InRange};
ghost use Rattle.replay_url.specs.Forms.{CanBePut, address_text, gate_address, map_address, memento_address, memento_digits, number_address, piece_address, query_address, raw_text};

use crate::Form;
use capture::{Memory, Site, Text, put_all, put_number};
use std::alloc::Global;
use time_text::{texts_have_no_blanks, write_digits};

/// The whole address of a form: the site's base, `/web/` and the form. A memento's time has `digits` digits, smaller
/// units dropped.
pub fn put_form(alloc: Global, site: &Site, form: &Form) -> Result<Text, Memory>
    requires { CanBePut form.now }
    ensures { IfOk result (λ address. address ≡ address_text site.now.base form.now) }
{
    let mut out = Vec::new(alloc);
    put_address(&mut out, site, form)?;
    match Text::of(out) {
        Some(address) => Ok(address),
        None => unreachable!(),
    }
}

/// Puts the whole address of a form.
fn put_address(out: &mut Vec<u8>, site: &Site, form: &Form) -> Result<(), Memory>
    requires { CanBePut form.now }
    ensures text { OnOk result (out.new.items ≡ out.old.items ++ address_text site.now.base form.now) }
    ensures ascii { OnOk result (IsAscii (address_text site.now.base form.now)) }
{
    // The check knows from this call that the base is of ASCII.
    let _base = site.base.as_slice();
    match form {
        Form::Memento {
            time,
            digits,
            raw,
            url,
        } => put_at_time(out, site, *time, *digits, *raw, url.as_slice()),
        Form::Gate { url } => put_gate(out, site, url.as_slice()),
        Form::Map { url } => put_map(out, site, url.as_slice()),
        Form::Query { text } => put_query(out, site, text.as_slice()),
        Form::Number(number) => put_of_number(out, site, *number),
        Form::Ship(number) => put_piece(out, site, *number),
    }
}

/// Puts the address of the memento of a URL: the site's base, `/web/`, the digits of its time, `id_` where it is asked
/// for as it was received, `/` and the URL.
#[tactic(auto, unfolding(crate::specs::Forms::memento_address))]
pub fn put_memento(
    out: &mut Vec<u8>,
    site: &Site,
    digits: &[u8],
    raw: bool,
    url: &[u8],
) -> Result<(), Memory>
    ensures { OnOk result (out.new.items ≡ out.old.items ++ memento_address site.now.base digits.now raw url.now) }
{
    put_all(out, site.base.as_slice())?;
    put_all(out, b"/web/")?;
    put_all(out, digits)?;
    put_modifier(out, raw)?;
    put_all(out, b"/")?;
    put_all(out, url)
}

/// Puts the address of a URL's gate: the site's base, `/web/` and the URL.
#[tactic(auto, unfolding(crate::specs::Forms::gate_address))]
pub fn put_gate(out: &mut Vec<u8>, site: &Site, url: &[u8]) -> Result<(), Memory>
    ensures { OnOk result (out.new.items ≡ out.old.items ++ gate_address site.now.base url.now) }
{
    put_all(out, site.base.as_slice())?;
    put_all(out, b"/web/")?;
    put_all(out, url)
}

/// Puts the address of the list of a URL's captures: the site's base, `/web/timemap/link/` and the URL.
#[tactic(auto, unfolding(crate::specs::Forms::map_address))]
pub fn put_map(out: &mut Vec<u8>, site: &Site, url: &[u8]) -> Result<(), Memory>
    ensures { OnOk result (out.new.items ≡ out.old.items ++ map_address site.now.base url.now) }
{
    put_all(out, site.base.as_slice())?;
    put_all(out, b"/web/timemap/link/")?;
    put_all(out, url)
}

/// Puts the address of a memento by its time, in milliseconds since 1970, of which `digits` digits stand in it.
fn put_at_time(
    out: &mut Vec<u8>,
    site: &Site,
    time: u64,
    digits: usize,
    raw: bool,
    url: &[u8],
) -> Result<(), Memory>
    requires in_range { InRange time }
    requires whole_units { Contains lengths digits }
    ensures text { OnOk result (out.new.items ≡ out.old.items ++ memento_address site.now.base (memento_digits time digits) raw url.now) }
    ensures digits { IsAscii (memento_digits time digits) }
{
    texts_have_no_blanks();
    match write_digits(time, digits) {
        Ok(text) => put_memento(out, site, text.as_slice(), raw, url),
        Err(_) => unreachable!(),
    }
}

/// Puts the address of a capture by its number: the site's base, `/web/rec/` and the number.
#[tactic(auto, unfolding(crate::specs::Forms::number_address))]
fn put_of_number(out: &mut Vec<u8>, site: &Site, number: u32) -> Result<(), Memory>
    ensures { OnOk result (out.new.items ≡ out.old.items ++ number_address site.now.base number) }
{
    put_all(out, site.base.as_slice())?;
    put_all(out, b"/web/rec/")?;
    put_number(out, u64::from(number))
}

/// Puts the address of a query: the site's base, `/web/cdx?` and its text.
#[tactic(auto, unfolding(crate::specs::Forms::query_address))]
fn put_query(out: &mut Vec<u8>, site: &Site, text: &[u8]) -> Result<(), Memory>
    ensures { OnOk result (out.new.items ≡ out.old.items ++ query_address site.now.base text.now) }
{
    put_all(out, site.base.as_slice())?;
    put_all(out, b"/web/cdx?")?;
    put_all(out, text)
}

/// Puts the address of a piece to be shipped: the site's base, `/web/ship/` and its number.
#[tactic(auto, unfolding(crate::specs::Forms::piece_address))]
fn put_piece(out: &mut Vec<u8>, site: &Site, number: u32) -> Result<(), Memory>
    ensures { OnOk result (out.new.items ≡ out.old.items ++ piece_address site.now.base number) }
{
    put_all(out, site.base.as_slice())?;
    put_all(out, b"/web/ship/")?;
    put_number(out, u64::from(number))
}

/// Puts `id_` where the memento is asked for as it was received, and else nothing.
fn put_modifier(out: &mut Vec<u8>, raw: bool) -> Result<(), Memory>
    ensures { OnOk result (out.new.items ≡ out.old.items ++ raw_text raw) }
{
    if raw {
        return put_all(out, b"id_");
    }
    Ok(())
}
