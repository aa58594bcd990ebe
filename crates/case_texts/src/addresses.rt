//! Calls of `replay_url`.
ghost use Rattle.std.specs.Prelude.{IsTrue};
ghost use Rattle.replay_url.specs.Forms.{CanBePut};

use crate::words::{always, number, site_of, told};
use capture::{Memory, Text, put_all, put_number};
use replay_url::{Form, FormFault, put_form, read_form};
use std::alloc::Global;
use time_text::{LATEST, ends_with_a_unit};

/// The form, and its parts.
pub fn form_read(alloc: Global, text: &[u8]) -> Result<Vec<u8>, Memory> {
    match read_form(alloc, text) {
        Ok(form) => form_text(alloc, &form),
        Err(FormFault::NotAForm) => told(alloc, b"NotAForm"),
        Err(FormFault::BadTime) => told(alloc, b"BadTime"),
        Err(FormFault::Memory) => Err(Memory),
    }
}

fn form_text(alloc: Global, form: &Form) -> Result<Vec<u8>, Memory> {
    match form {
        Form::Memento {
            time,
            digits,
            raw,
            url,
        } => {
            let mut out = Vec::new(alloc);
            put_memento(&mut out, *time, *digits as u64, *raw)?;
            put_url(out, url)
        }
        Form::Gate { url } => put_url(told(alloc, b"gate")?, url),
        Form::Map { url } => put_url(told(alloc, b"map")?, url),
        Form::Query { text } => {
            let mut out = told(alloc, b"query ")?;
            put_all(&mut out, text.as_slice())?;
            Ok(out)
        }
        Form::Number(number_of) => numbered(alloc, b"number ", *number_of),
        Form::Ship(number_of) => numbered(alloc, b"ship ", *number_of),
    }
}

/// The word, and a number behind it.
fn numbered(alloc: Global, word: &[u8], number_of: u32) -> Result<Vec<u8>, Memory> {
    let mut out = told(alloc, word)?;
    put_all(&mut out, number(alloc, u64::from(number_of))?.as_slice())?;
    Ok(out)
}

/// Puts what is said of a memento before its url.
fn put_memento(out: &mut Vec<u8>, time: u64, digits: u64, raw: bool) -> Result<(), Memory> {
    put_all(out, memento_word(raw))?;
    put_number(out, time)?;
    put_all(out, b" ")?;
    put_number(out, digits)
}

fn memento_word(raw: bool) -> &'static [u8] {
    if raw {
        return b"raw memento ";
    }
    b"memento "
}

fn put_url(mut out: Vec<u8>, url: &Text) -> Result<Vec<u8>, Memory> {
    put_all(&mut out, b" ")?;
    put_all(&mut out, url.as_slice())?;
    Ok(out)
}

/// The form that is read of an address, written behind the site's base.
pub fn form_written(alloc: Global, text: &[u8]) -> Result<Option<Vec<u8>>, Memory> {
    match read_form(alloc, text) {
        Ok(form) => put_again(alloc, &form),
        Err(FormFault::Memory) => Err(Memory),
        Err(_) => Ok(None),
    }
}

fn put_again(alloc: Global, form: &Form) -> Result<Option<Vec<u8>>, Memory> {
    if can_be_put(form) {
        return always(address_of(alloc, form));
    }
    Ok(None)
}

fn address_of(alloc: Global, form: &Form) -> Result<Vec<u8>, Memory>
    requires { CanBePut form.now }
{
    let site = site_of(alloc)?;
    let address = put_form(alloc, &site, form)?;
    told(alloc, address.as_slice())
}

/// Whether the form's time has a text in so many digits, which holds of each form that is read, and its query is of ASCII.
fn can_be_put(form: &Form) -> bool
    ensures { IsTrue result → CanBePut form.now }
{
    match form {
        Form::Memento { time, digits, .. } => *time <= LATEST && ends_with_a_unit(*digits),
        Form::Gate { .. } => true,
        Form::Map { .. } => true,
        Form::Query { text } => text.as_slice().is_ascii(),
        Form::Number(_) => true,
        Form::Ship(_) => true,
    }
}
