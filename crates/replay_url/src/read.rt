//! Reading an address.
ghost use Rattle.std.specs.Prelude.{IfOk, IfErr};
ghost use Rattle.replay_url.specs.Address.{Timed};
ghost use Rattle.replay_url.specs.Forms.{FaultAt, FormAt, IsFault, IsForm, IsUrl, IsUrlFault};
ghost use Rattle.replay_url.specs.Keyed.{HasKey, HasKeys, form_of};

use crate::address::{Address, address_at};
use crate::number::read_number;
use crate::{Form, FormFault, KeyedForm};
use capture::Bytes;
use std::alloc::Global;
use surt_key::{KeyFault, KeyedUrl, key_of_address};
use time_text::read_time;

/// What an address of the archive's site asks for.
///
/// Behind `/web/` stand: `rec/` or `ship/`, and a number; `timemap/link/` and a URL; `cdx?` and a query, which isn't read; 4, 6, 8,
/// 10, 12, 14 or 17 digits with or without `id_`, a slash and a URL; or a URL. A URL without a scheme gets `http://` before it. An address is read from
/// left to right: `BadTime` where such digits name no time, and `NotAForm` for every other address, as where digits
/// have another modifier or no key is made of the URL.
pub fn read_form(alloc: Global, target: &[u8]) -> Result<Form, FormFault>
    ensures form { IfOk result (IsForm target.now) }
    ensures fault { IfErr result (IsFault target.now) }
{
    match read_keyed_form(alloc, target) {
        Ok(keyed) => Ok(keyed.into_form()),
        Err(fault) => Err(fault),
    }
}

/// What an address of the archive's site asks for, as `read_form` tells it, with the look-up key of its URL.
pub fn read_keyed_form(alloc: Global, target: &[u8]) -> Result<KeyedForm, FormFault>
    ensures form { IfOk result (λ keyed. IsForm target.now (form_of keyed)) }
    ensures keys { IfOk result HasKeys }
    ensures fault { IfErr result (IsFault target.now) }
{
    match address_at(target) {
        Address::ANumber(text) => match read_number(text) {
            Some(number) => Ok(KeyedForm::Number(number)),
            None => Err(FormFault::NotAForm),
        },
        Address::AShip(text) => match read_number(text) {
            Some(number) => Ok(KeyedForm::Ship(number)),
            None => Err(FormFault::NotAForm),
        },
        Address::AMap(text) => {
            let of = url_at(alloc, text)?;
            Ok(KeyedForm::Map { of })
        }
        Address::AQuery(text) => Ok(KeyedForm::Query {
            text: Bytes::of(Vec::from_slice(alloc, text)?),
        }),
        Address::AMemento { digits, raw, url } => memento(alloc, digits, raw, url),
        Address::AModified => Err(FormFault::NotAForm),
        Address::AGate(text) => {
            let of = url_at(alloc, text)?;
            Ok(KeyedForm::Gate { of })
        }
        Address::AnotherPath => Err(FormFault::NotAForm),
    }
}

/// The form of a memento by its digits, whether it is raw, and what stands behind the slash.
fn memento(alloc: Global, digits: &[u8], raw: bool, text: &[u8]) -> Result<KeyedForm, FormFault>
    ensures form { IfOk result (λ keyed. FormAt (Timed digits.now raw text.now) (form_of keyed)) }
    ensures keys { IfOk result HasKeys }
    ensures fault { IfErr result (FaultAt (Timed digits.now raw text.now)) }
{
    let Ok(time) = read_time(digits) else {
        return Err(FormFault::BadTime);
    };
    let of = url_at(alloc, text)?;
    Ok(KeyedForm::Memento {
        time,
        digits: digits.len(),
        raw,
        of,
    })
}

/// The URL of an address with its key; `NotAForm` where no key is made of it.
fn url_at(alloc: Global, text: &[u8]) -> Result<KeyedUrl, FormFault>
    ensures url { IfOk result (λ of. IsUrl text.now of.url) }
    ensures key { IfOk result HasKey }
    ensures fault { IfErr result (IsUrlFault text.now) }
{
    match key_of_address(alloc, text) {
        Ok(of) => Ok(of),
        Err(KeyFault::NotHttp) => Err(FormFault::NotAForm),
        Err(KeyFault::Memory) => Err(FormFault::Memory),
    }
}
