//! The links to the mementos of a URL.
ghost use Rattle.std.specs.Prelude.{◌≡◌, ◌++◌, OnOk, false};
ghost use Rattle.replay_url.specs.Forms.{memento_address};
ghost use Rattle.replay_url.specs.Links.{link_target};
ghost use Rattle.timemap.specs.LinkList.{on_next_line};
ghost use Rattle.timemap.specs.Mementos as spec;
ghost use Rattle.timemap.specs.Mementos.{memento_link};
ghost use Rattle.timemap.specs.Passing.{later_text, later_texts};
ghost use Rattle.time_text.specs.Texts.{time_digits};

use crate::dates::date_of;
use capture::{Memory, Site, put_all};
use index_entry::Entry;
use replay_url::{put_link_parameter, put_memento};
use time_text::{write_http, write_time};

/// Puts the links to the entries behind one of the previous date, each date once. `last` is the date of the last one.
pub fn put_later_mementos(
    out: &mut Vec<u8>,
    site: &Site,
    last: u64,
    mut previous: u64,
    entries: &[Entry],
) -> Result<(), Memory>
    ensures { OnOk result (out.new.items ≡ out.old.items ++ later_texts site.now.base last previous entries.now) }
{
    for entry in entries {
        put_later(out, site, last, previous, entry)?;
        previous = date_of(entry);
    }
    Ok(())
}

/// Puts the link to a memento, unless the one before it has the same date.
fn put_later(
    out: &mut Vec<u8>,
    site: &Site,
    last: u64,
    previous: u64,
    entry: &Entry,
) -> Result<(), Memory>
    ensures { OnOk result (out.new.items ≡ out.old.items ++ later_text site.now.base last previous entry.now) }
{
    let date = date_of(entry);
    if date == previous {
        return Ok(());
    }
    put_memento_item(out, site, false, date == last, entry)
}

/// Puts the link to a memento on a line of its own, behind a comma.
#[tactic(auto, unfolding(crate::specs::Mementos::memento_link))]
pub fn put_memento_item(
    out: &mut Vec<u8>,
    site: &Site,
    first: bool,
    last: bool,
    entry: &Entry,
) -> Result<(), Memory>
    ensures { OnOk result (out.new.items ≡ out.old.items ++ on_next_line (memento_link site.now.base first last entry.now)) }
{
    let Ok(date) = write_http(entry.date) else {
        unreachable!()
    };
    put_all(out, b",\n")?;
    put_memento_target(out, site, entry)?;
    put_link_parameter(out, b"rel", relation(first, last))?;
    put_link_parameter(out, b"datetime", &date)
}

/// The relation of a memento to the others (RFC 7089, section 2.2.4): the first, the last, both or neither.
#[tactic(auto, unfolding(crate::specs::Mementos::relation))]
fn relation(first: bool, last: bool) -> &'static [u8]
    ensures { result.now ≡ spec.relation first last }
{
    match (first, last) {
        (true, true) => b"first last memento",
        (true, false) => b"first memento",
        (false, true) => b"last memento",
        (false, false) => b"memento",
    }
}

/// Puts the address of a memento, by all digits of its date, as the target of a link (RFC 8288, section 3).
fn put_memento_target(out: &mut Vec<u8>, site: &Site, entry: &Entry) -> Result<(), Memory>
    ensures { OnOk result (out.new.items ≡ out.old.items
        ++ link_target (memento_address site.now.base (time_digits entry.now.date) false entry.now.uri)) }
{
    let Ok(digits) = write_time(entry.date) else {
        unreachable!()
    };
    put_all(out, b"<")?;
    put_memento(out, site, digits.as_slice(), false, entry.uri.as_slice())?;
    put_all(out, b">")
}
