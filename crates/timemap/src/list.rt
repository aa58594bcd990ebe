//! The list itself.
ghost use Rattle.std.specs.Prelude.{◌≡◌, [], ◌++◌, ◌<◌, length, IfOk, OnOk};
ghost use Rattle.std.specs.List.Sorted.{IsNonDecreasingBy};
ghost use Rattle.time_text.specs.Texts.{InRange};
ghost use Rattle.replay_url.specs.Links.{gate_link};
ghost use Rattle.timemap.specs.LinkList.{on_next_line, self_link, timemap_text};

use crate::dates::{date_of, last_date};
use crate::mementos::{put_later_mementos, put_memento_item};
use capture::{Bytes, Memory, Site, put_all};
use index_entry::Entry;
use replay_url::{put_gate_link, put_link_parameter, put_map_link, put_original_link};
use std::alloc::Global;
use time_text::write_http;

/// More than what a link has besides the base and its URL.
const ADDED: usize = 128;

/// The list of the captures of the URL that was asked for (RFC 7089, section 5), in the format of RFC 6690: links to the
/// URL itself, the list, the gate, and to each entry's capture, one for each date. Of entries of one date the first counts.
///
/// The entries are those of the URL's key, in order of their dates. The time grows with their number.
pub fn body(alloc: Global, site: &Site, url: &[u8], entries: &[Entry]) -> Result<Bytes, Memory>
    requires some { 0 < length entries.now }
    requires in_order { IsNonDecreasingBy (λ e. e.date) entries.now }
    ensures { IfOk result (λ text. text ≡ timemap_text site.now.base url.now entries.now) }
{
    let mut out = Vec::with_capacity(alloc, room(site, url, entries.len()))?;
    put_list(&mut out, site, url, entries)?;
    Ok(Bytes::of(out))
}

/// Puts that list into an empty text.
#[tactic(auto, unfolding(crate::specs::LinkList::timemap_text))]
fn put_list(out: &mut Vec<u8>, site: &Site, url: &[u8], entries: &[Entry]) -> Result<(), Memory>
    requires empty { out.old.items ≡ [] }
    requires some { 0 < length entries.now }
    requires in_order { IsNonDecreasingBy (λ e. e.date) entries.now }
    ensures { OnOk result (out.new.items ≡ timemap_text site.now.base url.now entries.now) }
{
    let Some((first, others)) = entries.split_first() else {
        unreachable!()
    };
    let from = date_of(first);
    let until = last_date(entries);
    put_original_link(out, url)?;
    put_self_item(out, site, url, from, until)?;
    put_gate_item(out, site, url)?;
    put_memento_item(out, site, true, from == until, first)?;
    put_later_mementos(out, site, until, from, others)?;
    put_all(out, b"\n")?;
    Ok(())
}

/// Puts the link to the list itself on a line of its own.
#[tactic(auto, unfolding(crate::specs::LinkList::self_link))]
fn put_self_item(
    out: &mut Vec<u8>,
    site: &Site,
    url: &[u8],
    from: u64,
    until: u64,
) -> Result<(), Memory>
    requires from { InRange from }
    requires until { InRange until }
    ensures { OnOk result (out.new.items ≡ out.old.items ++ on_next_line (self_link site.now.base url.now from until)) }
{
    let Ok(from) = write_http(from) else {
        unreachable!()
    };
    let Ok(until) = write_http(until) else {
        unreachable!()
    };
    put_all(out, b",\n")?;
    put_map_link(out, site, b"self", url)?;
    put_link_parameter(out, b"from", &from)?;
    put_link_parameter(out, b"until", &until)
}

/// Puts the link to the URL's gate on a line of its own.
fn put_gate_item(out: &mut Vec<u8>, site: &Site, url: &[u8]) -> Result<(), Memory>
    ensures { OnOk result (out.new.items ≡ out.old.items ++ on_next_line (gate_link site.now.base url.now)) }
{
    put_all(out, b",\n")?;
    put_gate_link(out, site, url)
}

/// About as much as the list takes.
fn room(site: &Site, url: &[u8], count: usize) -> usize {
    let link = site
        .base
        .as_slice()
        .len()
        .saturating_add(url.len())
        .saturating_add(ADDED);
    link.saturating_mul(count.saturating_add(3))
}
