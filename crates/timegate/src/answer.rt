//! Redirects to a memento.
ghost use Rattle.std.specs.Prelude.{◌≡◌, ◌++◌, IfOk, OnOk};
ghost use Rattle.head_lines.specs.Lines.{head_end, link_line};
ghost use Rattle.timegate.specs.Redirect.{redirect_links, redirect_text, vary_line_where};

use crate::lines::{put_links, put_location_line, put_vary_line};
use capture::{Bytes, Memory, Site};
use head_lines::{Status, put_head_end, put_own_status_line};
use index_entry::Entry;
use std::alloc::Global;

/// More than what the answer has besides the base and the URLs.
const ADDED: usize = 512;

/// The answer that leads to the capture of an entry, where `url` was asked for (RFC 7089, section 4): a 302 to the entry's
/// own URL at its date, with links to the original and to the list of its captures.
///
/// A capture that was asked for as it was received (`raw`) has `id_` behind its digits. Where a gate answers, the answer
/// varies with the time that was asked for. `closes` says whether the connection closes.
#[tactic(auto, unfolding(crate::specs::Redirect::redirect_text))]
pub fn redirect(
    alloc: Global,
    site: &Site,
    url: &[u8],
    entry: &Entry,
    raw: bool,
    by_gate: bool,
    closes: bool,
) -> Result<Bytes, Memory>
    ensures { IfOk result (λ text. text ≡ redirect_text site.now.base url.now entry.now raw by_gate closes) }
{
    let mut out = Vec::with_capacity(alloc, room(site, url, entry))?;
    put_own_status_line(&mut out, Status::Found)?;
    put_location_line(&mut out, site, entry.date, raw, entry.uri.as_slice())?;
    put_rest(&mut out, site, url, by_gate, closes)?;
    Ok(Bytes::of(out))
}

/// Puts what stands behind the line that leads to the capture.
fn put_rest(
    out: &mut Vec<u8>,
    site: &Site,
    url: &[u8],
    by_gate: bool,
    closes: bool,
) -> Result<(), Memory>
    ensures { OnOk result (out.new.items ≡ out.old.items ++ vary_line_where by_gate ++ link_line (redirect_links site.now.base url.now) ++ head_end 0 closes) }
{
    put_vary_line(out, by_gate)?;
    put_links(out, site, url)?;
    put_head_end(out, 0, closes)
}

/// As much as the answer takes, or a little more.
fn room(site: &Site, url: &[u8], entry: &Entry) -> usize {
    let base = site.base.as_slice().len();
    let urls = url
        .len()
        .saturating_mul(2)
        .saturating_add(entry.uri.as_slice().len());
    base.saturating_mul(2)
        .saturating_add(urls)
        .saturating_add(ADDED)
}
