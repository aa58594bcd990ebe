//! Links to what the archive has of a URL (RFC 8288, section 3; RFC 7089, section 2.2).
ghost use Rattle.std.specs.Prelude.{◌≡◌, ◌++◌, OnOk};
ghost use Rattle.replay_url.specs.Forms.{map_address};
ghost use Rattle.replay_url.specs.Links.{gate_link, link_parameter, link_target, map_link, original_link};

use crate::put::{put_gate, put_map};
use capture::{Memory, Site, put_all};

/// Puts a parameter of a link, with its value in quotes.
#[tactic(auto, unfolding(crate::specs::Links::link_parameter))]
pub fn put_link_parameter(out: &mut Vec<u8>, name: &[u8], value: &[u8]) -> Result<(), Memory>
    ensures { OnOk result (out.new.items ≡ out.old.items ++ link_parameter name.now value.now) }
{
    put_all(out, b"; ")?;
    put_all(out, name)?;
    put_all(out, b"=\"")?;
    put_all(out, value)?;
    put_all(out, b"\"")
}

/// Puts the link to the URL itself.
#[tactic(auto, unfolding(crate::specs::Links::original_link, crate::specs::Links::link_target))]
pub fn put_original_link(out: &mut Vec<u8>, url: &[u8]) -> Result<(), Memory>
    ensures { OnOk result (out.new.items ≡ out.old.items ++ original_link url.now) }
{
    put_all(out, b"<")?;
    put_all(out, url)?;
    put_all(out, b">")?;
    put_link_parameter(out, b"rel", b"original")
}

/// Puts the link to a URL's gate.
#[tactic(auto, unfolding(crate::specs::Links::gate_link, crate::specs::Links::link_target))]
pub fn put_gate_link(out: &mut Vec<u8>, site: &Site, url: &[u8]) -> Result<(), Memory>
    ensures { OnOk result (out.new.items ≡ out.old.items ++ gate_link site.now.base url.now) }
{
    put_all(out, b"<")?;
    put_gate(out, site, url)?;
    put_all(out, b">")?;
    put_link_parameter(out, b"rel", b"timegate")
}

/// Puts the link to the list of a URL's captures, as this relation: `timemap`, or `self` in the list itself.
#[tactic(auto, unfolding(crate::specs::Links::map_link))]
pub fn put_map_link(
    out: &mut Vec<u8>,
    site: &Site,
    relation: &[u8],
    url: &[u8],
) -> Result<(), Memory>
    ensures { OnOk result (out.new.items ≡ out.old.items ++ map_link relation.now site.now.base url.now) }
{
    put_map_target(out, site, url)?;
    put_link_parameter(out, b"rel", relation)?;
    put_link_parameter(out, b"type", b"application/link-format")
}

/// Puts the address of the list of a URL's captures between angle brackets.
#[tactic(auto, unfolding(crate::specs::Links::link_target))]
fn put_map_target(out: &mut Vec<u8>, site: &Site, url: &[u8]) -> Result<(), Memory>
    ensures { OnOk result (out.new.items ≡ out.old.items ++ link_target (map_address site.now.base url.now)) }
{
    put_all(out, b"<")?;
    put_map(out, site, url)?;
    put_all(out, b">")
}
