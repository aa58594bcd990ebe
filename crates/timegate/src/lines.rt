//! The lines of a redirect.
ghost use Rattle.std.specs.Prelude.{◌≡◌, ◌++◌, OnOk};
ghost use Rattle.time_text.specs.Texts.{InRange};
ghost use Rattle.head_lines.specs.Lines.{link_line};
ghost use Rattle.timegate.specs.Redirect.{location_line, redirect_links, vary_line_where};

use capture::{Memory, Site, put_all};
use head_lines::{put_line_end, put_link_name};
use replay_url::{put_map_link, put_memento, put_original_link};
use time_text::write_time;

/// Puts where the capture of this date and URL is replayed (RFC 9110, section 10.2.2).
#[tactic(auto, unfolding(crate::specs::Redirect::location_line))]
pub fn put_location_line(
    out: &mut Vec<u8>,
    site: &Site,
    date: u64,
    raw: bool,
    url: &[u8],
) -> Result<(), Memory>
    requires { InRange date }
    ensures { OnOk result (out.new.items ≡ out.old.items ++ location_line site.now.base date raw url.now) }
{
    let Ok(digits) = write_time(date) else {
        unreachable!()
    };
    put_all(out, b"Location: ")?;
    put_memento(out, site, digits.as_slice(), raw, url)?;
    put_line_end(out)
}

/// Puts that the answer depends on the time that was asked for (RFC 7089, section 2.1.2), where a gate answers.
#[tactic(auto, unfolding(crate::specs::Redirect::vary_line_where))]
pub fn put_vary_line(out: &mut Vec<u8>, by_gate: bool) -> Result<(), Memory>
    ensures { OnOk result (out.new.items ≡ out.old.items ++ vary_line_where by_gate) }
{
    if by_gate {
        return put_all(out, b"Vary: accept-datetime\r\n");
    }
    Ok(())
}

/// Puts the links to the URL that was asked for and to the list of its captures (RFC 8288).
#[tactic(auto, unfolding(crate::specs::Redirect::redirect_links))]
pub fn put_links(out: &mut Vec<u8>, site: &Site, url: &[u8]) -> Result<(), Memory>
    ensures { OnOk result (out.new.items ≡ out.old.items ++ link_line (redirect_links site.now.base url.now)) }
{
    put_link_name(out)?;
    put_original_link(out, url)?;
    put_all(out, b", ")?;
    put_map_link(out, site, b"timemap", url)?;
    put_line_end(out)
}
