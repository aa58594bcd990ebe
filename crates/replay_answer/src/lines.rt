//! Lines of a memento's head.
ghost use Rattle.std.specs.Prelude.{◌≡◌, ◌++◌, OnOk};
ghost use Rattle.time_text.specs.Texts.{InRange};
ghost use Rattle.head_lines.specs.Lines.{link_line};
ghost use Rattle.replay_answer.specs.Lines.{datetime_line, length_line_where, memento_links};

use capture::{Memory, Site, put_all};
use head_lines::{put_length_line, put_line_end, put_link_name, tells_no_length};
use replay_url::{put_gate_link, put_map_link, put_original_link};
use time_text::write_http;

/// Puts when the response was captured (RFC 7089, section 2.1.1).
#[tactic(auto, unfolding(crate::specs::Lines::datetime_line))]
pub fn put_datetime_line(out: &mut Vec<u8>, date: u64) -> Result<(), Memory>
    requires { InRange date }
    ensures { OnOk result (out.new.items ≡ out.old.items ++ datetime_line date) }
{
    let Ok(text) = write_http(date) else {
        unreachable!()
    };
    put_all(out, b"Memento-Datetime: ")?;
    put_all(out, &text)?;
    put_line_end(out)
}

/// Puts the links to the URL itself, to its gate and to the list of its captures (RFC 7089, section 2.2).
#[tactic(auto, unfolding(crate::specs::Lines::memento_links))]
pub fn put_links(out: &mut Vec<u8>, site: &Site, url: &[u8]) -> Result<(), Memory>
    ensures { OnOk result (out.new.items ≡ out.old.items ++ link_line (memento_links site.now.base url.now)) }
{
    put_link_name(out)?;
    put_original_link(out, url)?;
    put_all(out, b", ")?;
    put_gate_link(out, site, url)?;
    put_all(out, b", ")?;
    put_map_link(out, site, b"timemap", url)?;
    put_line_end(out)
}

/// Puts the length of the body, where the response has one (RFC 9110, section 8.6).
#[tactic(auto, unfolding(crate::specs::Lines::length_line_where))]
pub fn put_length_where(out: &mut Vec<u8>, status: u16, length: usize) -> Result<(), Memory>
    ensures { OnOk result (out.new.items ≡ out.old.items ++ length_line_where status length) }
{
    if tells_no_length(status) {
        return Ok(());
    }
    put_length_line(out, length as u64)
}
