//! Lines of the messages that go on past the proxy.
ghost use Rattle.std.specs.Prelude.{◌≡◌, ◌++◌, OnOk};
ghost use Rattle.http_head.specs.Heads.{minor_of, named_value};
ghost use Rattle.head_lines.specs.Lines.{field_line};
ghost use Rattle.exchange.specs.Texts.{request_line, host_line, via_line, cut_line_where};

use crate::aim::HTTP_PORT;
use capture::{Memory, put_all, put_number};
use head_lines::{put_field_line, put_line_end};
use http_head::{Field, Version};

/// Puts the first line of a request (RFC 9112, section 3).
#[tactic(auto, unfolding(crate::specs::Texts::request_line))]
pub fn put_request_line(out: &mut Vec<u8>, method: &[u8], path: &[u8]) -> Result<(), Memory>
    ensures { OnOk result (out.new.items ≡ out.old.items ++ request_line method.now path.now) }
{
    put_all(out, method)?;
    put_all(out, b" ")?;
    put_all(out, path)?;
    put_all(out, b" HTTP/1.1")?;
    put_line_end(out)
}

/// Puts the field Host (RFC 9110, section 7.2), with the port where it isn't the default one.
#[tactic(auto, unfolding(crate::specs::Texts::host_line))]
pub fn put_host_line(out: &mut Vec<u8>, host: &[u8], port: u16) -> Result<(), Memory>
    ensures { OnOk result (out.new.items ≡ out.old.items ++ host_line host.now port) }
{
    put_all(out, b"Host: ")?;
    put_all(out, host)?;
    if port != HTTP_PORT {
        put_all(out, b":")?;
        put_number(out, u64::from(port))?;
    }
    put_line_end(out)
}

/// Puts a field as it was received.
pub fn put_field(out: &mut Vec<u8>, field: &Field) -> Result<(), Memory>
    ensures { OnOk result (out.new.items ≡ out.old.items ++ field_line (named_value field.now)) }
{
    put_field_line(out, field.name.as_slice(), field.value.as_slice())
}

/// Puts the field Via (RFC 9110, section 7.6.3), with the version in which the message was received.
#[tactic(auto, unfolding(crate::specs::Texts::via_line))]
pub fn put_via_line(out: &mut Vec<u8>, version: Version) -> Result<(), Memory>
    ensures { OnOk result (out.new.items ≡ out.old.items ++ via_line (minor_of version)) }
{
    match version {
        Version::Http10 => put_all(out, b"Via: 1.0 memproxy\r\n"),
        Version::Http11 => put_all(out, b"Via: 1.1 memproxy\r\n"),
    }
}

/// Puts the mark of a response that was cut.
#[tactic(auto, unfolding(crate::specs::Texts::cut_line_where))]
pub fn put_cut_line(out: &mut Vec<u8>, cut: bool) -> Result<(), Memory>
    ensures { OnOk result (out.new.items ≡ out.old.items ++ cut_line_where cut) }
{
    if cut {
        return put_all(out, b"X-Archive-Truncated: disconnect\r\n");
    }
    Ok(())
}
