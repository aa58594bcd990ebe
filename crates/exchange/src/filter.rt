//! Which fields of a head go on past the proxy (RFC 9110, section 7.6.1).
ghost use Rattle.std.specs.Prelude.{◌≡◌, ◌++◌, map, OnOk};
ghost use Rattle.name_table.specs.HeaderFields.{hop_by_hop};
ghost use Rattle.capture.specs.Fields.{is_named};
ghost use Rattle.capture.specs.Framing.{content_length};
ghost use Rattle.http_head.specs.Heads.{named_value};
ghost use Rattle.exchange.specs.Texts as spec;
ghost use Rattle.exchange.specs.Texts.{origin_lines, client_lines};

use crate::connection_names::{connection_names, is_listed};
use crate::lines::put_field;
use capture::Memory;
use http_head::Field;
use name_table::{NameTable, hop_by_hop_fields};
use std::alloc::Global;

/// The table of the fields that speak of one connection.
type Hop = NameTable<10>;

/// Puts the fields that go to the origin, in order.
pub fn put_origin_fields(alloc: Global, out: &mut Vec<u8>, fields: &[Field]) -> Result<(), Memory>
    ensures { OnOk result (out.new.items ≡ out.old.items ++ origin_lines (map named_value fields.now)) }
{
    let hop = hop_by_hop_fields();
    let listed = connection_names(alloc, fields)?;
    for field in fields {
        if goes_to_origin(&hop, listed.as_slice(), field) {
            put_field(out, field)?;
        }
    }
    Ok(())
}

/// Puts the fields that go to the client, in order, those of a Content-Length only where they are kept.
pub fn put_client_fields(
    alloc: Global,
    out: &mut Vec<u8>,
    fields: &[Field],
    keeps_length: bool,
) -> Result<(), Memory>
    ensures { OnOk result (out.new.items ≡ out.old.items ++ client_lines keeps_length (map named_value fields.now)) }
{
    let hop = hop_by_hop_fields();
    let listed = connection_names(alloc, fields)?;
    for field in fields {
        if goes_to_client(&hop, listed.as_slice(), keeps_length, field) {
            put_field(out, field)?;
        }
    }
    Ok(())
}

/// Whether the field is a Content-Length.
pub fn is_content_length(field: &Field) -> bool
    ensures { result ≡ is_named content_length (named_value field.now) }
{
    field.has_name(b"content-length")
}

/// Whether the field goes to the origin: it is passed on, and isn't one that the proxy writes itself.
fn goes_to_origin(hop: &Hop, listed: &[&[u8]], field: &Field) -> bool
    requires { hop.now ≡ hop_by_hop }
    ensures { result ≡ spec.goes_to_origin (map (λ n. n.now) listed.now) (named_value field.now) }
{
    is_passed_on(hop, listed, field) && !field.has_name(b"host") && !is_content_length(field)
}

/// Whether the field goes to the client: it is passed on, a Content-Length only where it is kept.
fn goes_to_client(hop: &Hop, listed: &[&[u8]], keeps_length: bool, field: &Field) -> bool
    requires { hop.now ≡ hop_by_hop }
    ensures { result ≡ spec.goes_to_client (map (λ n. n.now) listed.now) keeps_length (named_value field.now) }
{
    is_passed_on(hop, listed, field) && (keeps_length || !is_content_length(field))
}

/// Whether the field goes on past the proxy: neither it nor a Connection field says that it speaks of one connection.
fn is_passed_on(hop: &Hop, listed: &[&[u8]], field: &Field) -> bool
    requires { hop.now ≡ hop_by_hop }
    ensures { result ≡ spec.is_passed_on (map (λ n. n.now) listed.now) (named_value field.now) }
{
    let name = field.name.as_slice();
    !hop.has(name) && !is_listed(listed, name)
}
