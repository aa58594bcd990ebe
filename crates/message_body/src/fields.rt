//! Fields of a head by their names, with ASCII case ignored (RFC 9110, section 5.1).
ghost use Rattle.std.specs.Prelude.{◌≡◌, map};
ghost use Rattle.capture.specs.Fields as spec;
ghost use Rattle.capture.specs.Fields.{lowered};
ghost use Rattle.http_head.specs.Heads.{named_value};

use http_head::Field;

/// Whether some field has this name, with ASCII case ignored.
pub fn has_field(fields: &[Field], name: &[u8]) -> bool
    ensures { result ≡ spec.has_field (lowered name.now) (map named_value fields.now) }
{
    for field in fields {
        if field.has_name(name) {
            return true;
        }
    }
    false
}
