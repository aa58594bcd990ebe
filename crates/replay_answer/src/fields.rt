//! The fields of the captured response, as its memento has them.
ghost use Rattle.std.specs.Prelude.{◌≡◌, ◌++◌, map, OnOk};
ghost use Rattle.name_table.specs.HeaderFields.{kept_in_memento};
ghost use Rattle.time_text.specs.Texts.{InRange};
ghost use Rattle.http_head.specs.Heads.{named_value};
ghost use Rattle.head_lines.specs.Lines.{field_line};
ghost use Rattle.replay_answer.specs.StoredFields.{kept_value, location_at, memento_field, memento_fields, original_name};

use crate::replay::Replay;
use capture::{Memory, put_all};
use head_lines::put_line_end;
use html_rewrite::web_target;
use http_head::Field;
use name_table::{NameTable, memento_fields};
use replay_url::put_memento;
use time_text::write_time;

/// Puts the fields, in order: some keep their names, the others get `X-Archive-Orig-` before theirs.
pub fn put_fields(out: &mut Vec<u8>, replay: &Replay, fields: &[Field]) -> Result<(), Memory>
    requires { InRange replay.now.capture.now.date }
    ensures { OnOk result (out.new.items ≡ out.old.items
        ++ memento_fields replay.now.site.now.base replay.now.capture.now replay.now.raw (map named_value fields.now)) }
{
    let kept = memento_fields();
    for field in fields {
        put_field(out, &kept, replay, field)?;
    }
    Ok(())
}

/// Puts a field, under its own name or behind `X-Archive-Orig-`.
#[tactic(auto, unfolding(crate::specs::StoredFields::memento_field))]
fn put_field(
    out: &mut Vec<u8>,
    kept: &NameTable<4>,
    replay: &Replay,
    field: &Field,
) -> Result<(), Memory>
    requires table { kept.now ≡ kept_in_memento }
    requires in_range { InRange replay.now.capture.now.date }
    ensures { OnOk result (out.new.items ≡ out.old.items
        ++ memento_field replay.now.site.now.base replay.now.capture.now replay.now.raw (named_value field.now)) }
{
    if kept.has(field.name.as_slice()) {
        put_kept(out, replay, field)
    } else {
        put_original(out, field)
    }
}

/// Puts a field that doesn't hold of the memento.
fn put_original(out: &mut Vec<u8>, field: &Field) -> Result<(), Memory>
    ensures { OnOk result (out.new.items ≡ out.old.items ++ field_line (original_name field.now.name, field.now.value)) }
{
    put_original_name(out, field.name.as_slice())?;
    put_all(out, b": ")?;
    put_all(out, field.value.as_slice())?;
    put_line_end(out)
}

/// Puts the name that a field which doesn't hold of the memento has there.
#[tactic(auto, unfolding(crate::specs::StoredFields::original_name))]
fn put_original_name(out: &mut Vec<u8>, name: &[u8]) -> Result<(), Memory>
    ensures { OnOk result (out.new.items ≡ out.old.items ++ original_name name.now) }
{
    put_all(out, b"X-Archive-Orig-")?;
    put_all(out, name)
}

/// Puts a field that keeps its name.
fn put_kept(out: &mut Vec<u8>, replay: &Replay, field: &Field) -> Result<(), Memory>
    requires { InRange replay.now.capture.now.date }
    ensures { OnOk result (out.new.items ≡ out.old.items
        ++ field_line (field.now.name, kept_value replay.now.site.now.base replay.now.capture.now replay.now.raw (named_value field.now))) }
{
    put_all(out, field.name.as_slice())?;
    put_all(out, b": ")?;
    put_kept_value(out, replay, field)?;
    put_line_end(out)
}

/// Puts the value of a field that keeps its name: a location leads to the archive, unless the capture is given as it was received.
fn put_kept_value(out: &mut Vec<u8>, replay: &Replay, field: &Field) -> Result<(), Memory>
    requires { InRange replay.now.capture.now.date }
    ensures { OnOk result (out.new.items ≡ out.old.items
        ++ kept_value replay.now.site.now.base replay.now.capture.now replay.now.raw (named_value field.now)) }
{
    let value = field.value.as_slice();
    if replay.raw {
        return put_all(out, value);
    }
    if field.has_name(b"location") {
        return put_location(out, replay, value);
    }
    put_all(out, value)
}

/// Puts the address in the archive of where the value leads to, or the value where that isn't on the web.
fn put_location(out: &mut Vec<u8>, replay: &Replay, value: &[u8]) -> Result<(), Memory>
    requires { InRange replay.now.capture.now.date }
    ensures { OnOk result (out.new.items ≡ out.old.items ++ location_at replay.now.site.now.base replay.now.capture.now value.now) }
{
    let capture = replay.capture;
    let Ok(digits) = write_time(capture.date) else {
        unreachable!()
    };
    match web_target(*out.allocator(), capture.uri.as_slice(), value)? {
        Some(url) => {
            let address = url.as_str().as_bytes();
            put_memento(out, replay.site, digits.as_slice(), false, address)
        }
        None => put_all(out, value),
    }
}
