//! The text of a checkpoint.
ghost use Rattle.std.specs.Prelude.{◌≡◌, ◌++◌, All, IfOk, OnOk};
ghost use Rattle.cdxj_line.specs.Lines.{HasTypes, IsWritable};
ghost use Rattle.checkpoint.specs.Checkpoints.{first_line, lines_text};
ghost use Rattle.checkpoint.specs.Checkpoints as spec;

use crate::typed::are_typed;
use capture::{Bytes, Memory, put_all};
use cdxj_line::{Line, line_len, put_line};
use std::alloc::Global;

/// The first line of a checkpoint, with its commit byte.
pub(crate) const FIRST_LINE: &[u8] = b"!memproxy-cdxj 1\n";

/// The text of the checkpoint of these lines.
#[tactic(auto, unfolding(crate::specs::Checkpoints::checkpoint_text))]
pub(crate) fn checkpoint_text(alloc: Global, lines: &[Line]) -> Result<Bytes, Memory>
    requires { All IsWritable lines.now }
    ensures text { IfOk result (λ text. text ≡ spec.checkpoint_text lines.now) }
    ensures typed { All HasTypes lines.now }
{
    are_typed(lines);
    let mut out = Vec::with_capacity(alloc, text_len(lines))?;
    put_text(&mut out, lines)?;
    Ok(Bytes::of(out))
}

/// Puts that text.
fn put_text(out: &mut Vec<u8>, lines: &[Line]) -> Result<(), Memory>
    requires { All IsWritable lines.now }
    ensures { OnOk result (out.new.items ≡ out.old.items ++ (first_line ++ lines_text lines.now)) }
{
    put_all(out, FIRST_LINE)?;
    put_lines(out, lines)
}

/// Puts the texts of lines, one behind the other.
fn put_lines(out: &mut Vec<u8>, lines: &[Line]) -> Result<(), Memory>
    requires { All IsWritable lines.now }
    ensures { OnOk result (out.new.items ≡ out.old.items ++ lines_text lines.now) }
{
    for line in lines {
        put_line(out, line)?;
    }
    Ok(())
}

/// How long that text is, so that its memory is taken once.
fn text_len(lines: &[Line]) -> usize
    requires { All IsWritable lines.now }
{
    let mut len = FIRST_LINE.len();
    for line in lines {
        len = len.saturating_add(line_len(&line.parts()));
    }
    len
}
