//! What the types of lines say of them.
ghost use Rattle.std.specs.Prelude.{◌≡◌, All, length};
ghost use Rattle.cdxj_line.specs.Lines.{HasTypes};
ghost use Rattle.digest32.specs.Base32.{IsDigest};

use cdxj_line::Line;

/// What the types of the lines' parts say of them.
pub(crate) fn are_typed(lines: &[Line])
    ensures { All HasTypes lines.now }
{
    for line in lines {
        is_typed(line);
    }
}

/// What the types of a line's parts say of them, each of which the checker knows once it is read.
pub(crate) fn is_typed(line: &Line)
    ensures { HasTypes line.now }
{
    let _volume = line.volume;
    let _length = line.length;
    let _number = line.number;
    let _offset = line.offset;
    twenty_bytes(&line.digest);
    let _method = line.method.as_slice();
    let _mime = line.mime.as_slice();
    let _url = line.url.as_slice();
}

/// What the type of a digest says of it.
fn twenty_bytes(digest: &[u8])
    requires { length digest.now ≡ 20 }
    ensures { IsDigest digest.now }
{}
