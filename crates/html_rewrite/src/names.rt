//! The tables of names.
ghost use Rattle.std.specs.Prelude.{◌≡◌, ◌+◌, ◌++◌, ◌≤◌, length};
ghost use Rattle.arrayvec.specs.ArrayVec.{array_vec_len};
ghost use Rattle.html_rewrite.specs.Names.{link_attributes, raw_text_elements};
ghost use Rattle.html_rewrite.specs.Names as spec;

use arrayvec::ArrayVec;
use name_table::NameTable;

/// The attributes that hold a link: an element, a space, and its attribute (HTML Standard, section 4).
#[tactic(auto, unfolding(crate::specs::Names::link_attributes))]
fn link_attributes() -> NameTable<17>
    ensures { result ≡ spec.link_attributes }
{
    NameTable::new([
        "a href",
        "area href",
        "audio src",
        "body background",
        "embed src",
        "form action",
        "frame src",
        "iframe src",
        "img src",
        "input src",
        "link href",
        "object data",
        "script src",
        "source src",
        "track src",
        "video poster",
        "video src",
    ])
}

/// The elements whose contents are text up to their end tag (HTML Standard, section 13.1.2).
#[tactic(auto, unfolding(crate::specs::Names::raw_text_elements))]
fn raw_text_elements() -> NameTable<8>
    ensures { result ≡ spec.raw_text_elements }
{
    NameTable::new([
        "iframe", "noembed", "noframes", "script", "style", "textarea", "title", "xmp",
    ])
}

/// How long the longest row of the link attributes is, in bytes.
const LONGEST: usize = 15;

/// Whether the element's attribute holds a link. ASCII case is ignored.
///
/// Takes no memory, and looks at names that are longer than each row no further: a page may have a long name beside many
/// attributes.
pub fn is_link(element: &[u8], attribute: &[u8]) -> bool
    ensures { result ≡ spec.is_link element.now attribute.now }
{
    if element.len() + 1 + attribute.len() > LONGEST {
        return false;
    }
    let mut row = ArrayVec::new();
    put(&mut row, element);
    put(&mut row, b" ");
    put(&mut row, attribute);
    link_attributes().has(row.as_slice())
}

/// Puts these bytes, for which there is room, at the end of a row.
fn put(row: &mut ArrayVec<u8, LONGEST>, piece: &[u8])
    requires { array_vec_len row.old + length piece.now ≤ 15 }
    ensures items { row.new.items ≡ row.old.items ++ piece.now }
    ensures len { array_vec_len row.new ≡ array_vec_len row.old + length piece.now }
{
    if row.try_extend_from_slice(piece).is_err() {
        unreachable!();
    }
}

/// Whether the element's contents are text. ASCII case is ignored.
pub fn is_raw_text(element: &[u8]) -> bool
    ensures { result ≡ spec.is_raw_text element.now }
{
    raw_text_elements().has(element)
}
