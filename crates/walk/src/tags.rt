// Start tags: an element's name, its attributes, and where its content starts.
//
// Promises: every answer is the function of the bytes that specs/WalkCode.antt gives, for every input.
ghost use Rattle.std.specs.Prelude.{◌≡◌};
ghost use Rattle.walk.specs.WalkCode.{attribute_at, part_at, name_at, content_at};

use crate::{Body, Part, TagPart};
use text::{letters, runs};

// The attribute whose name starts at a.
fn attribute_at(file: &[u8], a: usize) -> TagPart
    ensures { result ≡ attribute_at file.now a }
{
    let e = runs::name_end(file, a);
    let q = runs::blanks_end(file, e);
    let b = crate::ahead(file, q, 1);
    let v = runs::blanks_end(file, b);
    let c = crate::ahead(file, v, 1);
    let k = runs::value_end(file, c);
    if k < file.len() {
        TagPart::Attribute(a, e, c, k)
    } else {
        TagPart::Broken
    }
}

// What stands next in a start tag, from behind its name or behind a value's closing quote.
pub fn part_at(file: &[u8], i: usize) -> TagPart
    ensures { result ≡ part_at file.now i }
{
    let a = runs::blanks_end(file, i);
    let b = crate::byte_at(file, a);
    if b == b'>' {
        return TagPart::Open(a + 1);
    }
    if b == b'/' {
        let e = crate::ahead(file, a, 2);
        return TagPart::Empty(e);
    }
    if letters::is_start(b) {
        attribute_at(file, a)
    } else {
        TagPart::Broken
    }
}

// The name of the element at i.
pub fn name_of(file: &[u8], i: usize) -> Part
    ensures { result ≡ name_at file.now i }
{
    let from = crate::ahead(file, i, 1);
    let to = runs::name_end(file, from);
    Part { from, to }
}

// What stands behind the start tag of the element at i.
pub fn content_at(file: &[u8], i: usize) -> Body
    ensures { result ≡ content_at file.now i }
{
    let n = name_of(file, i);
    let mut j = n.to;
    // No iterator over attributes: the part that ends them is what is answered.
    while j < file.len() {
        match part_at(file, j) {
            TagPart::Attribute(_, _, _, k) => j = k + 1,
            TagPart::Open(o) => return Body::Open(o),
            TagPart::Empty(e) => return Body::Empty(e),
            TagPart::Broken => return Body::Broken,
        }
    }
    Body::Broken
}
