// Outside of tags: what stands next in an element, and where the root is.
//
// Promises: every answer is the function of the bytes that specs/WalkCode.antt gives, for every input.
ghost use Rattle.std.specs.Prelude.{◌≡◌, drop};
ghost use Rattle.walk.specs.WalkCode.{closes_remark, remark_end, item_at, prolog_end, root_at};

use crate::Item;
use text::runs;

// Does `-->` stand at i?
#[tactic(auto, unfolding(crate::specs::WalkCode::closes_remark))]
fn closes(file: &[u8], i: usize) -> bool
    ensures { result ≡ closes_remark file.now i }
{
    crate::byte_at(file, i) == b'-'
        && crate::byte_at(file, i + 1) == b'-'
        && crate::byte_at(file, i + 2) == b'>'
}

// The offset behind the first `-->` from i on.
fn remark_end(file: &[u8], i: usize) -> usize
    ensures { result ≡ remark_end file.now (drop i file.now) i }
{
    let mut j = i;
    // No `for`: a turn goes on by a run of plain bytes.
    while j < file.len() {
        if closes(file, j) {
            return j + 3;
        }
        j = runs::plain_end(file, j + 1);
    }
    j
}

// What stands next in an element, at i.
pub fn item_at(file: &[u8], i: usize) -> Item
    ensures { result ≡ item_at file.now i }
{
    let b = crate::byte_at(file, i);
    if b != b'<' {
        let e = runs::text_end(file, i);
        if i < e {
            return Item::Text(e);
        }
        return Item::Broken;
    }
    let c = crate::byte_at(file, i + 1);
    if c == b'/' {
        let n = runs::name_end(file, i + 2);
        let q = runs::blanks_end(file, n);
        let k = crate::ahead(file, q, 1);
        return Item::Close(k);
    }
    if c == b'!' {
        let s = crate::ahead(file, i, 4);
        let k = remark_end(file, s);
        return Item::Remark(k);
    }
    Item::Child
}

// The offset behind the declaration.
fn prolog_end(file: &[u8]) -> usize
    ensures { result ≡ prolog_end file.now }
{
    if crate::byte_at(file, 0) != b'<' || crate::byte_at(file, 1) != b'?' {
        return 0;
    }
    let d = runs::decl_end(file, 2);
    crate::ahead(file, d, 2)
}

// The offset of the root element: behind the declaration, blanks and comments.
pub fn root_at(file: &[u8]) -> usize
    ensures { result ≡ root_at file.now }
{
    let mut j = prolog_end(file);
    // No `for`: each item says where the next one begins.
    while j < file.len() {
        let k = runs::blanks_end(file, j);
        let Item::Remark(m) = item_at(file, k) else {
            return k;
        };
        j = m;
    }
    j
}
