// The text of an element, joined in a lent buffer; whether it has any.
//
// Promises: every answer is the function of the bytes that specs/WalkCode.antt gives, for every input.
ghost use Rattle.std.specs.Prelude.{◌≡◌};
ghost use Rattle.walk.specs.WalkCode.{inner_start, text_from, text_at, stray, LaidDown};

use crate::{Body, Item, elements, items, tags};
use text::runs;

// Where an element's content starts; the end of the file if it has none.
#[tactic(auto, unfolding(crate::specs::WalkCode::inner_start))]
pub fn inner_start(file: &[u8], body: Body) -> usize
    ensures { result ≡ inner_start file.now body }
{
    match body {
        Body::Open(o) => o,
        Body::Empty(_) | Body::Broken => file.len(),
    }
}

// Text at the front of a buffer, as much as fits; how much that is.
fn lay(text: &[u8], out: &mut [u8]) -> usize
    ensures { LaidDown text.now out.old result out.new }
{
    let n = text.len().min(out.len());
    out[..n].copy_from_slice(&text[..n]);
    n
}

// The joined text of an element whose content starts at o, at the front of the scratch buffer, as much as fits; how much that is.
pub fn gather_from(file: &[u8], o: usize, scratch: &mut [u8]) -> usize
    ensures { LaidDown (text_from file.now o) scratch.old result scratch.new }
{
    let mut j = o;
    let mut n = 0;
    // No `for`: each item says where the next one begins.
    while j < file.len() {
        match items::item_at(file, j) {
            Item::Text(k) => {
                n += lay(&file[j..k], &mut scratch[n..]);
                j = k;
            }
            Item::Remark(k) => j = k,
            Item::Child => j = elements::skip(file, j),
            Item::Close(_) | Item::Broken => return n,
        }
    }
    n
}

// The same of the element at i.
pub fn gather_text(file: &[u8], i: usize, scratch: &mut [u8]) -> usize
    ensures { LaidDown (text_at file.now i) scratch.old result scratch.new }
{
    let body = tags::content_at(file, i);
    let o = inner_start(file, body);
    gather_from(file, o, scratch)
}

// Has an element whose content starts at o a byte of text that is no blank?
pub fn has_text(file: &[u8], o: usize) -> bool
    ensures { result ≡ stray (text_from file.now o) }
{
    let mut j = o;
    // No `for`: each item says where the next one begins.
    while j < file.len() {
        match items::item_at(file, j) {
            Item::Text(k) => {
                if runs::blanks_end(file, j) < k {
                    return true;
                }
                j = k;
            }
            Item::Remark(k) => j = k,
            Item::Child => j = elements::skip(file, j),
            Item::Close(_) | Item::Broken => return false,
        }
    }
    false
}
