// The text of an element where it stands: nearly always it is one run of bytes of the file, and no buffer is needed to join it.
//
// Promises: every answer is the function of the bytes that specs/PiecesCode.antt gives, for every input; proofs/PiecesLaws.antt says that a part that
// is answered lies in the file and is the element's text, as much of it as fits a buffer of 32,768 bytes.
ghost use Rattle.std.specs.Prelude.{◌≡◌};
ghost use Rattle.walk.specs.PiecesCode.{is_close, item_text, body_text, single_text};
ghost use Rattle.walk.specs.WalkCode.{item_at};

use crate::{Body, Item, Part, items, tags};

// The size of the buffer that a text in pieces is joined in.
const MOST: usize = 32768;

// Is it the end tag?
#[tactic(auto, unfolding(crate::specs::PiecesCode::is_close))]
fn is_close(item: Item) -> bool
    ensures { result ≡ is_close item }
{
    matches!(item, Item::Close(_))
}

// The text of an element whose content starts at o, as one part of the file; none if it is in several pieces, or too long for a buffer.
fn content_text(file: &[u8], o: usize) -> Option<Part>
    ensures { result ≡ item_text file.now o (item_at file.now o) }
{
    match items::item_at(file, o) {
        Item::Text(k) => {
            let next = items::item_at(file, k);
            let whole = is_close(next);
            if whole & (k - o <= MOST) {
                Some(Part { from: o, to: k })
            } else {
                None
            }
        }
        Item::Close(_) => Some(Part { from: o, to: o }),
        Item::Remark(_) | Item::Child | Item::Broken => None,
    }
}

// The same of an element with that content.
pub fn text_in(file: &[u8], body: Body) -> Option<Part>
    ensures { result ≡ body_text file.now body }
{
    match body {
        Body::Open(o) => content_text(file, o),
        Body::Empty(_) => Some(Part { from: 0, to: 0 }),
        Body::Broken => None,
    }
}

// The same of the element at i.
pub fn single_text(file: &[u8], i: usize) -> Option<Part>
    ensures { result ≡ single_text file.now i }
{
    let body = tags::content_at(file, i);
    text_in(file, body)
}
