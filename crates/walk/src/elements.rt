// Whole elements: what is behind one.
//
// Promises: `skip` is the function of the bytes that specs/WalkCode.antt gives, for every input.
ghost use Rattle.std.specs.Prelude.{◌≡◌};
ghost use Rattle.walk.specs.WalkCode.{skip_from, skipped};

use crate::{Body, Item, items, tags};

// The offset behind the element at i, in which elements nest at most `left` deep, itself included.
fn skip_from(file: &[u8], i: usize, left: usize) -> usize
    ensures { result ≡ skip_from file.now left i }
{
    if left == 0 {
        return file.len();
    }
    match tags::content_at(file, i) {
        Body::Broken => file.len(),
        Body::Empty(e) => e,
        Body::Open(o) => {
            let mut j = o;
            // No iterator over items: where the next one stands the call for a child answers.
            while j < file.len() {
                // Text and comments stay two arms: joined, the loop's goals would have no names of the source's own.
                match items::item_at(file, j) {
                    Item::Text(k) => j = k,
                    Item::Remark(k) => j = k,
                    Item::Child => j = skip_from(file, j, left - 1),
                    Item::Close(k) => return k,
                    Item::Broken => return file.len(),
                }
            }
            file.len()
        }
    }
}

// The offset behind the element at i.
pub fn skip(file: &[u8], i: usize) -> usize
    ensures { result ≡ skipped file.now i }
{
    skip_from(file, i, 8)
}
