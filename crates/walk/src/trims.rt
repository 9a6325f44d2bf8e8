// The blanks at both ends of a text.
//
// Promises: `trim` is the function of the bytes that specs/WalkCode.antt gives, for every input.
ghost use Rattle.std.specs.Prelude.{◌≡◌};
ghost use Rattle.walk.specs.WalkCode.{trim_at};

use crate::Part;
use text::{letters, runs};

// The part of a text between the blanks at both ends.
pub fn trim(text: &[u8]) -> Part
    ensures { result ≡ trim_at text.now }
{
    let from = runs::blanks_end(text, 0);
    let blanks = text[from..]
        .iter()
        .rev()
        .take_while(|b| letters::is_blank(**b))
        .count();
    Part {
        from,
        to: text.len() - blanks,
    }
}
