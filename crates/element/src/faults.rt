// The own faults of one element of a known kind (5, 6, 7 for a value): attributes that lack, bounds, its text.
//
// Promises: each answer is the function of the bytes that specs/ElementCode.antt gives, for every input.
ghost use Rattle.std.specs.Prelude.{◌≡◌};
ghost use Rattle.walk.specs.WalkCode.{text_in};
ghost use Rattle.element.specs.ElementCode.{rules_for, lacking, bounds_crossed, worded, bad_in, verdict};

use crate::Gathered;
use file_rules::Breach;
use lists::bits;
use schema::attributes::{ATTRIBUTES, CAN_EXT, DLC, DLC_MIN, MSGID, MSGID_MIN};
use schema::{attributes, kinds};
use walk::{Body, texts};

const LAST_STANDARD: u32 = 2047;

// Does a required attribute lack, or one of dlc and dlc_min?
fn lacks(kind: usize, has: u64) -> bool
    ensures { result ≡ lacking (rules_for kind) has }
{
    let musts = attributes::musts_of(kind);
    let dlc = bits::has_bit(has, DLC);
    let least = bits::has_bit(has, DLC_MIN);
    !bits::has_all(has, musts) | ((dlc & !least) | (least & !dlc))
}

// Is an identifier too large, or a lower bound above its upper?
fn bounds_crossed(has: u64, v: [u32; ATTRIBUTES]) -> bool
    ensures { result ≡ bounds_crossed has v }
{
    let told = bits::has_bit(has, CAN_EXT);
    (told & (v[CAN_EXT] == 0) & ((LAST_STANDARD < v[MSGID]) | (LAST_STANDARD < v[MSGID_MIN])))
        | (v[MSGID] < v[MSGID_MIN])
        | (v[DLC] < v[DLC_MIN])
}

// Has an element of that kind a text of its own?
pub fn is_worded(kind: usize) -> bool
    ensures { result ≡ worded kind }
{
    matches!(kind, kinds::VERSION | kinds::CHANNEL | kinds::EXPRESSION)
}

// Has an element of the kind a text that it may not have? Whether one that is read for its value is misspelt, is known.
pub fn bad_text(file: &[u8], kind: usize, body: Body, misspelt: bool) -> bool
    ensures { result ≡ bad_in kind misspelt (text_in file.now body) }
{
    let o = texts::inner_start(file, body);
    misspelt | (!is_worded(kind) & texts::has_text(file, o))
}

// The first of 5, 6, 7 for a value, by the attributes and whether the text is bad.
pub fn verdict_of(kind: usize, g: Gathered, bad: bool) -> Option<Breach>
    ensures { result ≡ verdict (rules_for kind) bad g }
{
    if g.five | lacks(kind, g.has) {
        return Some(Breach::Misfit);
    }
    if g.six | bounds_crossed(g.has, g.values) | bad {
        return Some(Breach::Misvalued);
    }
    if g.seven {
        return Some(Breach::Uncarried);
    }
    None
}
