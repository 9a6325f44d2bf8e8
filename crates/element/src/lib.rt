// One known element: its attributes, its faults, the number in its text.
//
// The root gathers the attributes, and says where the start tag ends. faults: its own faults (refusals 5 to 7). fields: what its text says, one value
// by name.
// Promises: each answer is the function of the bytes that specs/ElementCode.antt gives, for every input; proofs/Laws.antt says that on a
// well-shaped file these are the faults and values of crates/file_rules/specs/Element.antt.
// May not touch: other elements. Which elements are known, and what their parent holds already, it is told.
#![tactic(auto)]

ghost use Rattle.std.specs.Prelude.{◌≡◌, ◌<◌};
ghost use Rattle.walk.specs.WalkCode.{content_behind};
ghost use Rattle.schema.specs.SchemaCode.{attribute_count};
ghost use Rattle.element.specs.ElementCode.{rules_for, put_worth, judged, gathered_behind};

pub mod faults;
pub mod fields;

use lists::bits;
use schema::attributes;
use schema::attributes::ATTRIBUTES;
use values::{Unfit, sorts};
use walk::{Body, TagPart, tags};

// What the attributes of an element say: one is unknown or repeated (5), one has a bad value (6), one is not carried (7); by their numbers,
// which are there, as a set, and what they are worth. Three flags and no one fault: what lacks, the bounds and the text come between them. The set stands
// beside the values, since it is asked whole for what lacks, and goes into an entry as two words.
#[derive(Clone, Copy)]
pub struct Gathered {
    pub five: bool,
    pub six: bool,
    pub seven: bool,
    pub has: u64,
    pub values: [u32; ATTRIBUTES],
}

// A start tag: its attributes, and what stands behind it.
#[derive(Clone, Copy)]
pub struct Tag {
    pub gathered: Gathered,
    pub body: Body,
}

// An attribute by its number.
fn put(g: Gathered, a: usize, w: Result<u32, Unfit>) -> Gathered
    requires { a < attribute_count }
    ensures { result ≡ put_worth g a w }
{
    let mut h = g;
    h.has = bits::with_bit(g.has, a);
    match w {
        Ok(v) => {
            h.values[a] = v;
        }
        Err(unfit) => {
            h.values[a] = 0;
            h.six = (unfit == Unfit::BadValue) | h.six;
            h.seven = (unfit == Unfit::NotCarried) | h.seven;
        }
    }
    h
}

// One attribute more, with its value. One that is unknown or repeated does not fit.
fn judge(g: Gathered, kind: usize, name: &[u8], text: &[u8]) -> Gathered
    ensures { result ≡ judged (rules_for kind) g (record { name = name.now; value = text.now }) }
{
    match attributes::attribute_in(kind, name) {
        Some(a) if !bits::has_bit(g.has, a) => {
            put(g, a, sorts::worth_of(attributes::sort_of(a), text))
        }
        _ => Gathered { five: true, ..g },
    }
}

// The start tag of an element of the kind, from behind its name.
pub fn gather(file: &[u8], to: usize, kind: usize) -> Tag
    ensures { (result.gathered ≡ gathered_behind (rules_for kind) file.now to) × (result.body ≡ content_behind file.now to) }
{
    let mut gathered = Gathered {
        five: false,
        six: false,
        seven: false,
        has: 0,
        values: [0; ATTRIBUTES],
    };
    let mut j = to;
    // No iterator over attributes: the part that ends them is answered too.
    while j < file.len() {
        match tags::part_at(file, j) {
            TagPart::Attribute(a, e, c, k) => {
                gathered = judge(gathered, kind, &file[a..e], &file[c..k]);
                j = k + 1;
            }
            TagPart::Open(o) => {
                return Tag {
                    gathered,
                    body: Body::Open(o),
                };
            }
            TagPart::Empty(e) => {
                return Tag {
                    gathered,
                    body: Body::Empty(e),
                };
            }
            TagPart::Broken => break,
        }
    }
    Tag {
        gathered,
        body: Body::Broken,
    }
}
