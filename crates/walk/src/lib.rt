// The second pass over a file of good shape: names, attributes, items, texts.
//
// tags: a start tag. items: what stands next in an element. elements: what is behind one. texts: its text, joined; pieces: where it stands, if it is
// one piece; trims: without blanks at its ends. The root has the two reads that all of these share.
// Promises: every answer is the function of the bytes that specs/WalkCode.antt gives, for every input; what that is on a well-shaped file, in terms of
// its tree, is proofs/WalkLaws.antt.
// May not touch: the shape itself (`xml` has checked it, nothing is checked again), and what any name or value means.
// A file and a place go as two parameters and not as a cursor: each function answers where it came to, and nothing is written through.
#![tactic(auto)]

ghost use Rattle.std.specs.Prelude.{◌≡◌, get_or};
ghost use Rattle.walk.specs.WalkCode.{ahead};

pub mod elements;
pub mod items;
pub mod pieces;
pub mod tags;
pub mod texts;
pub mod trims;

// From one offset up to another.
#[derive(Clone, Copy)]
pub struct Part {
    pub from: usize,
    pub to: usize,
}

// What stands next in a start tag. `Broken` is a case here and in the next two types, and no Err: callers take the cases apart in one `match`.
#[derive(Clone, Copy)]
pub enum TagPart {
    // The name's start and end, the value's start and end; the closing quote stands at the last. Two `Part`s would be taken apart at once.
    Attribute(usize, usize, usize, usize),
    // The offset behind `>`.
    Open(usize),
    // The offset behind `/>`.
    Empty(usize),
    Broken,
}

// What stands next in an element.
#[derive(Clone, Copy)]
pub enum Item {
    // The end of a run of text, which is not empty.
    Text(usize),
    // The offset behind a comment.
    Remark(usize),
    // An element starts here.
    Child,
    // The offset behind the end tag.
    Close(usize),
    Broken,
}

// What stands behind a start tag.
#[derive(Clone, Copy)]
pub enum Body {
    // Where the element's content starts.
    Open(usize),
    // The offset behind an element without content.
    Empty(usize),
    Broken,
}

// The byte at i; behind the end 0, which no file holds.
pub(crate) fn byte_at(file: &[u8], i: usize) -> u8
    ensures { result ≡ get_or file.now i 0 }
{
    file.get(i).copied().unwrap_or(0)
}

// The offset n further, or the end if that comes first.
#[tactic(auto, unfolding(crate::specs::WalkCode::ahead))]
pub(crate) fn ahead(file: &[u8], i: usize, n: usize) -> usize
    ensures { result ≡ ahead file.now i n }
{
    if file.len() <= i {
        file.len()
    } else if n <= file.len() - i {
        i + n
    } else {
        file.len()
    }
}
