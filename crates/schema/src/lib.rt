// The known elements and their attributes, as tables.
//
// kinds: the elements by number, what stands in what, how many. attributes: theirs by number, and what is asked of each. names: names to numbers.
// Promises: each answer is that of the paper's tables in specs/Schema.antt, for every input.
// May not touch: files and trees. It knows names and values, not where they stand.
#![tactic(auto)]

pub mod attributes;
pub mod kinds;
pub mod names;

// How many elements an element may hold: each of those that it carries once, or so many in all.
#[derive(Clone, Copy)]
pub enum Times {
    Once,
    OneTo(u32),
    UpTo(u32),
}
