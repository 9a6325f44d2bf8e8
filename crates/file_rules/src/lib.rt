// What a document says and its faults 3 to 10, by the paper's rules: definitions, laws and the types of a refusal on its way; no code.
//
// Promises: specs/Element.antt (one known element and its own faults), specs/Reading.antt (what it says), specs/Document.antt (all known elements, faults
// 3 to 8) and specs/Tables.antt (what they say together, faults 9 and 10) are what a reader must believe.
// May not touch: bytes of a file, and how any of this is found out: that is for element, document and tables.
#![tactic(auto)]

// A refusal: the number by which the paper and C know it, and a place.
#[derive(Clone, Copy)]
pub struct Refusal {
    pub number: u32,
    pub place: usize,
}

// What a file is refused for by its shape and by its elements, one by one, by the paper's numbers (`number_of` in specs/RefusalCode.antt).
#[derive(Clone, Copy)]
pub enum Breach {
    Long = 1,
    Shapeless = 2,
    Rootless = 3,
    Surplus = 4,
    Misfit = 5,
    Misvalued = 6,
    Uncarried = 7,
    Lacking = 8,
}
