// Bytes as readers of text see them: kinds of bytes, runs of one kind, equal texts.
//
// letters: which kind a byte is of. runs: where a run of bytes of one kind ends. texts: whether two texts are the same.
// Promises: every answer is the definition's (specs/Kinds.antt, specs/Texts.antt), for every input.
// May not touch: what any text means. It knows no format.
#![tactic(auto)]

pub mod letters;
pub mod runs;
pub mod texts;
