// Which kind a byte is of.
//
// Promises: every answer is the definition's, for every byte.
ghost use Rattle.std.specs.Prelude.{◌≡◌};
ghost use Rattle.text.specs.Kinds.{is_blank, is_start, is_name, is_any};

// One byte after the other: joined in one pattern, most bytes, which are above the blank, took three tests and not one.
#[tactic(auto, unfolding(crate::specs::Kinds::is_blank))]
pub fn is_blank(b: u8) -> bool
    ensures { result ≡ is_blank b }
{
    b == b' ' || b == b'\t' || b == b'\r' || b == b'\n'
}

#[tactic(auto, unfolding(crate::specs::Kinds::is_start))]
pub fn is_start(b: u8) -> bool
    ensures { result ≡ is_start b }
{
    b.is_ascii_alphabetic() || b == b'_'
}

// Letters first, most bytes of names being letters; the others in one test.
#[tactic(auto, unfolding(crate::specs::Kinds::is_name, crate::specs::Kinds::is_start, crate::specs::Kinds::is_digit))]
pub fn is_name(b: u8) -> bool
    ensures { result ≡ is_name b }
{
    b.is_ascii_alphabetic() || (b.is_ascii_digit() | (b == b'_'))
}

// A byte that may stand in a comment.
#[tactic(auto, unfolding(crate::specs::Kinds::is_any))]
pub fn is_any(b: u8) -> bool
    ensures { result ≡ is_any b }
{
    0x20 <= b || is_blank(b)
}
