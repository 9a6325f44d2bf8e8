// How values are spelt and what they are worth: numbers, timeouts, words, trigger names.
//
// The root reads a number; sorts: what a value is worth where its attribute asks for a sort.
// Promises: a value is read to its last byte or not at all; each answer is the paper's (specs/Values.antt), for every text.
// May not touch: where a value stands, and which attribute asks for which value.
#![tactic(auto)]

ghost use Rattle.std.specs.Prelude.{◌≡◌, ◌≤◌, length};
ghost use Rattle.values.specs.NumbersCode.{digits_from, digits, number_spelt};

pub mod sorts;

// What an attribute asks of its value. A number goes from lo to hi; above `most` it is known and not carried.
#[derive(Clone, Copy)]
pub enum Sort {
    Numeric { lo: u32, hi: u32, most: u32 },
    Timeout,
    YesNo(u32),
    Protocol,
    TriggerName,
    Unread,
    Flexible,
}

// Why a value is refused, by the paper's numbers: 6, bad value or stray text; 7, known and not carried.
#[derive(Clone, Copy, PartialEq, Eq)]
pub enum Unfit {
    BadValue,
    NotCarried,
}

// The number that all bytes of the text are in the base.
fn all_digits(text: &[u8], base: u32) -> Option<u64>
    requires { (2 ≤ base) × (base ≤ 16) × (length text.now ≤ 10) }
    ensures { result ≡ digits_from base 0 text.now }
{
    let mut v = 0;
    for b in text {
        let d = char::from(*b).to_digit(base)?;
        v = v * u64::from(base) + u64::from(d);
    }
    Some(v)
}

// 1 to n digits of the base.
#[tactic(auto, unfolding(crate::specs::NumbersCode::digits))]
fn some_digits(spelt: &[u8], base: u32, n: usize) -> Option<u64>
    requires { (2 ≤ base) × (base ≤ 16) × (n ≤ 10) }
    ensures { result ≡ digits base n spelt.now }
{
    if !(1..=n).contains(&spelt.len()) {
        return None;
    }
    all_digits(spelt, base)
}

// 1 to 10 decimal digits, or `0x` and 1 to 8 hex digits.
#[tactic(auto, using(crate::proofs::Words::same_pointwise), unfolding(crate::specs::NumbersCode::number_spelt, text::specs::Texts::bytes))]
pub(crate) fn number_of(text: &[u8]) -> Option<u64>
    ensures { result ≡ number_spelt text.now }
{
    match text.strip_prefix(b"0x") {
        Some(hex) => some_digits(hex, 16, 8),
        None => some_digits(text, 10, 10),
    }
}
