// Sets of numbers below 64 as the bits of one number.
//
// Promises: every answer is the definition's, for every set and number; proofs/BitLaws.antt has the laws of sets.
ghost use Rattle.std.specs.Prelude.{◌≡◌, cond, ltb, eqb};
ghost use Rattle.std.specs.Int.Bits.{bit_and};
ghost use Rattle.lists.specs.BitsCode.{has_bit, with_bit};

pub fn has_bit(set: u64, k: usize) -> bool
    ensures { result ≡ has_bit set k }
{
    k < 64 && (set >> k) % 2 == 1
}

// No number from 64 on goes in.
pub fn with_bit(set: u64, k: usize) -> u64
    ensures { result ≡ cond (ltb k 64) (with_bit set k) set }
{
    if k < 64 { set | (1 << k) } else { set }
}

// Are all of `of` in the set?
pub fn has_all(set: u64, of: u64) -> bool
    ensures { result ≡ eqb (bit_and set of) of }
{
    (set & of) == of
}
