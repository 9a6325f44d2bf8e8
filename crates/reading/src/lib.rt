// What the programs read: standard input up to a length, the places of bytes in it, and what its lines spell.
//
// Promises: `first_bytes` gives the first bytes that a reader has, as many as have room or all, where its `remaining` says what it has, which that of
// standard input does not; `place_of` answers every byte and every text by its definition, and so do `number` and `spell`.
// May not touch: standard output, and what the bytes mean.
#![tactic(auto)]

ghost use Rattle.std.specs.Prelude.{◌≡◌, ◌+◌, ◌*◌, ◌%◌, ◌<◌, ◌≤◌, ◌∷◌, length, IfOk, IfSome, take, drop, min, eqb, slice_index_or};
ghost use Rattle.std.specs.List.{position_or_len, fold};
ghost use Rattle.reading.specs.Spelling.{digit, spelt};

use std::io;
use std::io::Read;

// Fills the front of `out` with the first bytes that a reader has, as many as have room or all, and answers how many. A read that fails is an error.
pub fn first_bytes<R: Read>(reader: &mut R, out: &mut [u8]) -> io::Result<usize>
    ensures bound { IfOk result (λ n. n ≤ length out.new) }
    ensures bytes { IfOk result (λ n. IfSome (R.remaining reader.old) (λ all. take n out.new ≡ take (length out.new) all)) }
{
    let mut n = 0;
    // No `for`: a read says how far it came.
    while n < out.len() {
        let k = reader.read(&mut out[n..])?;
        if k == 0 {
            return Ok(n);
        }
        n += k;
    }
    Ok(n)
}

// Where the byte stands first, or the end where it does not.
pub fn place_of(byte: u8, s: &[u8]) -> usize
    ensures place { result ≡ position_or_len (λ b. eqb b byte) s.now }
    ensures bound { result ≤ length s.now }
{
    s.iter().position(|b| *b == byte).unwrap_or(s.len())
}

// The number that the digits spell, at most `most`: a digit's low four bits are its worth.
pub fn number(digits: &[u8], most: u32) -> usize
    ensures value { result ≡ fold (λ n d. min (n * 10 + d % 16) most) 0 digits.now }
    ensures bound { result ≤ most }
{
    let mut n = 0;
    for d in digits {
        n = (n * 10 + (*d % 16) as usize).min(most as usize);
    }
    n
}

// A byte that a text spells, and where it goes on.
#[derive(Clone, Copy)]
struct Spelt {
    byte: u8,
    next: usize,
}

// The digit of base 16 that a byte stands for. Not `to_digit`: this answers every byte, so an escape that is none needs no case.
fn digit_of(b: u8) -> u8
    ensures { result ≡ digit b }
{
    if b < b'a' {
        return b % 16;
    }
    (b % 16 + 9) % 16
}

// The byte at i, or 0 behind the end.
fn byte_at(s: &[u8], i: usize) -> u8
    ensures { result ≡ slice_index_or s.now i 0 }
{
    s.get(i).copied().unwrap_or(0)
}

// The byte that the text spells at i.
fn spelt_at(text: &[u8], i: usize) -> Spelt
    requires { i < length text.now }
    ensures byte { spelt (drop i text.now) ≡ result.byte ∷ spelt (drop result.next text.now) }
{
    let b = text[i];
    if b != b'\\' {
        return Spelt {
            byte: b,
            next: i + 1,
        };
    }
    let byte = match byte_at(text, i + 1) {
        b'n' => b'\n',
        b'r' => b'\r',
        b't' => b'\t',
        b'x' => {
            let high = digit_of(byte_at(text, i + 2));
            let low = digit_of(byte_at(text, i + 3));
            return Spelt {
                byte: 16 * high + low,
                next: i + 4,
            };
        }
        e => e,
    };
    Spelt { byte, next: i + 2 }
}

// The bytes that a text spells, as many as there is room for; answers how many.
pub fn spell(text: &[u8], out: &mut [u8]) -> usize
    ensures bound { result ≤ length out.new }
    ensures bytes { take result out.new ≡ take (length out.new) (spelt text.now) }
    ensures rest { drop result out.new ≡ drop result out.old }
{
    let mut i = 0;
    for n in 0..out.len() {
        if text.len() <= i {
            return n;
        }
        let s = spelt_at(text, i);
        out[n] = s.byte;
        i = s.next;
    }
    out.len()
}
