// Runs postfix code.
//
// Promises: `evaluate` answers what the stack machine of specs/Code.antt gives, for any words and states.
ghost use Rattle.std.specs.Prelude.{◌≡◌, ◌≤◌, ◌<◌, ◌^◌, [], ◌∷◌, ltb, Some, MatchOption};
ghost use Rattle.code.specs.Code.{limit, only_value, value_on};
ghost use Rattle.code.specs.RunCode.{bits_of};

use crate::LIMIT;

// A stack of truth values: h of them, as bits of a number, the top in the lowest.
#[derive(Clone, Copy)]
struct Stack {
    h: usize,
    bits: u32,
    ghost few: { h ≤ limit },
    ghost fits: { bits < 2 ^ h },
}

impl Stack {
    fn empty() -> Stack
        ensures { bits_of result.h result.bits ≡ [] }
    {
        Stack { h: 0, bits: 0 }
    }

    // The top, and the stack below it; none where there is no value.
    fn pop(self) -> Option<(bool, Stack)>
        ensures { MatchOption result (bits_of self.h self.bits ≡ []) (λ x. (x.1.h < limit) × (bits_of self.h self.bits ≡ x.0 ∷ bits_of x.1.h x.1.bits)) }
    {
        if self.h < 1 {
            return None;
        }
        let below = Stack {
            h: self.h - 1,
            bits: self.bits / 2,
        };
        Some((self.bits % 2 == 1, below))
    }

    fn has_room(self) -> bool
        ensures { result ≡ ltb self.h limit }
    {
        self.h < LIMIT
    }

    // The stack with a value more, on top.
    fn push(self, value: bool) -> Stack
        requires { self.h < limit }
        ensures { bits_of result.h result.bits ≡ value ∷ bits_of self.h self.bits }
    {
        Stack {
            h: self.h + 1,
            bits: 2 * self.bits + u32::from(value),
        }
    }

    // What it gives at the end: the one value that is left.
    fn value_left(self) -> Option<bool>
        ensures { result ≡ only_value (Some (bits_of self.h self.bits)) }
    {
        if self.h == 1 {
            Some(self.bits % 2 == 1)
        } else {
            None
        }
    }
}

// Runs code on the triggers' states; none at a fault.
pub fn evaluate(code: &[u32], states: [bool; 32]) -> Option<bool>
    ensures { result ≡ value_on states code.now }
{
    let mut s = Stack::empty();
    for &w in code {
        s = match w {
            0..=31 => {
                if !s.has_room() {
                    return None;
                }
                s.push(states[w as usize])
            }
            32 => {
                let (b, left) = s.pop()?;
                let (a, below) = left.pop()?;
                below.push(a & b)
            }
            33 => {
                let (b, left) = s.pop()?;
                let (a, below) = left.pop()?;
                below.push(a | b)
            }
            34 => {
                let (a, below) = s.pop()?;
                below.push(!a)
            }
            _ => return None,
        };
    }
    s.value_left()
}
