// Postfix code of expressions: its rule, its run, its laws.
//
// The root answers what the loader asks of code; run: what code gives on the triggers' states.
// Promises: both answer as specs/Code.antt says, for any words; code that is ok never faults, whatever the states (`sound_code_lem`, proofs/Sound.antt).
// May not touch: what it is lent. It knows nothing of plans, events and files.
#![tactic(auto)]

ghost use Rattle.std.specs.Prelude.{◌≡◌};
ghost use Rattle.code.specs.Code.{limit};
ghost use Rattle.code.specs.HeightsCode.{rise as rise_to, sound_code};

pub mod run;

// How many values a stack holds at most.
pub const LIMIT: usize = 24;

// How high a stack of height h stands after a word; none where the word is at fault. Words are numbers: one `match` by ranges is the form that paper 01
// names for code, here and in `run::evaluate`.
fn rise(w: u32, h: usize, triggers: u32) -> Option<usize>
    ensures { result ≡ rise_to limit triggers w h }
{
    match w {
        0..=31 => if (w < triggers) & (h < LIMIT) {
            Some(h + 1)
        } else {
            None
        },
        32 | 33 => if 2 <= h { Some(h - 1) } else { None },
        34 => if 1 <= h { Some(h) } else { None },
        _ => None,
    }
}

// Whether the loader takes the code in a plan of so many triggers.
pub fn code_ok(code: &[u32], triggers: u32) -> bool
    ensures { result ≡ sound_code triggers code.now }
{
    let mut h = 0;
    for &w in code {
        let Some(risen) = rise(w, h, triggers) else {
            return false;
        };
        h = risen;
    }
    h == 1
}
