// What a value is worth where its attribute asks for its sort: a number for the plan, or why it is refused.
//
// Promises: each answer is the paper's, for every sort and text.
ghost use Rattle.std.specs.Prelude.{◌≡◌};
ghost use Rattle.std.specs.List.{list_all};
ghost use Rattle.text.specs.Kinds.{is_name};
ghost use Rattle.values.specs.declared.Sort.TheVariants.{Timeout};
ghost use Rattle.values.specs.Values.{either_word, ranged, trigger_name, worth_of};

use crate::{Sort, Unfit};
use text::{letters, texts};

// One of two words: 0 or 1.
#[tactic(auto, unfolding(crate::specs::Values::either_word))]
fn one_of(text: &[u8], nought: &[u8], one: &[u8]) -> Option<u64>
    ensures { result ≡ either_word nought.now one.now text.now }
{
    if texts::same_text(text, nought) {
        Some(0)
    } else if texts::same_text(text, one) {
        Some(1)
    } else {
        None
    }
}

// A number in a range; anything else is a bad value, and what is above `most` is not carried. Paper 01 names `let .. else` for this place.
fn ranged_from(answer: Option<u64>, lo: u32, hi: u32, most: u32) -> Result<u32, Unfit>
    ensures { result ≡ ranged lo hi most answer }
{
    let Some(v) = answer else {
        return Err(Unfit::BadValue);
    };
    if !(u64::from(lo)..=u64::from(hi)).contains(&v) {
        return Err(Unfit::BadValue);
    }
    if u64::from(most) < v {
        return Err(Unfit::NotCarried);
    }
    Ok(v as u32)
}

#[tactic(auto, unfolding(crate::specs::Values::worth_of, text::specs::Texts::bytes))]
fn timeout_of(text: &[u8]) -> Result<u32, Unfit>
    ensures { result ≡ worth_of Timeout text.now }
{
    if texts::same_text(text, b"-1") {
        return Ok(u32::MAX);
    }
    ranged_from(crate::number_of(text), 0, 1000000000, 1000000000)
}

fn all_name(text: &[u8]) -> bool
    ensures { result ≡ list_all is_name text.now }
{
    text.iter().all(|b| letters::is_name(*b))
}

// 1 to 32 letters, digits or `_`, and none of the three operators.
#[tactic(auto, using(crate::proofs::Words::all_listed), unfolding(crate::specs::Values::trigger_name, text::specs::Texts::bytes))]
fn is_trigger_name(text: &[u8]) -> bool
    ensures { result ≡ trigger_name text.now }
{
    (1..=32).contains(&text.len())
        && !texts::same_text(text, b"AND")
        && !texts::same_text(text, b"OR")
        && !texts::same_text(text, b"NOT")
        && all_name(text)
}

// What the value is worth where its attribute asks for the sort: a number for the plan, or why it is refused.
#[tactic(auto, unfolding(crate::specs::Values::worth_of, text::specs::Texts::bytes))]
pub fn worth_of(sort: Sort, text: &[u8]) -> Result<u32, Unfit>
    ensures { result ≡ worth_of sort text.now }
{
    match sort {
        Sort::Numeric { lo, hi, most } => ranged_from(crate::number_of(text), lo, hi, most),
        Sort::Timeout => timeout_of(text),
        Sort::YesNo(most) => ranged_from(one_of(text, b"NO", b"YES"), 0, 1, most),
        Sort::Protocol => ranged_from(one_of(text, b"NONE", b"J1939"), 0, 1, 0),
        Sort::TriggerName => {
            if is_trigger_name(text) {
                Ok(0)
            } else {
                Err(Unfit::BadValue)
            }
        }
        Sort::Unread => Ok(0),
        Sort::Flexible => Err(Unfit::NotCarried),
    }
}
