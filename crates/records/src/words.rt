// The words of one record of a plan.
//
// Promises: each function answers by the definition of its record, for every input.
// The words of a record are no `From`: `<[u32; 6]>::from(t)` would have each caller write the record's size, and is no plainer.
ghost use Rattle.std.specs.Prelude.{◌≡◌};
ghost use Rattle.records.specs.Records.{flag, timeout_word, trigger_words, effect_word, filter_words};

use crate::{Cause, Effect, Filter, Timeout, Trigger};

impl From<Timeout> for u32 {
    ghost from_gives = { λ t w. w ≡ timeout_word t };

    fn from(t: Timeout) -> u32 {
        match t {
            Timeout::Forever => u32::MAX,
            Timeout::Ms(ms) => ms,
        }
    }
}

impl From<Effect> for u32 {
    ghost from_gives = { λ e w. w ≡ effect_word e };

    fn from(e: Effect) -> u32 {
        match e {
            Effect::Pass => 1,
            Effect::Stop => 2,
        }
    }
}

// The words of a trigger.
pub fn trigger_words(t: Trigger) -> [u32; 6]
    ensures { result ≡ trigger_words t }
{
    let span = u32::from(t.timeout);
    match t.cause {
        Cause::Id {
            channel,
            ext,
            lower,
            upper,
        } => [1, channel, span, u32::from(ext), lower, upper],
        Cause::Length {
            channel,
            lower,
            upper,
        } => [2, channel, span, 0, lower, upper],
        Cause::Error(channel) => [3, channel, span, 0, 0, 0],
        Cause::Startup => [4, 0, span, 0, 0, 0],
    }
}

// The words of a filter.
pub fn filter_words(x: Filter) -> [u32; 7]
    ensures { result ≡ filter_words x }
{
    let kind = u32::from(x.effect);
    let ext = u32::from(x.ext);
    [kind, x.mask, ext, x.lower, x.upper, x.shortest, x.longest]
}
