// One record of a plan: what a trigger, a filter or an action says, its words, its size, its range.
//
// The root reads a record off its words; words: the words of one; sizes: how many it has, and the largest identifier.
// Promises: each function answers by the definition of its record (specs/Records.antt), for every input.
// May not touch: the plan as a whole. Which records make a plan is the loader's, where words go is the converter's.
#![tactic(auto)]

ghost use Rattle.std.specs.Prelude.{◌≡◌, get_or};
ghost use Rattle.records.specs.RecordsCode.{timeout_at, trigger_at, effect_at, filter_at, action_at};

pub mod sizes;
pub mod words;

// The first word of every plan, and the largest length code.
pub const NEWEST: u32 = 1;

pub const DLC_TOP: u32 = 8;

// What a trigger fires on.
#[derive(Clone, Copy)]
pub enum Cause {
    Id {
        channel: u32,
        ext: bool,
        lower: u32,
        upper: u32,
    },
    Length {
        channel: u32,
        lower: u32,
        upper: u32,
    },
    Error(u32),
    Startup,
}

#[derive(Clone, Copy)]
pub enum Timeout {
    Forever,
    Ms(u32),
}

#[derive(Clone, Copy)]
pub struct Trigger {
    pub cause: Cause,
    pub timeout: Timeout,
}

#[derive(Clone, Copy)]
pub enum Effect {
    Pass,
    Stop,
}

#[derive(Clone, Copy)]
pub struct Filter {
    pub effect: Effect,
    pub mask: u32,
    pub ext: bool,
    pub lower: u32,
    pub upper: u32,
    pub shortest: u32,
    pub longest: u32,
}

#[derive(Clone, Copy)]
pub enum Action {
    StartLog,
    StopLog,
    StopLogCompletely,
}

// A word, or 0 behind the last.
pub fn word(words: &[u32], i: usize) -> u32
    ensures { result ≡ get_or words.now i 0 }
{
    words.get(i).copied().unwrap_or(0)
}

// The timeout that a word stands for.
impl From<u32> for Timeout {
    ghost from_gives = { λ w t. t ≡ timeout_at w };

    fn from(w: u32) -> Timeout {
        match w {
            u32::MAX => Timeout::Forever,
            ms => Timeout::Ms(ms),
        }
    }
}

// The effect that the first word of a filter stands for.
impl From<u32> for Effect {
    ghost from_gives = { λ w e. e ≡ effect_at w };

    fn from(w: u32) -> Effect {
        match w {
            1 => Effect::Pass,
            _ => Effect::Stop,
        }
    }
}

// The action that a word of a statement stands for.
impl From<u32> for Action {
    ghost from_gives = { λ w a. a ≡ action_at w };

    fn from(w: u32) -> Action {
        match w {
            1 => Action::StartLog,
            2 => Action::StopLog,
            _ => Action::StopLogCompletely,
        }
    }
}

// The trigger whose record the words start with.
pub fn trigger_at(rec: &[u32]) -> Trigger
    ensures { result ≡ trigger_at rec.now }
{
    let channel = word(rec, 1);
    let lower = word(rec, 4);
    let upper = word(rec, 5);
    let cause = match word(rec, 0) {
        1 => Cause::Id {
            channel,
            ext: word(rec, 3) == 1,
            lower,
            upper,
        },
        2 => Cause::Length {
            channel,
            lower,
            upper,
        },
        3 => Cause::Error(channel),
        _ => Cause::Startup,
    };
    Trigger {
        cause,
        timeout: Timeout::from(word(rec, 2)),
    }
}

// The filter whose record the words start with.
pub fn filter_at(rec: &[u32]) -> Filter
    ensures { result ≡ filter_at rec.now }
{
    Filter {
        effect: Effect::from(word(rec, 0)),
        mask: word(rec, 1),
        ext: word(rec, 2) == 1,
        lower: word(rec, 3),
        upper: word(rec, 4),
        shortest: word(rec, 5),
        longest: word(rec, 6),
    }
}
