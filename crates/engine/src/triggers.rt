// The triggers: which of those that stand in a row of words fire at an event, which are true then, and what their firing leaves.
//
// Promises: `fire_all` and `keep_firings` are step 5 of the rules of one event, for the triggers that any words are read as.
ghost use Rattle.std.specs.Prelude.{◌≡◌, cond, ◌≤◌, leb, length};
ghost use Rattle.records.specs.RecordsCode.{trigger_size, trigger_at};
ghost use Rattle.engine.specs.RowsCode.{rows_of};
ghost use Rattle.engine.specs.TriggersCode.{turn_of, fire_all, none_fired, kept};

use crate::rows;
use event_rules::{Event, Firing};
use records::sizes;
use steps::{matches, timeouts};

// Which triggers fire at an event, and which are true then. Two lists and no list of turns: statements take the states alone, the last firings what
// fires.
#[derive(Clone, Copy)]
pub struct Fired {
    pub fires: [bool; 32],
    pub states: [bool; 32],
}

// Whether a trigger fires, and whether it is true.
#[derive(Clone, Copy)]
struct Turn {
    fires: bool,
    on: bool,
}

fn turn_of(rec: &[u32], first: bool, e: Event, last: Firing) -> Turn
    ensures { result ≡ turn_of (trigger_at rec.now) first e last }
{
    let t = records::trigger_at(rec);
    let fires = matches::trigger_fires(t.cause, first, e);
    let lasts = timeouts::trigger_lasts(t.timeout, last, e.time());
    Turn {
        fires,
        on: fires | lasts,
    }
}

// How many triggers to fire: none where there are more than last firings.
fn at_most(count: u32, fired: &[Firing]) -> usize
    ensures { (result ≡ cond (leb count (length fired.now)) count 0) × (result ≤ length fired.now) }
{
    let n = count as usize;
    if n <= fired.len() { n } else { 0 }
}

// All triggers, in order; none where there are more than 32. It sets no last firing: an event whose code is at fault leaves them as they were.
// That the list is 32 long is for callers, whom a reference does not tell it.
pub(crate) fn fire_all(
    triggers: &[u32],
    count: u32,
    first: bool,
    e: Event,
    fired: &[Firing; 32],
) -> Fired
    ensures { (result ≡ fire_all (rows_of trigger_size trigger_at 32 count triggers.now) first e fired.now 0 none_fired) × (length fired.now ≡ 32) }
{
    let mut s = Fired {
        fires: [false; 32],
        states: [false; 32],
    };
    let n = at_most(count, fired);
    let mut at = 0;
    for i in 0..n {
        let rest = rows::tail(triggers, at);
        let turn = turn_of(rest, first, e, fired[i]);
        s.fires[i] = turn.fires;
        s.states[i] = turn.on;
        at += sizes::trigger_size(rest);
    }
    s
}

// The last firings, once the triggers of `fires` fired at u.
// By index, not by `iter_mut`: tried, and what such a loop leaves in `fired` stayed open, no proof knows it but for its length.
pub(crate) fn keep_firings(fires: [bool; 32], u: u64, fired: &mut [Firing; 32])
    ensures { fired.new ≡ kept fires u fired.old }
{
    for i in 0..32 {
        if fires[i] {
            fired[i] = Firing { ever: true, at: u };
        }
    }
}
