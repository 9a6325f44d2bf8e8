// A list of events from fresh, as bytes in and bytes out: 32 for an event, 32 for an answer. The plan is judged once for the whole list.
//
// events: the event that its bytes stand for. answers: the bytes of an answer. The root goes over the list.
// Promises: `replay` answers any words, bytes of events, counts and room: each event as the rules of one event say for the plan that the words are,
// on the state and the counts that the event before it left, or 20 where they are none (specs/Replay.antt). Bytes behind the last answer stay.
// May not touch: files, XML. It reads plan words only where the loader took them.
#![tactic(auto)]

ghost use Rattle.std.specs.Prelude.{◌≡◌, ◌≤◌, length, replicate, map};
ghost use Rattle.event_rules.specs.Calls.{fresh};
ghost use Rattle.replay.specs.Wire.{event_at};
ghost use Rattle.engine.specs.TriggersCode.{never};
ghost use Rattle.engine.specs.EventCode.{engine_of, outcome_of};
ghost use Rattle.replay.specs.Replay.{events_answered, Replays};
ghost use Rattle.replay.specs.ReplayCode.{step_loaded, forgotten};

pub mod answers;
pub mod events;

use engine::event;
use engine::event::{Ran, Running};
use engine::plan_words::PlanWords;
use event_rules::{Answer, Counts, Firing, Logging, Refusal};
use loader::Layout;

// A fresh engine, beside the last firings of triggers that never fired.
fn fresh_running() -> Running
    ensures { engine_of result (replicate 32 never) ≡ fresh }
{
    Running {
        logging: Logging::Off,
        truth: [false; 16],
        started: false,
        last: 0,
    }
}

// By its fields, and no struct of zeros: see `forget`.
fn forget_one(firing: &mut Firing)
    ensures { firing.new ≡ never }
{
    firing.ever = false;
    firing.at = 0;
}

// No trigger has fired. Field by field and not inlined: else an array of zeros is a call of memset, and the archive for C needs no name from outside.
#[inline(never)]
fn forget(fired: &mut [Firing; 32])
    ensures { fired.new ≡ map forgotten fired.old }
{
    for i in 0..32 {
        forget_one(&mut fired[i]);
    }
}

// One event, for what the loader answered. Its bytes are read where there is a plan.
fn step_loaded(
    words: &[u32],
    loaded: Option<Layout>,
    s: Running,
    k: Counts,
    event: &[u8; 32],
    fired: &mut [Firing; 32],
) -> Ran
    ensures { outcome_of result fired.new ≡ step_loaded words.now loaded (engine_of s fired.old) k (event_at event.now) }
{
    let Some(lay) = loaded else {
        return Ran {
            answer: Answer::Refused(Refusal::NoPlan),
            state: s,
            counts: k,
        };
    };
    let e = events::read_event(event);
    event::run_event(PlanWords { words, lay }, s, k, e, fired)
}

// Feeds a fresh engine with as many events as there is room for their answers, and answers how many.
// By place, not by `chunks_exact_mut`: tried, and what such a loop leaves in `out` stayed open, no proof knows it but for its length.
pub fn replay(words: &[u32], events: &[u8], counts: Counts, out: &mut [u8]) -> usize
    ensures { (result ≡ events_answered events.now out.old) × Replays words.now events.now counts out.old out.new }
{
    let n = (events.len() / 32).min(out.len() / 32);
    let loaded = loader::load(words);
    let mut s = fresh_running();
    let mut fired = [Firing { ever: true, at: 1 }; 32];
    forget(&mut fired);
    let mut k = counts;
    for i in 0..n {
        let at = 32 * i;
        let event = events[at..].first_chunk().unwrap();
        let r = step_loaded(words, loaded, s, k, event, &mut fired);
        s = r.state;
        k = r.counts;
        out[at..at + 32].copy_from_slice(&answers::answer_bytes(r.answer, s.logging, k));
    }
    n
}
