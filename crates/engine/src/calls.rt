// One event on an engine by value: that of `event`, with the last firings taken out before and put back behind.
//
// Promises: `step_event` answers any words, places, engine, counts and event, as the rules of one event say for the plan that is read off there; a
// refused call gives back engine and counts as they were.
ghost use Rattle.std.specs.Prelude.{◌≡◌};
ghost use Rattle.event_rules.specs.Calls.{step, config_of};
ghost use Rattle.engine.specs.EventCode.{plan_by};

use crate::event;
use crate::event::Running;
use crate::plan_words::PlanWords;
use event_rules::{Counts, Engine, Event, Outcome};

pub(crate) fn step_event(plan: PlanWords, en: Engine, k: Counts, e: Event) -> Outcome
    ensures { result ≡ step (config_of (plan_by plan.entry.words.now plan.entry.lay)) en k e }
{
    let mut fired = en.fired;
    let truth = en.truth;
    let s = Running {
        logging: en.logging,
        truth,
        started: en.started,
        last: en.last,
    };
    let r = event::run_event(plan, s, k, e, &mut fired);
    let after = r.state;
    let truth = after.truth;
    let engine = Engine {
        logging: after.logging,
        fired,
        truth,
        started: after.started,
        last: after.last,
    };
    Outcome {
        answer: r.answer,
        engine,
        counts: r.counts,
    }
}
