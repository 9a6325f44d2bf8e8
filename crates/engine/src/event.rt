// One event on a plan's records, as they stand in words.
//
// Promises: `run_event` answers any plan words, state, counts and event, as the rules of one event say for the plan that is read off there; a
// refused call leaves state, last firings and counts as they were. Whether the words are a plan is the loader's.
ghost use Rattle.std.specs.Prelude.{◌≡◌, map, false, not, ◌≤◌, length};
ghost use Rattle.event_rules.specs.Rules.{time_of, answering, passes, triggered, process};
ghost use Rattle.event_rules.specs.Calls.{full, counted, step, filter_rule, config_of};
ghost use Rattle.engine.specs.TriggersCode.{fire_all, none_fired};
ghost use Rattle.engine.specs.EventCode.{triggers_read, filters_read, plan_by, engine_of, outcome_of, HasRoom, event_counted, reached_by, answered_at, settled_at, reached};

use crate::plan_words::PlanWords;
use crate::triggers::Fired;
use crate::{filters, statements, triggers};
use event_rules::{Answer, Counts, Event, Firing, Logging, Refusal};
use steps::{admission, endings};

// The engine's state but for the last firings, which are lent: most of its bytes are theirs, and by value they would be copied at each call.
#[derive(Clone, Copy)]
pub struct Running {
    pub logging: Logging,
    pub truth: [bool; 16],
    pub started: bool,
    pub last: u64,
}

// What a call gives.
#[derive(Clone, Copy)]
pub struct Ran {
    pub answer: Answer,
    pub state: Running,
    pub counts: Counts,
}

// An answer and the state behind it.
#[derive(Clone, Copy)]
struct Stepped {
    answer: Answer,
    state: Running,
}

// A tick answers Ticked, whatever a frame would answer.
fn answering(e: Event, a: Answer) -> Answer
    ensures { result ≡ answering e a }
{
    match e {
        Event::Frame(_) => a,
        Event::Tick(_) => Answer::Ticked,
    }
}

// An event that goes no further than the filters.
fn answer_with(s: Running, l: Logging, e: Event, a: Answer) -> Stepped
    ensures { result ≡ answered_at s l e a }
{
    let answer = answering(e, a);
    let last = e.time();
    let state = Running {
        logging: l,
        last,
        ..s
    };
    Stepped { answer, state }
}

// Step 7, on what the statements left.
fn settle(truth: [bool; 16], acted: Logging, e: Event) -> Stepped
    ensures { result ≡ settled_at truth acted e }
{
    let last = e.time();
    let logging = endings::ended_by(acted, last);
    let answer = answering(e, endings::recorded_or_idle(logging));
    let state = Running {
        logging,
        truth,
        started: true,
        last,
    };
    Stepped { answer, state }
}

fn fire_triggers(plan: PlanWords, first: bool, e: Event, fired: &[Firing; 32]) -> Fired
    ensures { (result ≡ fire_all (triggers_read plan.entry.words.now) first e fired.now 0 none_fired) × (length fired.now ≡ 32) }
{
    let count = plan.trigger_count();
    triggers::fire_all(plan.triggers(), count, first, e, fired)
}

// Steps 5 to 7. The last firings are set last: code at fault leaves them as they were.
fn trigger_event(
    plan: PlanWords,
    s: Running,
    l: Logging,
    e: Event,
    last_fired: &mut [Firing; 32],
) -> Stepped
    requires { time_of e ≤ 10000000000000000 }
    ensures { reached_by result last_fired.new ≡ reached (engine_of s last_fired.old) (triggered (config_of (plan_by plan.entry.words.now plan.entry.lay)) (engine_of s last_fired.old) l e) }
{
    let was = s.truth;
    let fired = fire_triggers(plan, !s.started, e, last_fired);
    let count = plan.statement_count();
    let statements = plan.statements();
    let evaluated = statements::evaluate_all(statements, count, fired.states, was);
    let Some(truth) = evaluated else {
        return Stepped {
            answer: Answer::Refused(Refusal::CodeFault),
            state: s,
        };
    };
    let u = e.time();
    let acted = statements::act_risen(statements, count, u, was, truth, l);
    triggers::keep_firings(fired.fires, u, last_fired);
    settle(truth, acted, e)
}

fn is_stopped(plan: PlanWords, e: Event) -> bool
    ensures { result ≡ not (passes (map filter_rule (filters_read plan.entry.words.now plan.entry.lay)) e) }
{
    let Event::Frame(f) = e else {
        return false;
    };
    !filters::passed(plan.filters(), plan.filter_count(), f)
}

// Steps 1 to 7.
fn process_event(plan: PlanWords, s: Running, e: Event, fired: &mut [Firing; 32]) -> Stepped
    requires { time_of e ≤ 10000000000000000 }
    ensures { reached_by result fired.new ≡ reached (engine_of s fired.old) (process (config_of (plan_by plan.entry.words.now plan.entry.lay)) (engine_of s fired.old) e) }
{
    let before = s.logging;
    let l = endings::ended_by(before, e.time());
    if endings::is_halted(l) {
        return answer_with(s, l, e, Answer::Halted);
    }
    if is_stopped(plan, e) {
        return answer_with(s, l, e, Answer::Stopped);
    }
    if plan.logs_all() {
        return answer_with(s, l, e, Answer::Recorded);
    }
    trigger_event(plan, s, l, e, fired)
}

fn count_answer(k: Counts, a: Answer) -> Counts
    requires { full k ≡ false }
    ensures { result ≡ counted k a }
{
    let mut next = k;
    match a {
        Answer::Recorded => next.recorded += 1,
        Answer::Idle => next.idle += 1,
        Answer::Stopped => next.stopped += 1,
        Answer::Halted => next.halted += 1,
        Answer::Ticked | Answer::Refused(_) => {}
    }
    next
}

// No tick is counted.
fn count_event(k: Counts, e: Event, a: Answer) -> Counts
    requires { HasRoom k e }
    ensures { result ≡ event_counted k e a }
{
    match e {
        Event::Frame(_) => count_answer(k, a),
        Event::Tick(_) => k,
    }
}

// One event.
pub fn run_event(plan: PlanWords, s: Running, k: Counts, e: Event, fired: &mut [Firing; 32]) -> Ran
    ensures { outcome_of result fired.new ≡ step (config_of (plan_by plan.entry.words.now plan.entry.lay)) (engine_of s fired.old) k e }
{
    let refused = admission::refusal_of(plan.channels(), s.last, k, e);
    if let Some(refusal) = refused {
        return Ran {
            answer: Answer::Refused(refusal),
            state: s,
            counts: k,
        };
    }
    let p = process_event(plan, s, e, fired);
    let answer = p.answer;
    let state = p.state;
    let counts = count_event(k, e, answer);
    Ran {
        answer,
        state,
        counts,
    }
}
