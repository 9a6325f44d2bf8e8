// The logger for C: loads a plan and replays events against it. The header is include/steamfiddle.h; `logger_archive` has the symbols that C links.
//
// Promises: `steamfiddle_load` tells a plan from any other words; `steamfiddle_replay` answers any bytes as the rules of one event say, event by
// event. Neither keeps anything between calls.
// May not touch: files, XML.
#![tactic(auto)]

ghost use Rattle.std.specs.Prelude.{◌≡◌};
ghost use Rattle.replay.specs.Replay.{events_answered, Replays};
ghost use Rattle.logger_c.specs.Calls.{Loading, counts_of};

use event_rules::{Counts, Refusal};

// 0 where the words are a plan, else 20.
pub fn steamfiddle_load(plan: &[u32]) -> u32
    ensures { Loading plan.now result }
{
    match loader::load(plan) {
        Some(_) => 0,
        None => Refusal::NoPlan.number(),
    }
}

// Feeds a fresh engine with as many whole events as there is room for their answers, and answers how many.
pub fn steamfiddle_replay(
    plan: &[u32],
    events: &[u8],
    recorded: u32,
    idle: u32,
    stopped: u32,
    halted: u32,
    out: &mut [u8],
) -> u64
    ensures { (result ≡ events_answered events.now out.old) × Replays plan.now events.now (counts_of recorded idle stopped halted) out.old out.new }
{
    let counts = Counts {
        recorded,
        idle,
        stopped,
        halted,
    };
    let n = replay::replay(plan, events, counts, out);
    n as u64
}
