// The archive for C, libsteamfiddle_logger.a: the functions of `logger_c` under the names that C links. The header is include/steamfiddle.h.
//
// Promises: what `logger_c` promises, with the same clauses.
// May not touch: files, XML.
#![tactic(auto)]

ghost use Rattle.std.specs.Prelude.{◌≡◌};
ghost use Rattle.replay.specs.Replay.{events_answered, Replays};
ghost use Rattle.logger_c.specs.Calls.{Loading, counts_of};

#[unsafe(no_mangle)]
pub extern "C" fn steamfiddle_load(plan: &[u32]) -> u32
    ensures { Loading plan.now result }
{
    logger_c::steamfiddle_load(plan)
}

#[unsafe(no_mangle)]
pub extern "C" fn steamfiddle_replay(
    plan: &[u32],
    events: &[u8],
    recorded: u32,
    idle: u32,
    stopped: u32,
    halted: u32,
    out: &mut [u8],
) -> u64
    ensures { (result ≡ events_answered events.now out.old) × Replays plan.now events.now (counts_of recorded idle stopped halted) out.old out.new }
{
    logger_c::steamfiddle_replay(plan, events, recorded, idle, stopped, halted, out)
}
