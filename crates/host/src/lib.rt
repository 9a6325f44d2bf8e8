// The host's side of an event call: the four counts stand in one record that the host lends to each call.
//
// Promises: answer, state and record are exactly as the engine's call by value gives them.
// May not touch: anything but the record that is lent.
#![tactic(auto)]

ghost use Rattle.std.specs.Prelude.{◌≡◌};
ghost use Rattle.event_rules.specs.Calls.{Answers};

use event_rules::{Counts, Engine, Event, Frame, Outcome};

// One event; the record becomes the outcome's counts. A tick is counted nowhere, so it leaves the record as it is.
pub fn event_into(words: &[u32], en: Engine, counts: &mut Counts, e: Event) -> Outcome
    ensures { Answers words.now en counts.old e result × (counts.new ≡ result.counts) }
{
    let before = *counts;
    let out = engine::take_event(words, en, before, e);
    *counts = out.counts;
    out
}

// One frame. A name of its own, as `tick_into`: those who call give the one or the other.
pub fn frame_into(words: &[u32], en: Engine, counts: &mut Counts, f: Frame) -> Outcome
    ensures { Answers words.now en counts.old (Event.Frame f) result × (counts.new ≡ result.counts) }
{
    event_into(words, en, counts, Event::Frame(f))
}

// One tick, at u.
pub fn tick_into(words: &[u32], en: Engine, counts: &mut Counts, u: u64) -> Outcome
    ensures { Answers words.now en counts.old (Event.Tick u) result × (counts.new ≡ result.counts) }
{
    event_into(words, en, counts, Event::Tick(u))
}
