// The bytes of an answer.
//
// Promises: `answer_bytes` gives the 32 bytes of an answer (specs/Wire.antt).
ghost use Rattle.std.specs.Prelude.{◌≡◌, List, Bool, ℕ};
ghost use Rattle.event_rules.specs.declared.Firing.{Firing};
ghost use Rattle.replay.specs.Wire.{answer_byte, logging_byte, end_time, answer_bytes};

use event_rules::{Answer, Counts, Logging};

// No From, here and below: these bytes are those of a replay alone (specs/Wire.antt).
fn answer_byte(a: Answer) -> u8
    ensures { result ≡ answer_byte a }
{
    match a {
        Answer::Recorded => 0,
        Answer::Idle => 1,
        Answer::Stopped => 2,
        Answer::Halted => 3,
        Answer::Ticked => 4,
        Answer::Refused(refusal) => (refusal.number() % 256) as u8,
    }
}

fn logging_byte(l: Logging) -> u8
    ensures { result ≡ logging_byte l }
{
    match l {
        Logging::Off => 0,
        Logging::On => 1,
        Logging::Ending(_) => 2,
        Logging::EndingCompletely(_) => 3,
        Logging::Halted => 4,
    }
}

fn end_time(l: Logging) -> u64
    ensures { result ≡ end_time l }
{
    match l {
        Logging::Ending(e) | Logging::EndingCompletely(e) => e,
        Logging::Off | Logging::On | Logging::Halted => 0,
    }
}

// An answer's bytes, numbers low byte first. Of the engine they tell the logging state alone: what else it holds may be anything.
pub(crate) fn answer_bytes(answer: Answer, logging: Logging, counts: Counts) -> [u8; 32]
    ensures { (fired : List Firing) → (truth : List Bool) → (started : Bool) → (last : ℕ) → result ≡ answer_bytes (record { answer = answer; engine = record { logging = logging; fired = fired; truth = truth; started = started; last = last }; counts = counts }) }
{
    let mut bytes = [0; 32];
    bytes[0] = answer_byte(answer);
    bytes[1] = logging_byte(logging);
    bytes[8..16].copy_from_slice(&end_time(logging).to_le_bytes());
    bytes[16..20].copy_from_slice(&counts.recorded.to_le_bytes());
    bytes[20..24].copy_from_slice(&counts.idle.to_le_bytes());
    bytes[24..28].copy_from_slice(&counts.stopped.to_le_bytes());
    bytes[28..32].copy_from_slice(&counts.halted.to_le_bytes());
    bytes
}
