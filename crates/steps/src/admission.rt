// Which events an engine accepts.
//
// Promises: `refuse` is a call refused by any number, the others give the refusals 21 to 24 in their order.
ghost use Rattle.std.specs.Prelude.{◌≡◌, Some};
ghost use Rattle.event_rules.specs.Calls.{late, out_of_range, full, frame_refusal, refusal_from, refusal_at, answer_refusal, refused};

use event_rules::{Answer, Counts, Engine, Event, Frame, Outcome, Refusal};
use records::{DLC_TOP, sizes};

// A time before the last accepted one, or too far away.
pub fn is_late(last: u64, u: u64) -> bool
    ensures { result ≡ late last u }
{
    (u < last) | (10000000000000000 < u)
}

fn is_out_of_range(f: Frame) -> bool
    ensures { result ≡ out_of_range f }
{
    let top = sizes::id_top(f.ext);
    !f.error & ((top < f.id) | (DLC_TOP < f.dlc))
}

fn is_full(k: Counts) -> bool
    ensures { result ≡ full k }
{
    4294967295
        <= u64::from(k.recorded) + u64::from(k.idle) + u64::from(k.stopped) + u64::from(k.halted)
}

// The refusal of a frame, if any: 21 to 24 in their order.
pub fn refusal_of_frame(channels: u32, last: u64, k: Counts, f: Frame) -> Option<Refusal>
    ensures { result ≡ frame_refusal channels last k f }
{
    if channels <= f.channel {
        return Some(Refusal::NoChannel);
    }
    if is_late(last, f.time) {
        return Some(Refusal::BadTime);
    }
    if is_out_of_range(f) {
        return Some(Refusal::OutOfRange);
    }
    if is_full(k) {
        return Some(Refusal::CountsFull);
    }
    None
}

// The refusal of an event, if any; of a tick 22 alone.
pub fn refusal_of(channels: u32, last: u64, k: Counts, e: Event) -> Option<Refusal>
    ensures { result ≡ refusal_from channels last k e }
{
    match e {
        Event::Frame(f) => refusal_of_frame(channels, last, k, f),
        Event::Tick(u) if is_late(last, u) => Some(Refusal::BadTime),
        Event::Tick(_) => None,
    }
}

// A refused event changes nothing. The answer has the number that is given, whatever it is.
#[tactic(auto, using(event_rules::proofs::Numbers::number_kept))]
pub fn refuse(n: u32, en: Engine, k: Counts) -> Outcome
    ensures outcome { result ≡ refused (refusal_at n) en k }
    ensures number { answer_refusal result.answer ≡ Some (n, 0) }
{
    Outcome {
        answer: Answer::Refused(Refusal::from(n)),
        engine: en,
        counts: k,
    }
}
