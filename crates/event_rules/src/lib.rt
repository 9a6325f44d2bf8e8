// The rules of one event: the types of its state, its events and its answers; definitions and theorems.
//
// Promises: specs/Rules.antt states the rules over a configuration, once, specs/Calls.antt an event call, specs/History.antt lists of calls; the theorems on
// them stand in proofs/. The code is what a type says of itself: an event's time, a refusal's number, and how a program
// prints it, which is held to the stored output of engine_cases.
// May not touch: anything.
#![tactic(auto)]

ghost use Rattle.std.specs.Prelude.{◌≡◌};
ghost use Rattle.event_rules.specs.Rules.{time_of};
ghost use Rattle.event_rules.specs.Calls.{refusal_number, refusal_at};

use std::fmt;

// The logging state; an ending knows when it ends.
#[derive(Clone, Copy)]
pub enum Logging {
    Off,
    On,
    Ending(u64),
    EndingCompletely(u64),
    Halted,
}

impl fmt::Display for Logging {
    fn fmt<W: fmt::Write>(&self, f: &mut fmt::Formatter<W>) -> fmt::Result {
        match self {
            Logging::Off => f.write_str("Off"),
            Logging::On => f.write_str("On"),
            Logging::Ending(e) => write!(f, "ending at {e}"),
            Logging::EndingCompletely(e) => write!(f, "ending completely at {e}"),
            Logging::Halted => f.write_str("Halted"),
        }
    }
}

#[derive(Clone, Copy)]
pub struct Frame {
    pub channel: u32,
    pub time: u64,
    pub error: bool,
    pub remote: bool,
    pub ext: bool,
    pub id: u32,
    pub dlc: u32,
    pub bytes: [u8; 8],
}

// A frame, or a tick at a time.
#[derive(Clone, Copy)]
pub enum Event {
    Frame(Frame),
    Tick(u64),
}

impl Event {
    pub fn time(self) -> u64
        ensures { result ≡ time_of self }
    {
        match self {
            Event::Frame(f) => f.time,
            Event::Tick(u) => u,
        }
    }
}

// A trigger's last firing, if it ever fired.
// No Option: the public calls take any engine, also one in which a trigger that never fired has a time, and give it back (docs/DESIGN-PASS.md).
#[derive(Clone, Copy)]
pub struct Firing {
    pub ever: bool,
    pub at: u64,
}

// The engine's state: last firings by trigger, last truths by statement, whether an event came to the triggers, the last accepted time.
#[derive(Clone, Copy)]
pub struct Engine {
    pub logging: Logging,
    pub fired: [Firing; 32],
    pub truth: [bool; 16],
    pub started: bool,
    pub last: u64,
}

// The host's four counts.
#[derive(Clone, Copy)]
pub struct Counts {
    pub recorded: u32,
    pub idle: u32,
    pub stopped: u32,
    pub halted: u32,
}

impl fmt::Display for Counts {
    fn fmt<W: fmt::Write>(&self, f: &mut fmt::Formatter<W>) -> fmt::Result {
        write!(
            f,
            "{} {} {} {}",
            self.recorded, self.idle, self.stopped, self.halted
        )
    }
}

// Why an event is refused, each with its number.
#[derive(Clone, Copy)]
pub enum Refusal {
    // the words are no plan
    NoPlan,
    // the frame's channel is not below the plan's number of channels
    NoChannel,
    // a time below the last accepted one, or above 10^16
    BadTime,
    // identifier or dlc out of range
    OutOfRange,
    // the four counts have no room
    CountsFull,
    // a fault in expression code
    CodeFault,
    // any other number: no rule of an event gives it, `steps::admission::refuse` takes any number
    Other(u32),
}

impl Refusal {
    pub fn number(self) -> u32
        ensures { result ≡ refusal_number self }
    {
        match self {
            Refusal::NoPlan => 20,
            Refusal::NoChannel => 21,
            Refusal::BadTime => 22,
            Refusal::OutOfRange => 23,
            Refusal::CountsFull => 24,
            Refusal::CodeFault => 25,
            Refusal::Other(n) => n,
        }
    }
}

// The refusal that has the number.
impl From<u32> for Refusal {
    ghost from_gives = { λ n r. r ≡ refusal_at n };

    fn from(n: u32) -> Refusal {
        match n {
            20 => Refusal::NoPlan,
            21 => Refusal::NoChannel,
            22 => Refusal::BadTime,
            23 => Refusal::OutOfRange,
            24 => Refusal::CountsFull,
            25 => Refusal::CodeFault,
            other => Refusal::Other(other),
        }
    }
}

// A refusal's place is 0.
#[derive(Clone, Copy)]
pub enum Answer {
    Recorded,
    Idle,
    Stopped,
    Halted,
    Ticked,
    Refused(Refusal),
}

impl fmt::Display for Answer {
    fn fmt<W: fmt::Write>(&self, f: &mut fmt::Formatter<W>) -> fmt::Result {
        match self {
            Answer::Recorded => f.write_str("Recorded"),
            Answer::Idle => f.write_str("Idle"),
            Answer::Stopped => f.write_str("Stopped"),
            Answer::Halted => f.write_str("Halted"),
            Answer::Ticked => f.write_str("Ticked"),
            Answer::Refused(refusal) => write!(f, "refused {}", refusal.number()),
        }
    }
}

#[derive(Clone, Copy)]
pub struct Outcome {
    pub answer: Answer,
    pub engine: Engine,
    pub counts: Counts,
}
