// What time makes of the logging state, and what a frame then answers: steps 1, 2 and 7.
ghost use Rattle.std.specs.Prelude.{◌≡◌};
ghost use Rattle.event_rules.specs.Rules.{is_halted, ended_by, recorded_or_idle};

use event_rules::{Answer, Logging};

pub fn is_halted(l: Logging) -> bool
    ensures { result ≡ is_halted l }
{
    matches!(l, Logging::Halted)
}

// An ending whose time has come is over, at that very microsecond.
pub fn ended_by(l: Logging, u: u64) -> Logging
    ensures { result ≡ ended_by u l }
{
    match l {
        Logging::Ending(e) if e <= u => Logging::Off,
        Logging::EndingCompletely(e) if e <= u => Logging::Halted,
        other => other,
    }
}

pub fn recorded_or_idle(l: Logging) -> Answer
    ensures { result ≡ recorded_or_idle l }
{
    match l {
        Logging::On | Logging::Ending(_) | Logging::EndingCompletely(_) => Answer::Recorded,
        Logging::Off | Logging::Halted => Answer::Idle,
    }
}
