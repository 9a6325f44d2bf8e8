// What an action makes of the logging state: step 6.
ghost use Rattle.std.specs.Prelude.{◌≡◌};
ghost use Rattle.event_rules.specs.Rules.{act};

use event_rules::Logging;
use records::Action;

// One action on the logging state; `end` is when a stop of this statement ends. Every other pair changes nothing.
pub fn do_action(l: Logging, a: Action, end: u64) -> Logging
    ensures { result ≡ act end a l }
{
    match (a, l) {
        (Action::StartLog, Logging::Off | Logging::Ending(_)) => Logging::On,
        (Action::StopLog, Logging::On) => Logging::Ending(end),
        (Action::StopLogCompletely, Logging::Off) => Logging::Halted,
        (Action::StopLogCompletely, Logging::On) => Logging::EndingCompletely(end),
        (Action::StopLogCompletely, Logging::Ending(e)) => Logging::EndingCompletely(e),
        (_, other) => other,
    }
}
