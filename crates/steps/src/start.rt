// What an engine and its counts begin with: the paper's fresh state.
ghost use Rattle.std.specs.Prelude.{◌≡◌};
ghost use Rattle.event_rules.specs.Calls.{fresh, no_counts};

use event_rules::{Counts, Engine, Firing, Logging};

pub fn fresh_engine() -> Engine
    ensures { result ≡ fresh }
{
    let never = Firing { ever: false, at: 0 };
    Engine {
        logging: Logging::Off,
        fired: [never; 32],
        truth: [false; 16],
        started: false,
        last: 0,
    }
}

pub fn no_counts() -> Counts
    ensures { result ≡ no_counts }
{
    Counts {
        recorded: 0,
        idle: 0,
        stopped: 0,
        halted: 0,
    }
}
