// Frames against filters, events against triggers: steps 3 and 5.
ghost use Rattle.std.specs.Prelude.{◌≡◌};
ghost use Rattle.event_rules.specs.Rules.{matches, fires};
ghost use Rattle.event_rules.specs.Calls.{filter_rule};

use event_rules::{Event, Frame};
use records::{Cause, Filter};

#[tactic(auto, unfolding(event_rules::specs::Rules::matches))]
pub fn filter_matches(x: Filter, f: Frame) -> bool
    ensures { result ≡ matches f (filter_rule x) }
{
    let covered = (x.shortest <= f.dlc) & (f.dlc <= x.longest);
    !f.error & (x.ext == f.ext) & (x.lower <= f.id) & (f.id <= x.upper) & covered
}

// Whether a trigger fires on an event; `first`: no event came to the triggers before.
#[tactic(auto, unfolding(event_rules::specs::Rules::fires))]
pub fn trigger_fires(cause: Cause, first: bool, e: Event) -> bool
    ensures { result ≡ fires first e cause }
{
    let Event::Frame(f) = e else {
        return first & matches!(cause, Cause::Startup);
    };
    match cause {
        Cause::Id {
            channel,
            ext,
            lower,
            upper,
        } => !f.error & (channel == f.channel) & (ext == f.ext) & (lower <= f.id) & (f.id <= upper),
        Cause::Length {
            channel,
            lower,
            upper,
        } => !f.error & (channel == f.channel) & (lower <= f.dlc) & (f.dlc <= upper),
        Cause::Error(channel) => f.error & (channel == f.channel),
        Cause::Startup => first,
    }
}
