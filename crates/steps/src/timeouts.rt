// How long a trigger stays true: step 5.
ghost use Rattle.std.specs.Prelude.{◌≡◌, ◌+◌, ◌*◌, ltb};
ghost use Rattle.event_rules.specs.Rules.{lasts};

use event_rules::Firing;
use records::Timeout;

// Whether u is before t + 1000 x timeout.
fn before_end(u: u64, t: u64, timeout: u32) -> bool
    ensures { result ≡ ltb u (t + 1000 * timeout) }
{
    if u < t {
        return true;
    }
    u - t < 1000 * u64::from(timeout)
}

// Whether a trigger is still true at u from its last firing.
pub fn trigger_lasts(timeout: Timeout, last: Firing, u: u64) -> bool
    ensures { result ≡ lasts u last timeout }
{
    match (last.ever, timeout) {
        (false, _) => false,
        (true, Timeout::Forever) => true,
        (true, Timeout::Ms(ms)) => before_end(u, last.at, ms),
    }
}
