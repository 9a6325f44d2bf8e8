// The filters: whether a frame passes those that stand in a row of words.
//
// Promises: `passed` is step 3 of the rules of one event, for the filters that any words are read as.
ghost use Rattle.std.specs.Prelude.{◌≡◌, map, ◌/◌, ◌%◌, ◌^◌, eqb};
ghost use Rattle.records.specs.RecordsCode.{filter_size, filter_at};
ghost use Rattle.loader.specs.ScanCode.{records_of};
ghost use Rattle.event_rules.specs.declared.Event.TheVariants.{Frame as frame};
ghost use Rattle.event_rules.specs.Rules.{passes};
ghost use Rattle.event_rules.specs.Calls.{filter_rule};

use crate::rows;
use event_rules::Frame;
use records::{Effect, sizes};
use steps::matches;

fn has_bit(mask: u32, n: u32) -> bool
    ensures { result ≡ eqb (mask / 2 ^ n % 2) 1 }
{
    n < 32 && (mask >> n) % 2 == 1
}

// Pass filters first, then stop filters; where none matches, a pass filter on the channel stops the frame.
pub(crate) fn passed(filters: &[u32], count: u32, f: Frame) -> bool
    ensures { result ≡ passes (map filter_rule (records_of filter_size filter_at count filters.now)) (frame f) }
{
    // whether a stop filter matched so far, and whether a pass filter stands on the channel
    let mut stopped = false;
    let mut barred = false;
    let mut at = 0;
    for _ in 0..count {
        let rest = rows::tail(filters, at);
        if has_bit(records::word(rest, 1), f.channel) {
            let x = records::filter_at(rest);
            let effect = x.effect;
            let like = matches::filter_matches(x, f);
            match effect {
                Effect::Pass => {
                    if like {
                        return true;
                    }
                    barred = true;
                }
                Effect::Stop => {
                    stopped = stopped | like;
                }
            }
        }
        at += sizes::filter_size(rest);
    }
    if stopped {
        return false;
    }
    !barred
}
