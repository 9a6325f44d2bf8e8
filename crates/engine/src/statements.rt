// The statements: what the expressions of those that stand in a row of words give, and what the risen ones do.
//
// Promises: `evaluate_all` and `act_risen` are step 6 of the rules of one event, for the statements that any words are read as.
ghost use Rattle.std.specs.Prelude.{◌≡◌, map, cond, ◌+◌, ◌*◌, ◌<◌, ◌≤◌};
ghost use Rattle.records.specs.RecordsCode.{statement_size, statement_at, action_at};
ghost use Rattle.engine.specs.RowsCode.{rows_of};
ghost use Rattle.event_rules.specs.Rules.{act_all};
ghost use Rattle.event_rules.specs.Calls.{statement_of};
ghost use Rattle.engine.specs.StatementsCode.{evaluate_all, act_risen, in_time};

use crate::rows;
use code::run;
use event_rules::Logging;
use records::{Action, sizes};
use steps::logging;

// What a statement's code gives on the triggers' states; none at a fault.
fn evaluate_one(rec: &[u32], states: [bool; 32]) -> Option<bool>
    ensures { result ≡ (statement_of (statement_at rec.now)).holds states }
{
    let actions = records::word(rec, 1) as usize;
    let size = records::word(rec, 2) as usize;
    let behind = rows::tail(rec, 3 + actions);
    run::evaluate(rows::head(behind, size), states)
}

// All expressions, in order, into the truths; none where there are more than 16. A fault of the code leaves no truths.
pub(crate) fn evaluate_all(
    statements: &[u32],
    count: u32,
    states: [bool; 32],
    start: [bool; 16],
) -> Option<[bool; 16]>
    ensures { result ≡ evaluate_all (map statement_of (rows_of statement_size statement_at 16 count statements.now)) states 0 start }
{
    if 16 < count {
        return Some(start);
    }
    let mut truth = start;
    let mut at = 0;
    for i in 0..count as usize {
        let rest = rows::tail(statements, at);
        truth[i] = evaluate_one(rest, states)?;
        at += sizes::statement_size(rest);
    }
    Some(truth)
}

fn act_all(actions: &[u32], end: u64, start: Logging) -> Logging
    ensures { result ≡ act_all end (map action_at actions.now) start }
{
    let mut l = start;
    for word in actions {
        l = logging::do_action(l, Action::from(*word), end);
    }
    l
}

// A statement does its actions where its expression rose.
fn act_statement(rec: &[u32], u: u64, rose: bool, l: Logging) -> Logging
    requires { u ≤ 10000000000000000 }
    ensures { result ≡ cond rose (act_all (u + 1000 * (statement_at rec.now).post) (statement_at rec.now).actions l) l }
{
    if !rose {
        return l;
    }
    let end = u + 1000 * u64::from(records::word(rec, 0));
    let count = records::word(rec, 1) as usize;
    let behind = rows::tail(rec, 3);
    act_all(rows::head(behind, count), end, l)
}

// The statements whose expression rose act, in order; none where there are more than 16, or at a time that no event has.
pub(crate) fn act_risen(
    statements: &[u32],
    count: u32,
    u: u64,
    was: [bool; 16],
    truth: [bool; 16],
    start: Logging,
) -> Logging
    ensures { result ≡ in_time u (act_risen (map statement_of (rows_of statement_size statement_at 16 count statements.now)) u was truth 0 start) start }
{
    if 10000000000000000 < u {
        return start;
    }
    if 16 < count {
        return start;
    }
    let mut l = start;
    let mut at = 0;
    for i in 0..count as usize {
        let rest = rows::tail(statements, at);
        l = act_statement(rest, u, truth[i] & !was[i], l);
        at += sizes::statement_size(rest);
    }
    l
}
