// The elements: their numbers, what stands in what, and how many.
//
// Promises: each answer is that of the paper's table of elements (specs/Schema.antt), for every number and name.
ghost use Rattle.std.specs.Prelude.{◌≡◌, ◌<◌};
ghost use Rattle.text.specs.Texts.{same};
ghost use Rattle.schema.specs.Schema.{one_of, under};
ghost use Rattle.schema.specs.SchemaCode.{kind_count, kind_name, is_carried, is_barred, held_in, kind_under};
ghost use Rattle.lists.specs.BitsCode.{Marks};

use crate::names::Elements;
use crate::{Times, names};
use lists::bits;

// An element's number is its kind; 0 is the file itself. Numbers and no enum: the elements are data, a row of specs/SchemaCode.antt and a row of
// the tables below, and sets of them are bits (docs/DECISIONS.md, 96 and 97).
pub const FILE: usize = 0;

pub const KVASER: usize = 1;

pub const VERSION: usize = 2;

pub const SETTINGS: usize = 3;

pub const MODE: usize = 4;

pub const CAN_BUS: usize = 5;

pub const PARAMETERS: usize = 6;

pub const TRIGGERBLOCK: usize = 7;

pub const TRIGGERS: usize = 8;

pub const TRIGGER_MSG_ID: usize = 9;

pub const TRIGGER_MSG_DLC: usize = 10;

pub const TRIGGER_MSG_ERROR_FRAME: usize = 11;

pub const TRIGGER_STARTUP: usize = 12;

pub const STATEMENTS: usize = 13;

pub const STATEMENT: usize = 14;

pub const EXPRESSION: usize = 15;

pub const ACTIONS: usize = 16;

pub const ACTION_START_LOG: usize = 17;

pub const ACTION_STOP_LOG: usize = 18;

pub const ACTION_STOP_LOG_COMPLETELY: usize = 19;

pub const FILTERS: usize = 20;

pub const MESSAGE_PASS: usize = 21;

pub const MESSAGE_STOP: usize = 22;

pub const CHANNEL: usize = 23;

// Those from here on are known, and not carried: the first of each parent.
pub const PARAMETERS_FD: usize = 24;

pub const TRIGGER_SIGVAL: usize = 25;

pub const ACTION_EXTERNAL_PULSE: usize = 29;

pub const SIGNAL_PASS: usize = 33;

// None of them. A number and no Option: it is in no set of kinds, so what asks by a set answers of an element that no parent knows as of any other.
pub const KINDS: usize = 42;

// ---- what stands in what
const IN_FILE: u64 = 1 << KVASER;

const IN_KVASER: u64 = (1 << VERSION)
    | (1 << SETTINGS)
    | (1 << CAN_BUS)
    | (1 << TRIGGERBLOCK)
    | (1 << FILTERS);

const IN_SETTINGS: u64 = 1 << MODE;

const IN_CAN_BUS: u64 = 1 << PARAMETERS;

const IN_TRIGGERBLOCK: u64 = (1 << TRIGGERS) | (1 << STATEMENTS);

const IN_TRIGGERS: u64 = (1 << TRIGGER_MSG_ID)
    | (1 << TRIGGER_MSG_DLC)
    | (1 << TRIGGER_MSG_ERROR_FRAME)
    | (1 << TRIGGER_STARTUP);

const IN_STATEMENTS: u64 = 1 << STATEMENT;

const IN_STATEMENT: u64 = (1 << EXPRESSION) | (1 << ACTIONS);

const IN_ACTIONS: u64 = (1 << ACTION_START_LOG)
    | (1 << ACTION_STOP_LOG)
    | (1 << ACTION_STOP_LOG_COMPLETELY);

const IN_FILTERS: u64 = (1 << MESSAGE_PASS) | (1 << MESSAGE_STOP);

const IN_FILTER: u64 = 1 << CHANNEL;

// Known there, and not carried.
const NOT_CAN_BUS: u64 = 1 << PARAMETERS_FD;

const NOT_TRIGGERS: u64 = (1 << ACTION_EXTERNAL_PULSE) - (1 << TRIGGER_SIGVAL);

const NOT_ACTIONS: u64 = (1 << SIGNAL_PASS) - (1 << ACTION_EXTERNAL_PULSE);

const NOT_FILTERS: u64 = (1 << KINDS) - (1 << SIGNAL_PASS);

// The elements that an element holds, as a set of kinds.
pub fn carried_in(kind: usize) -> u64
    ensures { Marks 64 (λ k. one_of (under (kind_name kind)).carried (kind_name k)) result }
{
    match kind {
        FILE => IN_FILE,
        KVASER => IN_KVASER,
        SETTINGS => IN_SETTINGS,
        CAN_BUS => IN_CAN_BUS,
        TRIGGERBLOCK => IN_TRIGGERBLOCK,
        TRIGGERS => IN_TRIGGERS,
        STATEMENTS => IN_STATEMENTS,
        STATEMENT => IN_STATEMENT,
        ACTIONS => IN_ACTIONS,
        FILTERS => IN_FILTERS,
        MESSAGE_PASS => IN_FILTER,
        MESSAGE_STOP => IN_FILTER,
        _ => 0,
    }
}

// Those that are known there and not carried.
fn barred_in(kind: usize) -> u64
    ensures { Marks kind_count (λ k. one_of (under (kind_name kind)).barred (kind_name k)) result }
{
    match kind {
        CAN_BUS => NOT_CAN_BUS,
        TRIGGERS => NOT_TRIGGERS,
        ACTIONS => NOT_ACTIONS,
        FILTERS => NOT_FILTERS,
        _ => 0,
    }
}

// May an element of the kind k stand in one of the kind q?
fn is_held(q: usize, k: usize) -> bool
    requires { k < kind_count }
    ensures { result ≡ held_in (kind_name q) (kind_name k) }
{
    bits::has_bit(carried_in(q), k) || bits::has_bit(barred_in(q), k)
}

// The kind of an element with that name in an element of the kind `parent`.
pub fn kind_under(parent: usize, name: &[u8]) -> usize
    ensures { result ≡ kind_under parent name.now }
{
    let Some(k) = names::number_in::<Elements>(name) else {
        return KINDS;
    };
    if is_held(parent, k) { k } else { KINDS }
}

// Is an element of the kind carried where it may stand?
pub fn is_carried(kind: usize) -> bool
    ensures { result ≡ is_carried (kind_name kind) }
{
    (KVASER <= kind) & (kind < PARAMETERS_FD)
}

// Is it known and not carried?
pub fn is_barred(kind: usize) -> bool
    ensures { result ≡ is_barred (kind_name kind) }
{
    (PARAMETERS_FD <= kind) & (kind < KINDS)
}

// Is an element of the kind one of those that `parent` holds?
pub fn is_in(parent: usize, kind: usize) -> bool
    ensures { result ≡ one_of (under (kind_name parent)).carried (kind_name kind) }
{
    kind < KINDS && bits::has_bit(carried_in(parent), kind)
}

// Have elements of two kinds one name? Behind the last kind there is none.
pub fn is_same(a: usize, b: usize) -> bool
    ensures { result ≡ same (kind_name a) (kind_name b) }
{
    (a == b) | ((KINDS <= a) & (KINDS <= b))
}

// How many elements an element may hold.
#[tactic(auto, unfolding(crate::specs::Schema::parents, crate::specs::Schema::parent_in, crate::specs::SchemaCode::names, crate::specs::SchemaCode::name_in, lists::specs::Lists::any, lists::specs::BitsCode::from, text::specs::Texts::bytes, text::specs::Texts::same))]
pub fn times_of(kind: usize) -> Times
    ensures { result ≡ (under (kind_name kind)).times }
{
    match kind {
        FILE => Times::Once,
        KVASER => Times::Once,
        SETTINGS => Times::Once,
        TRIGGERBLOCK => Times::Once,
        STATEMENT => Times::Once,
        CAN_BUS => Times::OneTo(5),
        MESSAGE_PASS => Times::OneTo(5),
        MESSAGE_STOP => Times::OneTo(5),
        TRIGGERS => Times::UpTo(32),
        FILTERS => Times::UpTo(32),
        STATEMENTS => Times::UpTo(16),
        ACTIONS => Times::UpTo(6),
        _ => Times::UpTo(0),
    }
}
