// The attributes: their numbers, which element has which, and what is asked of their values.
//
// Promises: each answer is that of the paper's table of attributes (specs/Schema.antt), for every number and name.
ghost use Rattle.std.specs.Prelude.{◌≡◌, not, eqb};
ghost use Rattle.schema.specs.Schema.{rules_of};
ghost use Rattle.schema.specs.SchemaCode.{attribute_count, kind_name, attribute_name, knows, demands, is_ruled, attribute_in, sort_of};
ghost use Rattle.lists.specs.BitsCode.{Marks};

use crate::names::Attributes;
use crate::{kinds, names};
use lists::bits;
use values::Sort;

// Numbers and no enum, for the reason at the elements' numbers.
pub const LOG_ALL: usize = 0;

pub const FIFO_MODE: usize = 1;

pub const CHANNEL: usize = 2;

pub const BITRATE: usize = 3;

pub const TSEG1: usize = 4;

pub const TSEG2: usize = 5;

pub const SJW: usize = 6;

pub const SILENT: usize = 7;

pub const BITRATE_BRS: usize = 8;

pub const TSEG1_BRS: usize = 9;

pub const TSEG2_BRS: usize = 10;

pub const SJW_BRS: usize = 11;

pub const ISO: usize = 12;

pub const NAME: usize = 13;

pub const TIMEOUT: usize = 14;

pub const MSGID: usize = 15;

pub const MSGID_MIN: usize = 16;

pub const CAN_EXT: usize = 17;

pub const CAN_FD: usize = 18;

pub const PROTOCOL: usize = 19;

pub const MSG_FIELD: usize = 20;

pub const DLC: usize = 21;

pub const DLC_MIN: usize = 22;

pub const PRETRIGGER: usize = 23;

pub const POSTTRIGGER: usize = 24;

// How many there are.
pub const ATTRIBUTES: usize = 25;

// ---- sets of them
const TRIGGER: u64 = (1 << NAME) | (1 << TIMEOUT) | (1 << CHANNEL);

const IDENTIFIER: u64 = (1 << MSGID) | (1 << MSGID_MIN) | (1 << CAN_EXT);

const OPTIONS: u64 = (1 << CAN_FD) | (1 << PROTOCOL) | (1 << MSG_FIELD);

const LENGTHS: u64 = (1 << DLC) | (1 << DLC_MIN);

const MODES: u64 = (1 << LOG_ALL) | (1 << FIFO_MODE);

const TIMING: u64 = (1 << CHANNEL)
    | (1 << BITRATE)
    | (1 << TSEG1)
    | (1 << TSEG2)
    | (1 << SJW)
    | (1 << SILENT);

const FLEXIBLE: u64 = (1 << BITRATE_BRS)
    | (1 << TSEG1_BRS)
    | (1 << TSEG2_BRS)
    | (1 << SJW_BRS)
    | (1 << ISO);

const STARTUP: u64 = (1 << NAME) | (1 << TIMEOUT);

const TIMES: u64 = (1 << PRETRIGGER) | (1 << POSTTRIGGER);

const MSG_ID_MUST: u64 = TRIGGER | IDENTIFIER;

const MSG_DLC_MUST: u64 = TRIGGER | LENGTHS;

const PARAMETERS_ALL: u64 = TIMING | FLEXIBLE;

const MSG_ID_ALL: u64 = TRIGGER | IDENTIFIER | OPTIONS;

const MSG_DLC_ALL: u64 = TRIGGER | LENGTHS | (1 << CAN_FD);

const FILTER_ALL: u64 = IDENTIFIER | OPTIONS | LENGTHS;

// The attributes that an element must have.
pub fn musts_of(kind: usize) -> u64
    ensures { Marks 64 (λ a. demands (rules_of (kind_name kind)) (attribute_name a)) result }
{
    match kind {
        kinds::MODE => MODES,
        kinds::PARAMETERS => TIMING,
        kinds::TRIGGER_MSG_ID => MSG_ID_MUST,
        kinds::TRIGGER_MSG_DLC => MSG_DLC_MUST,
        kinds::TRIGGER_MSG_ERROR_FRAME => TRIGGER,
        kinds::TRIGGER_STARTUP => STARTUP,
        kinds::STATEMENT => TIMES,
        kinds::MESSAGE_PASS => IDENTIFIER,
        kinds::MESSAGE_STOP => IDENTIFIER,
        _ => 0,
    }
}

// The attributes that an element may have; there are none only if it may have none.
fn all_of(kind: usize) -> u64
    ensures { Marks attribute_count (λ a. knows (rules_of (kind_name kind)) (attribute_name a)) result × (eqb result 0 ≡ not (is_ruled (kind_name kind))) }
{
    match kind {
        kinds::MODE => MODES,
        kinds::PARAMETERS => PARAMETERS_ALL,
        kinds::TRIGGER_MSG_ID => MSG_ID_ALL,
        kinds::TRIGGER_MSG_DLC => MSG_DLC_ALL,
        kinds::TRIGGER_MSG_ERROR_FRAME => TRIGGER,
        kinds::TRIGGER_STARTUP => STARTUP,
        kinds::STATEMENT => TIMES,
        kinds::MESSAGE_PASS => FILTER_ALL,
        kinds::MESSAGE_STOP => FILTER_ALL,
        _ => 0,
    }
}

// May an element of the kind have attributes?
pub fn is_ruled(kind: usize) -> bool
    ensures { result ≡ is_ruled (kind_name kind) }
{
    all_of(kind) != 0
}

// The number of the attribute with that name that an element of the kind may have.
pub fn attribute_in(kind: usize, name: &[u8]) -> Option<usize>
    ensures { result ≡ attribute_in kind name.now }
{
    let a = names::number_in::<Attributes>(name)?;
    if bits::has_bit(all_of(kind), a) {
        Some(a)
    } else {
        None
    }
}

// ---- the numbers that attributes ask for
const CHANNELS: Sort = Sort::Numeric {
    lo: 0,
    hi: 4,
    most: 4,
};

const BIT_RATES: Sort = Sort::Numeric {
    lo: 1,
    hi: 1000000,
    most: 1000000,
};

const SEGMENTS: Sort = Sort::Numeric {
    lo: 1,
    hi: 255,
    most: 255,
};

const IDS: Sort = Sort::Numeric {
    lo: 0,
    hi: 536870911,
    most: 536870911,
};

const LENGTH_CODES: Sort = Sort::Numeric {
    lo: 0,
    hi: 8,
    most: 8,
};

const NO_TIME: Sort = Sort::Numeric {
    lo: 0,
    hi: 1000000000,
    most: 0,
};

const SPANS: Sort = Sort::Numeric {
    lo: 0,
    hi: 1000000000,
    most: 1000000000,
};

// What is asked of the value of an attribute, in every element that has it.
pub fn sort_of(attribute: usize) -> Sort
    ensures { result ≡ sort_of (attribute_name attribute) }
{
    match attribute {
        LOG_ALL => Sort::YesNo(1),
        FIFO_MODE => Sort::YesNo(1),
        SILENT => Sort::YesNo(1),
        CAN_EXT => Sort::YesNo(1),
        CHANNEL => CHANNELS,
        BITRATE => BIT_RATES,
        TSEG1 => SEGMENTS,
        TSEG2 => SEGMENTS,
        SJW => SEGMENTS,
        BITRATE_BRS => Sort::Flexible,
        TSEG1_BRS => Sort::Flexible,
        TSEG2_BRS => Sort::Flexible,
        SJW_BRS => Sort::Flexible,
        ISO => Sort::Flexible,
        NAME => Sort::TriggerName,
        TIMEOUT => Sort::Timeout,
        MSGID => IDS,
        MSGID_MIN => IDS,
        CAN_FD => Sort::YesNo(0),
        PROTOCOL => Sort::Protocol,
        DLC => LENGTH_CODES,
        DLC_MIN => LENGTH_CODES,
        PRETRIGGER => NO_TIME,
        POSTTRIGGER => SPANS,
        _ => Sort::Unread,
    }
}
