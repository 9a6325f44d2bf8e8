// Names to numbers: a key made of a name's length and three of its letters says which name it can be, and that one is compared.
//
// Promises: `number_in` answers every name by its place in the lists of specs/SchemaCode.antt.
ghost use Rattle.std.specs.Prelude.{◌≡◌, ◌≤◌, ◌<◌, ℕ};
ghost use Rattle.text.specs.Texts.{same};
ghost use Rattle.schema.specs.SchemaCode.{names, attributes, kind_count, attribute_count, element_weight, attribute_weight};
ghost use Rattle.schema.specs.SchemaCode.{Names, Catalogued, elements_catalogued, attributes_catalogued, in_row, start_of, name_in, number_in, key_of, keyed};

use text::texts;

// A list of names by number, and the tables that find a name in it.
pub(crate) trait Catalogue {
    ghost list: { Names };

    ghost count: { ℕ };

    ghost weight: { ℕ };

    // What each `impl` must prove: no other name has a name's key.
    ghost laws: { Catalogued list count weight };

    // How much a name's last letter counts in its key.
    fn last_weight() -> usize
        ensures { (result ≡ weight) × (result < 64) };

    // The names in a row.
    fn row() -> &'static [u8]
        ensures { result.now ≡ in_row list };

    // Where the k-th name starts in the row; behind the last, where the row ends.
    fn start(k: usize) -> usize
        requires { k ≤ count }
        ensures { result ≡ start_of list k };

    // The only name that may have the key.
    fn named_by(key: usize) -> usize
        requires { key < 128 }
        ensures { result ≡ keyed weight list key };
}

// `tools/names` prints the tables of both lists.
pub(crate) struct Elements {}

static ELEMENT_ROW: [u8; 557] =
    *b"KVASERVERSIONSETTINGSMODECAN_BUSPARAMETERSTRIGGERBLOCKTRIGGERSTRIGGER_MSG_IDTRIGGER_MSG_DLCTRIGGER_MSG_ERROR_FRAMETRIGGER_STARTUPSTATEMENTSSTATEMENTEXPRESSIONACTIONSACTION_START_LOGACTION_STOP_LOGACTION_STOP_LOG_COMPLETELYFILTERSMESSAGE_PASSMESSAGE_STOPCHANNELPARAMETERS_FDTRIGGER_SIGVALTRIGGER_EXTERNALTRIGGER_TIMERTRIGGER_DISK_FULLACTION_EXTERNAL_PULSEEXTERNAL_PULSEACTION_ACTIVATE_AUTO_TRANSMIT_LISTACTION_DEACTIVATE_AUTO_TRANSMIT_LISTSIGNAL_PASSSIGNAL_STOPFLAG_PASSFLAG_STOPFLAGS_PASSFLAGS_STOPMESSAGE_COUNTING_PASSSIGNAL_COUNTING_PASSFLAG_COUNTING_PASS";

static ELEMENT_STARTS: [usize; 43] = [
    0, 0, 6, 13, 21, 25, 32, 42, 54, 62, 76, 91, 114, 129, 139, 148, 158, 165, 181, 196, 222, 229,
    241, 253, 260, 273, 287, 303, 316, 333, 354, 368, 402, 438, 449, 460, 469, 478, 488, 498, 519,
    539, 557,
];

static ELEMENT_KEYS: [u8; 128] = [
    0, 0, 40, 0, 0, 0, 11, 39, 0, 0, 0, 0, 0, 0, 0, 7, 0, 0, 0, 0, 0, 0, 0, 0, 4, 0, 15, 0, 0, 26,
    0, 2, 28, 0, 0, 0, 0, 0, 0, 0, 0, 0, 0, 0, 0, 0, 32, 25, 0, 0, 22, 0, 0, 0, 0, 16, 0, 36, 31,
    34, 1, 38, 0, 0, 30, 0, 0, 0, 24, 0, 0, 20, 0, 0, 0, 19, 8, 3, 6, 5, 10, 29, 0, 21, 0, 0, 0, 9,
    14, 13, 35, 0, 33, 18, 37, 12, 27, 0, 17, 0, 0, 0, 0, 0, 0, 0, 0, 0, 0, 0, 0, 0, 0, 23, 0, 41,
    0, 0, 0, 0, 0, 0, 0, 0, 0, 0, 0, 0,
];

impl Catalogue for Elements {
    ghost list = { names };

    ghost count = { kind_count };

    ghost weight = { element_weight };

    ghost laws = { elements_catalogued };

    fn last_weight() -> usize {
        11
    }

    fn row() -> &'static [u8] {
        &ELEMENT_ROW
    }

    fn start(k: usize) -> usize {
        ELEMENT_STARTS[k]
    }

    fn named_by(key: usize) -> usize {
        usize::from(ELEMENT_KEYS[key])
    }
}

pub(crate) struct Attributes {}

static ATTRIBUTE_ROW: [u8; 174] =
    *b"log_allfifo_modechannelbitratetseg1tseg2sjwsilentbitrate_brstseg1_brstseg2_brssjw_brsisonametimeoutmsgidmsgid_mincan_extcan_fdprotocolmsg_fielddlcdlc_minpretriggerposttrigger";

static ATTRIBUTE_STARTS: [usize; 26] = [
    0, 7, 16, 23, 30, 35, 40, 43, 49, 60, 69, 78, 85, 88, 92, 99, 104, 113, 120, 126, 134, 143,
    146, 153, 163, 174,
];

static ATTRIBUTE_KEYS: [u8; 128] = [
    0, 0, 0, 0, 9, 10, 0, 21, 6, 0, 0, 19, 0, 0, 0, 0, 0, 0, 0, 0, 0, 0, 0, 0, 0, 0, 0, 0, 0, 22,
    18, 0, 0, 0, 0, 23, 0, 0, 0, 0, 0, 11, 0, 0, 15, 0, 0, 0, 24, 0, 17, 16, 0, 0, 4, 0, 0, 0, 0,
    20, 0, 8, 0, 12, 0, 0, 0, 0, 7, 0, 1, 0, 13, 14, 0, 0, 0, 3, 0, 5, 0, 0, 0, 0, 0, 0, 0, 0, 0,
    0, 0, 0, 0, 0, 0, 0, 0, 0, 0, 0, 0, 0, 0, 0, 0, 0, 0, 0, 0, 0, 0, 0, 0, 0, 0, 0, 0, 0, 0, 0, 0,
    2, 0, 0, 0, 0, 0, 0,
];

impl Catalogue for Attributes {
    ghost list = { attributes };

    ghost count = { attribute_count };

    ghost weight = { attribute_weight };

    ghost laws = { attributes_catalogued };

    fn last_weight() -> usize {
        25
    }

    fn row() -> &'static [u8] {
        &ATTRIBUTE_ROW
    }

    fn start(k: usize) -> usize {
        ATTRIBUTE_STARTS[k]
    }

    fn named_by(key: usize) -> usize {
        usize::from(ATTRIBUTE_KEYS[key])
    }
}

// A number by which names are told apart, if the last letter has a good weight.
fn key_of(name: &[u8], weight: usize) -> usize
    requires { weight < 64 }
    ensures { (result ≡ key_of weight name.now) × (result < 128) }
{
    let n = name.len();
    if n == 0 {
        return 0;
    }
    let first = usize::from(name[0]);
    let last = usize::from(name[n - 1]);
    let middle = usize::from(name[n / 2]);
    (n % 128 * 4 + first + last * weight + middle) % 128
}

// Is that the name with the number k?
fn is_named<C: Catalogue>(k: usize, name: &[u8]) -> bool
    requires { k < C.count }
    ensures { result ≡ same (name_in C.list k) name.now }
{
    texts::same_text(&C::row()[C::start(k)..C::start(k + 1)], name)
}

// The number of the name in the list, if it stands there.
pub(crate) fn number_in<C: Catalogue>(name: &[u8]) -> Option<usize>
    ensures { result ≡ number_in C.list name.now }
{
    let k = C::named_by(key_of(name, C::last_weight()));
    if is_named::<C>(k, name) {
        Some(k)
    } else {
        None
    }
}
