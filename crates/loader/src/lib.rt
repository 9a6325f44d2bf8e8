// The loader: which words are a plan.
//
// Promises: `load` takes the words exactly if they are the layout of a plan in range, as specs/Plan.antt says it; it answers every input.
// May not touch: files, events, the engine's state. It knows nothing of XML.
#![tactic(auto)]

ghost use Rattle.std.specs.Prelude.{ℕ, ◌≡◌, ◌≤◌, List, Bool, length, drop};
ghost use Rattle.std.specs.List.{list_all};
ghost use Rattle.records.specs.Records.{flag, timeout_word, trigger_words, effect_word, filter_words, timeout_in, id_top, cause_in, filter_in};
ghost use Rattle.loader.specs.Plan.{Loads};
ghost use Rattle.records.specs.RecordsCode.{timeout_at, trigger_at, effect_at, filter_at, action_at, trigger_size, filter_size, statement_size};
ghost use Rattle.loader.specs.ScanCode.{trigger_ok, filter_ok, action_ok, statement_ok, whole_of, scan_of, header_ok};

use records::{Cause, DLC_TOP, Filter, NEWEST, Timeout, sizes, words};

// Where the filters and the statements of a plan begin.
#[derive(Clone, Copy)]
pub struct Layout {
    pub filters: usize,
    pub statements: usize,
}

fn timeout_in(t: Timeout) -> bool
    ensures { result ≡ timeout_in t }
{
    match t {
        Timeout::Forever => true,
        Timeout::Ms(ms) => ms <= 1000000000,
    }
}

fn cause_in(cause: Cause, n: u32) -> bool
    ensures { result ≡ cause_in n cause }
{
    match cause {
        Cause::Id {
            channel,
            ext,
            lower,
            upper,
        } => {
            let top = sizes::id_top(ext);
            (channel < n) & (lower <= upper) & (upper <= top)
        }
        Cause::Length {
            channel,
            lower,
            upper,
        } => (channel < n) & (lower <= upper) & (upper <= DLC_TOP),
        Cause::Error(channel) => channel < n,
        Cause::Startup => true,
    }
}

// `masks` is 2 to the number of channels.
fn filter_in(x: Filter, masks: u32) -> bool
    ensures { result ≡ filter_in masks x }
{
    let top = sizes::id_top(x.ext);
    (1 <= x.mask)
        & (x.mask < masks)
        & (x.lower <= x.upper)
        & (x.upper <= top)
        & (x.shortest <= x.longest)
        & (x.longest <= DLC_TOP)
}

fn action_ok(a: u32) -> bool
    ensures { result ≡ action_ok a }
{
    (1 <= a) & (a <= 3)
}

fn actions_ok(actions: &[u32]) -> bool
    ensures { result ≡ list_all action_ok actions.now }
{
    actions.iter().all(|a| action_ok(*a))
}

// A kind of record, with the number that its ranges go by.
trait Kind: Copy {
    ghost size: { List ℕ → ℕ };

    ghost ok: { Self → List ℕ → Bool };

    // How many words the record has that the words start with.
    fn size(words: &[u32]) -> usize
        ensures { result ≡ size words.now };

    // Whether it is in range, where it is whole.
    fn ok(self, words: &[u32]) -> bool
        requires { size words.now ≤ length words.now }
        ensures { result ≡ ok self words.now };
}

#[derive(Clone, Copy)]
struct Triggers {
    channels: u32,
}

impl Kind for Triggers {
    ghost size = { trigger_size };

    ghost ok = { λ k. trigger_ok k.channels };

    fn size(words: &[u32]) -> usize {
        sizes::trigger_size(words)
    }

    // What is read is spelt again and compared.
    fn ok(self, words: &[u32]) -> bool {
        let t = records::trigger_at(words);
        let same = words.starts_with(&words::trigger_words(t));
        same & (timeout_in(t.timeout) & cause_in(t.cause, self.channels))
    }
}

// `masks` is 2 to the number of channels.
#[derive(Clone, Copy)]
struct Filters {
    masks: u32,
}

impl Kind for Filters {
    ghost size = { filter_size };

    ghost ok = { λ k. filter_ok k.masks };

    fn size(words: &[u32]) -> usize {
        sizes::filter_size(words)
    }

    fn ok(self, words: &[u32]) -> bool {
        let x = records::filter_at(words);
        let same = words.starts_with(&words::filter_words(x));
        same & filter_in(x, self.masks)
    }
}

#[derive(Clone, Copy)]
struct Statements {
    triggers: u32,
}

impl Kind for Statements {
    ghost size = { statement_size };

    ghost ok = { λ k. statement_ok k.triggers };

    fn size(words: &[u32]) -> usize {
        sizes::statement_size(words)
    }

    fn ok(self, words: &[u32]) -> bool {
        let code_at = 3 + words[1] as usize;
        let code_end = code_at + words[2] as usize;
        let fine = actions_ok(&words[3..code_at]);
        let runs = code::code_ok(&words[code_at..code_end], self.triggers);
        (words[0] <= 1000000000)
            & (words[1] <= 6)
            & (1 <= words[2])
            & (words[2] <= 64)
            & fine
            & runs
    }
}

// How many words the record has that the words start with; none where it is not whole or not in range.
fn whole<K: Kind>(words: &[u32], kind: K) -> Option<usize>
    ensures { result ≡ whole_of K.size (K.ok kind) words.now }
{
    let size = K::size(words);
    if size <= words.len() && kind.ok(words) {
        Some(size)
    } else {
        None
    }
}

// Where `count` records of a kind end, of which the first begins at `from`; none where one of them is bad.
fn scan<K: Kind>(words: &[u32], from: usize, count: u32, kind: K) -> Option<usize>
    requires { from ≤ length words.now }
    ensures { result ≡ scan_of K.size (K.ok kind) count from (drop from words.now) }
{
    let mut at = from;
    for _ in 0..count {
        at += whole(&words[at..], kind)?;
    }
    Some(at)
}

fn header_ok(words: &[u32]) -> bool
    requires { 6 ≤ length words.now }
    ensures { result ≡ header_ok words.now }
{
    (words[0] == NEWEST)
        & (1 <= words[1])
        & (words[1] <= 5)
        & (words[2] <= 1)
        & (words[3] <= 32)
        & (words[4] <= 32)
        & (words[5] <= 16)
}

// Whether the words are a plan, and where its records stand. None is the paper's 20, at 0.
pub fn load(words: &[u32]) -> Option<Layout>
    ensures { Loads words.now result }
{
    if words.len() < 6 {
        return None;
    }
    if !header_ok(words) {
        return None;
    }
    let channels = words[1];
    let triggers = words[3];
    let filters = scan(words, 6, triggers, Triggers { channels })?;
    let masks = 1 << channels;
    let statements = scan(words, filters, words[4], Filters { masks })?;
    let end = scan(words, statements, words[5], Statements { triggers })?;
    if end == words.len() {
        Some(Layout {
            filters,
            statements,
        })
    } else {
        None
    }
}
