// What the known elements of a file say: the triggers' names, channels, log_all; and one entry, with those behind it.
//
// Promises: each answers any file, words and entry, by value, as specs/RowsCode.antt gives it.
ghost use Rattle.std.specs.Prelude.{◌≤◌, ◌+◌, ◌≡◌, cond, ltb, length, take};
ghost use Rattle.document.specs.EntriesCode.{entries_in};
ghost use Rattle.tables.specs.RowsCode.{shown, left, front, is_channel, is_inner, mask_of, text_of, counted, cause_from, trigger_from, effect_of, filter_from, with_channel, action_from, push_name, tell_head, told};

use crate::cells::{Entries, Entry};
use element::fields;
use records::{Cause, Effect, Filter, Timeout, Trigger};
use schema::{attributes, kinds};
use walk::Part;

// Where the triggers' names stand in the file, and the triggers: of each array the first `count`. Three arrays, since `expression::compile` is lent
// starts and ends as two slices and answers also where one of them is longer; fixed memory is a rule of the project.
#[derive(Clone, Copy)]
pub struct Names {
    pub starts: [usize; 32],
    pub ends: [usize; 32],
    pub places: [usize; 32],
    pub count: usize,
}

impl Names {
    pub fn starts(&self) -> &[usize]
        ensures { result.now ≡ take self.now.count self.now.starts }
    {
        &self.starts[..self.count.min(32)]
    }

    pub fn ends(&self) -> &[usize]
        ensures { result.now ≡ take self.now.count self.now.ends }
    {
        &self.ends[..self.count.min(32)]
    }

    pub fn places(&self) -> &[usize]
        ensures { result.now ≡ take self.now.count self.now.places }
    {
        &self.places[..self.count.min(32)]
    }

    // One name more, if there is room for it.
    fn push(&mut self, name: Part, place: usize)
        ensures { self.new ≡ push_name self.old name place }
    {
        let last = self.count;
        if last < 32 {
            self.starts[last] = name.from;
            self.ends[last] = name.to;
            self.places[last] = place;
            self.count = last + 1;
        }
    }
}

// How many PARAMETERS there are and which channels they have; log_all.
#[derive(Clone, Copy)]
pub struct Head {
    pub channels: u32,
    pub present: [bool; 5],
    pub all: bool,
}

#[derive(Clone, Copy)]
pub struct Told {
    pub head: Head,
    pub names: Names,
}

fn cause_from(element: Entry<'_>) -> Cause
    ensures { result ≡ cause_from (shown element.entry) }
{
    let channel = element.value(attributes::CHANNEL);
    let kind = element.kind();
    if kinds::is_same(kind, kinds::TRIGGER_MSG_ID) {
        let wide = element.value(attributes::CAN_EXT);
        let lower = element.value(attributes::MSGID_MIN);
        let upper = element.value(attributes::MSGID);
        return Cause::Id {
            channel,
            ext: wide == 1,
            lower,
            upper,
        };
    }
    if kinds::is_same(kind, kinds::TRIGGER_MSG_DLC) {
        let lower = element.value(attributes::DLC_MIN);
        let upper = element.value(attributes::DLC);
        return Cause::Length {
            channel,
            lower,
            upper,
        };
    }
    if kinds::is_same(kind, kinds::TRIGGER_MSG_ERROR_FRAME) {
        return Cause::Error(channel);
    }
    Cause::Startup
}

// The trigger that an entry says.
pub fn trigger_from(element: Entry<'_>) -> Trigger
    ensures { result ≡ trigger_from (shown element.entry) }
{
    let word = element.value(attributes::TIMEOUT);
    let timeout = Timeout::from(word);
    let cause = cause_from(element);
    Trigger { cause, timeout }
}

fn effect_of(kind: usize) -> Effect
    ensures { result ≡ effect_of kind }
{
    if kinds::is_same(kind, kinds::MESSAGE_PASS) {
        return Effect::Pass;
    }
    Effect::Stop
}

// The filter that an entry says, with these channels.
pub fn filter_from(element: Entry<'_>, mask: u32) -> Filter
    ensures { result ≡ filter_from mask (shown element.entry) }
{
    let effect = effect_of(element.kind());
    let wide = element.value(attributes::CAN_EXT);
    let lower = element.value(attributes::MSGID_MIN);
    let upper = element.value(attributes::MSGID);
    let shortest = element.value(attributes::DLC_MIN);
    let longest = element.given(attributes::DLC).unwrap_or(records::DLC_TOP);
    Filter {
        effect,
        mask,
        ext: wide == 1,
        lower,
        upper,
        shortest,
        longest,
    }
}

// One channel more in a mask of five. A test, not `checked_shl`: that ends at 32, and a mask has five channels.
fn with_channel(mask: u32, channel: u32) -> u32
    ensures { result ≡ with_channel mask channel }
{
    if channel < 5 {
        mask | (1 << channel)
    } else {
        mask
    }
}

// The channels of the CHANNELs at the front of some entries.
pub fn mask_from(entries: Entries<'_>) -> u32
    ensures { result ≡ mask_of (front is_channel (left entries.entry)) }
{
    let mut mask = 0;
    for element in entries {
        if !kinds::is_same(element.kind(), kinds::CHANNEL) {
            return mask;
        }
        mask = with_channel(mask, element.number());
    }
    mask
}

// Does an element of the kind stand in a STATEMENT, or in its ACTIONS?
pub fn is_inner(kind: usize) -> bool
    ensures { result ≡ is_inner kind }
{
    kinds::is_in(kinds::STATEMENT, kind) | kinds::is_in(kinds::ACTIONS, kind)
}

// Where the EXPRESSION of a statement stands, whose elements are at the front of some entries; 0 where none does, and a STATEMENT without faults has one.
pub fn text_from(entries: Entries<'_>) -> usize
    ensures { result ≡ text_of (front is_inner (left entries.entry)) }
{
    let mut text = 0;
    for element in entries {
        let kind = element.kind();
        if !is_inner(kind) {
            return text;
        }
        if kinds::is_same(kind, kinds::EXPRESSION) {
            text = element.place();
        }
    }
    text
}

// The word of an action.
pub fn action_from(kind: usize) -> u32
    ensures { result ≡ action_from kind }
{
    if kinds::is_same(kind, kinds::ACTION_START_LOG) {
        return 1;
    }
    if kinds::is_same(kind, kinds::ACTION_STOP_LOG) {
        return 2;
    }
    3
}

// Beyond every limit the count stands still. A test, not `min`: a count above 5 stays what it is (`tell_head` in specs/RowsCode.antt).
fn one_more(channels: u32) -> u32
    ensures { result ≡ cond (ltb channels 5) (channels + 1) channels }
{
    if channels < 5 { channels + 1 } else { channels }
}

// What an entry adds to the head.
fn tell_head(h: Head, element: Entry<'_>) -> Head
    ensures { result ≡ tell_head h (shown element.entry) }
{
    let kind = element.kind();
    let mut next = h;
    if kinds::is_same(kind, kinds::PARAMETERS) {
        let channel = element.value(attributes::CHANNEL);
        next.channels = one_more(h.channels);
        if channel < 5 {
            next.present[channel as usize] = true;
        }
        return next;
    }
    if kinds::is_same(kind, kinds::MODE) {
        let log = element.value(attributes::LOG_ALL);
        next.all = h.all | (log == 1);
        return next;
    }
    h
}

// What all entries say.
pub fn tell(file: &[u8], words: &[u32]) -> Told
    ensures { result ≡ told file.now (entries_in words.now) }
{
    let mut head = Head {
        channels: 0,
        present: [false; 5],
        all: false,
    };
    let mut names = Names {
        starts: [0; 32],
        ends: [0; 32],
        places: [0; 32],
        count: 0,
    };
    for element in (Entries { words }) {
        head = tell_head(head, element);
        if kinds::is_in(kinds::TRIGGERS, element.kind()) {
            let place = element.place();
            names.push(fields::value_at(file, place, b"name"), place);
        }
    }
    Told { head, names }
}

// How many entries are of kinds that stand in `parent`.
pub fn count_in(words: &[u32], parent: usize) -> usize
    ensures { (result ≡ counted parent (entries_in words.now)) × (result ≤ length words.now) }
{
    Entries { words }
        .filter(|element| kinds::is_in(parent, element.kind()))
        .count()
}
