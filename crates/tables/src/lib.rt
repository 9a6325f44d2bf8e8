// What the known elements of a file say together, and the first of its refusals 9 and 10.
//
// cells: the words of an entry. rows: what an entry says, and what all of them do. The root judges 9 and 10.
// Promises: `read_tables` answers every file and words, by value; proofs/Laws.antt, `reads_well`: for a file without faults what is told is what
// crates/file_rules/specs/Tables.antt says, and so is its first fault of 9 and 10.
// May not touch: expressions, and the words of a plan.
#![tactic(auto)]

ghost use Rattle.std.specs.Prelude.{◌≡◌, [], length, take, drop};
ghost use Rattle.text.specs.Texts.{same};
ghost use Rattle.grammar.specs.TokensCode.{spans};
ghost use Rattle.document.specs.EntriesCode.{entries_in};
ghost use Rattle.tables.specs.RowsCode.{shown};
ghost use Rattle.tables.specs.TablesCode.{used_from, name_fault, is_beyond, bus_fault, channel_fault, table_fault, tabled};
ghost use Rattle.file_rules.specs.RefusalCode.{refused_at};
ghost use Rattle.lists.specs.Lists.{any};

pub mod cells;
pub mod rows;

use crate::cells::{Entries, Entry};
use crate::rows::{Head, Names, Told};
use file_rules::Refusal;
use schema::{attributes, kinds};
use text::texts;

// What a file says, and its first refusal of 9 and 10. It is no `Result`: what the entries say is promised beside a refusal too.
#[derive(Clone, Copy)]
pub struct Telling {
    pub fault: Option<Refusal>,
    pub told: Told,
}

// Are two parts of the file the same? Each is cut at the file's end.
fn is_same(file: &[u8], start: usize, end: usize, from: usize, to: usize) -> bool
    ensures { result ≡ same (drop start (take end file.now)) (drop from (take to file.now)) }
{
    texts::same_text(grammar::cut(file, start, end), grammar::cut(file, from, to))
}

// Is the part of the file from a start up to an end one of the names?
fn is_used(file: &[u8], start: usize, end: usize, starts: &[usize], ends: &[usize]) -> bool
    ensures { result ≡ any (same (drop start (take end file.now))) (spans file.now starts.now ends.now) }
{
    starts
        .iter()
        .zip(ends)
        .any(|(from, to)| is_same(file, start, end, *from, *to))
}

// 9: the first name that one before it is.
fn used_name(file: &[u8], starts: &[usize], ends: &[usize], places: &[usize]) -> Option<Refusal>
    requires { (length starts.now ≡ length ends.now) × (length starts.now ≡ length places.now) }
    ensures { result ≡ used_from [] (spans file.now starts.now ends.now) places.now }
{
    for i in 0..starts.len() {
        if is_used(file, starts[i], ends[i], &starts[..i], &ends[..i]) {
            let place = places[i];
            return Some(Refusal { number: 9, place });
        }
    }
    None
}

fn name_fault(file: &[u8], names: &Names) -> Option<Refusal>
    ensures { result ≡ name_fault file.now names.now }
{
    used_name(file, names.starts(), names.ends(), names.places())
}

// 10 at an element.
fn wrong_channel(element: Entry<'_>) -> Refusal
    ensures { result ≡ refused_at 10 (shown element.entry).place }
{
    Refusal {
        number: 10,
        place: element.place(),
    }
}

// 10 at CAN_BUS: as many channels as there are PARAMETERS, but not those from 0 on.
fn bus_fault(head: Head, words: &[u32]) -> Option<Refusal>
    ensures { result ≡ bus_fault head (entries_in words.now) }
{
    let flags = head.present;
    if !lists::lacks_first(&flags, head.channels as usize) {
        return None;
    }
    Entries { words }
        .find(|element| kinds::is_same(element.kind(), kinds::CAN_BUS))
        .map(|element| wrong_channel(element))
}

// Does an element name a channel that is not below `channels`?
fn is_beyond(element: Entry<'_>, channels: u32) -> bool
    ensures { result ≡ is_beyond channels (shown element.entry) }
{
    let kind = element.kind();
    if kinds::is_same(kind, kinds::CHANNEL) {
        return channels <= element.number();
    }
    let startup = kinds::is_same(kind, kinds::TRIGGER_STARTUP);
    if kinds::is_in(kinds::TRIGGERS, kind) & !startup {
        return channels <= element.value(attributes::CHANNEL);
    }
    false
}

// 10 at the first such element.
fn channel_fault(head: Head, words: &[u32]) -> Option<Refusal>
    ensures { result ≡ channel_fault head (entries_in words.now) }
{
    let channels = head.channels;
    Entries { words }
        .find(|element| is_beyond(*element, channels))
        .map(|element| wrong_channel(element))
}

// The first of 9 and 10.
fn table_fault(file: &[u8], words: &[u32], told: &Told) -> Option<Refusal>
    ensures { result ≡ table_fault file.now (entries_in words.now) told.now }
{
    let head = told.head;
    name_fault(file, &told.names)
        .or_else(|| bus_fault(head, words))
        .or_else(|| channel_fault(head, words))
}

// What the entries of a file say together, and the first of its refusals 9 and 10.
#[tactic(auto, unfolding(crate::specs::TablesCode::tabled))]
pub fn read_tables(file: &[u8], words: &[u32]) -> Telling
    ensures { result ≡ tabled file.now (entries_in words.now) }
{
    let told = rows::tell(file, words);
    let fault = table_fault(file, words, &told);
    Telling { fault, told }
}
