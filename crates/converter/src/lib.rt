// Files to plans.
//
// parts: triggers and filters into a plan. statements: statements with their code, or refusal 11 or 12. The root puts the plan together in a buffer of
// its own, and copies it where it is whole.
// Promises: `convert` answers every file and every buffer; specs/Converter.antt says which answer, and what the buffer holds then.
// May not touch: anything after the first refusal. No plan word is written before the last check.
#![tactic(auto)]

ghost use Rattle.std.specs.Prelude.{◌≡◌, ◌≤◌, None, length};
ghost use Rattle.document.specs.EntriesCode.{entry_room, entries_in};
ghost use Rattle.tables.specs.TablesCode.{names_at, tabled};
ghost use Rattle.converter.specs.Converter.{Converts};
ghost use Rattle.converter.specs.PlanCode.{WroteOr, counts, head_words, sheet_words, late_fault, Plain};

mod parts;
mod statements;

use crate::parts::{Filters, Triggers};
use document::ROOM;
use file_rules::Refusal;
use grammar::Spans;
use schema::kinds;
use tables::cells::Entries;
use tables::rows::Told;

// No plan is longer: 6 words, and 32 triggers of 6, 32 filters of 7, 16 statements of 3 + 6 + 64.
const LONGEST: usize = 1590;

// How many triggers, filters and statements there are. One pass, and no three of `count_in`: in a small file passes over the entries are much of the work.
fn counts_of(entries: &[u32]) -> [u32; 3]
    requires { length entries.now ≤ entry_room }
    ensures { result ≡ counts (entries_in entries.now) }
{
    let mut triggers = 0;
    let mut filters = 0;
    let mut statements = 0;
    for element in (Entries { words: entries }) {
        let kind = element.kind();
        triggers += u32::from(kinds::is_in(kinds::TRIGGERS, kind));
        filters += u32::from(kinds::is_in(kinds::FILTERS, kind));
        statements += u32::from(kinds::is_in(kinds::STATEMENTS, kind));
    }
    [triggers, filters, statements]
}

// The words before the records.
fn head_of(told: &Told, entries: &[u32]) -> [u32; 6]
    requires { length entries.now ≤ entry_room }
    ensures { result ≡ head_words told.now (entries_in entries.now) }
{
    let head = told.head;
    let counts = counts_of(entries);
    [
        records::NEWEST,
        head.channels,
        head.all as u32,
        counts[0],
        counts[1],
        counts[2],
    ]
}

// The plan of a file without faults up to 10: how many words were written, or the first refusal of 11 and 12.
fn write_sheet(file: &[u8], told: &Told, entries: &[u32], out: &mut [u32]) -> Result<usize, Refusal>
    requires { (length entries.now ≤ entry_room) × (length (sheet_words file.now told.now (entries_in entries.now)) ≤ length out.old) × (length out.old ≤ 1590) }
    ensures { WroteOr (late_fault file.now (names_at file.now told.now.names) (entries_in entries.now)) (sheet_words file.now told.now (entries_in entries.now)) out.old result out.new }
{
    let names = &told.names;
    let head = head_of(told, entries);
    let triggers_at = parts::write_words(&head[..], &mut out[..]);
    let filters_at = triggers_at + parts::write_rows::<Triggers>(entries, &mut out[triggers_at..]);
    let lines_at = filters_at + parts::write_rows::<Filters>(entries, &mut out[filters_at..]);
    let spans = Spans {
        file,
        starts: names.starts(),
        ends: names.ends(),
    };
    let lines = statements::write_statements(spans, entries, &mut out[lines_at..])?;
    Ok(lines_at + lines)
}

// The plan of a file without faults up to 10, if nothing is left to refuse. It is put together in a buffer of its own.
fn write_plan(file: &[u8], told: &Told, entries: &[u32], plan: &mut [u32]) -> Result<usize, Refusal>
    requires { Plain file.now (entries_in entries.now) × (told.now ≡ (tabled file.now (entries_in entries.now)).told) × ((tabled file.now (entries_in entries.now)).fault ≡ None) × (length entries.now ≤ entry_room) }
    ensures { Converts file.now plan.old result plan.new }
{
    let mut sheet = [0; LONGEST];
    let n = write_sheet(file, told, entries, &mut sheet)?;
    if plan.len() < n {
        return Err(Refusal {
            number: 13,
            place: n,
        });
    }
    Ok(parts::write_words(&sheet[..n], plan))
}

// Writes the plan of a file and answers how many words that are, or its first refusal.
pub fn convert(file: &[u8], plan: &mut [u32]) -> Result<usize, Refusal>
    ensures { Converts file.now plan.old result plan.new }
{
    let mut entries = [0; ROOM];
    let end = document::read_index(file, &mut entries)?;
    let telling = tables::read_tables(file, &entries[..end]);
    if let Some(fault) = telling.fault {
        return Err(fault);
    }
    write_plan(file, &telling.told, &entries[..end], plan)
}
