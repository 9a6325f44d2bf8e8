// Records into a plan: each goes into what remains of it behind the one before.
//
// Promises: each writes the words that specs/PlanCode.antt gives, and answers how many; the words behind them stay as they were.
ghost use Rattle.std.specs.Prelude.{ℕ, ◌≤◌, List, length};
ghost use Rattle.document.specs.EntriesCode as code;
ghost use Rattle.document.specs.EntriesCode.{entries_in};
ghost use Rattle.tables.specs.RowsCode.{shown, behind};
ghost use Rattle.converter.specs.PlanCode.{Wrote, rows_of, trigger_row, filter_row};

use records::words;
use schema::kinds;
use tables::cells::{Entries, Entry};
use tables::rows;

// Writes words to the front of a part of the plan.
pub(crate) fn write_words(from: &[u32], out: &mut [u32]) -> usize
    requires { length from.now ≤ length out.old }
    ensures { Wrote from.now out.old result out.new }
{
    let n = from.len();
    out[..n].copy_from_slice(from);
    n
}

// The record that an element becomes, if it is of a sort; those behind it say some of it.
pub(crate) trait Row {
    ghost becomes: { code.Entry → List code.Entry → List ℕ };

    fn write(element: Entry<'_>, out: &mut [u32]) -> usize
        requires { length (becomes (shown element) (behind element)) ≤ length out.old }
        ensures { Wrote (becomes (shown element.entry) (behind element.entry)) out.old result out.new };
}

pub(crate) struct Triggers;

impl Row for Triggers {
    ghost becomes = { trigger_row };

    fn write(element: Entry<'_>, out: &mut [u32]) -> usize {
        if kinds::is_in(kinds::TRIGGERS, element.kind()) {
            let trigger = rows::trigger_from(element);
            let row = words::trigger_words(trigger);
            return write_words(&row[..], out);
        }
        0
    }
}

// A filter's CHANNELs stand behind it.
pub(crate) struct Filters;

impl Row for Filters {
    ghost becomes = { filter_row };

    fn write(element: Entry<'_>, out: &mut [u32]) -> usize {
        if kinds::is_in(kinds::FILTERS, element.kind()) {
            let mask = rows::mask_from(element.rest());
            let filter = rows::filter_from(element, mask);
            let row = words::filter_words(filter);
            return write_words(&row[..], out);
        }
        0
    }
}

// The records of one sort.
pub(crate) fn write_rows<R: Row>(words: &[u32], out: &mut [u32]) -> usize
    requires { length (rows_of R.becomes (entries_in words.now)) ≤ length out.old }
    ensures { Wrote (rows_of R.becomes (entries_in words.now)) out.old result out.new }
{
    let mut n = 0;
    for element in (Entries { words }) {
        n += R::write(element, &mut out[n..]);
    }
    n
}
