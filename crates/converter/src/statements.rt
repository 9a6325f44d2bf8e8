// Statements into a plan: each expression's text is gathered, trimmed and compiled, in order.
//
// Promises: `write_statements` writes the words that specs/PlanCode.antt gives, or answers the place of the first expression that is refused and its
// number, 11 or 12.
ghost use Rattle.std.specs.Prelude.{◌≡◌, ◌≤◌, length, true};
ghost use Rattle.element.specs.ElementCode.{is_kind};
ghost use Rattle.shape.specs.Text.{trimmed};
ghost use Rattle.grammar.specs.GrammarCode.{compiled};
ghost use Rattle.grammar.specs.TokensCode.{names_in};
ghost use Rattle.document.specs.EntriesCode.{entries_in};
ghost use Rattle.tables.specs.RowsCode.{shown, left, behind};
ghost use Rattle.converter.specs.PlanCode.{Wrote, WroteOr, rows_of, compiled_at, actions_from, line_words, line_row, line_fault, late_fault};

use crate::parts;
use file_rules::Refusal;
use grammar::{Spans, Unfit, Words};
use schema::{attributes, kinds};
use tables::cells::{Entries, Entry};
use tables::rows;
use walk::{Part, pieces, texts, trims};

// The code of a text, blanks at its ends aside.
fn compile_text(text: &[u8], names: Spans) -> Result<Words, Unfit>
    ensures { result ≡ compiled (names_in names.entry.file.now names.entry.starts.now names.entry.ends.now) (trimmed text.now) }
{
    let part = trims::trim(text);
    let a = part.from;
    let e = part.to;
    expression::compile(&text[a..e], names)
}

// The code of a text in pieces, which are joined in a buffer. Not inlined, and lent the file itself and no `Spans`: only so the copy into the buffer is
// known to be between two things, and no call of memmove, which the archive for C did not need.
#[inline(never)]
fn compile_joined(
    file: &[u8],
    starts: &[usize],
    ends: &[usize],
    place: usize,
) -> Result<Words, Unfit>
    ensures { result ≡ compiled_at file.now (names_in file.now starts.now ends.now) place }
{
    let mut text = [0; 32768];
    let n = texts::gather_text(file, place, &mut text);
    compile_text(&text[..n], Spans { file, starts, ends })
}

// The code of the text of the element at a place. Nearly every text is one piece, and is read where it stands.
fn compile_at(names: Spans, place: usize) -> Result<Words, Unfit>
    ensures { result ≡ compiled_at names.entry.file.now (names_in names.entry.file.now names.entry.starts.now names.entry.ends.now) place }
{
    match pieces::single_text(names.file, place) {
        Some(Part { from, to }) => {
            let file = names.file;
            compile_text(&file[from..to], names)
        }
        None => compile_joined(names.file, names.starts, names.ends, place),
    }
}

// The actions among the elements of a statement, which are at the front of some entries.
fn write_actions(entries: Entries<'_>, out: &mut [u32]) -> usize
    requires { length (actions_from (left entries)) ≤ length out.old }
    ensures { Wrote (actions_from (left entries.entry)) out.old result out.new }
{
    let mut n = 0;
    for element in entries {
        let kind = element.kind();
        if !rows::is_inner(kind) {
            return n;
        }
        if kinds::is_in(kinds::ACTIONS, kind) {
            // n counts what was written, no turns
            out[n] = rows::action_from(kind);
            n += 1;
        }
    }
    n
}

// That a plan has 1,590 words at most stands in each contract: what remains of a lent buffer is a slice, which no type of ours holds.

// One statement, into a part of the plan that starts behind earlier records. How many actions it has is known behind them.
fn write_line(post: u32, entries: Entries<'_>, code: &[u32], out: &mut [u32]) -> usize
    requires { (length (line_words post (actions_from (left entries)) code.now) ≤ length out.old) × (length out.old ≤ 1590) }
    ensures { Wrote (line_words post (actions_from (left entries.entry)) code.now) out.old result out.new }
{
    let head = [post, 0, code.len() as u32];
    let acts_at = parts::write_words(&head[..], &mut out[..]);
    let n = write_actions(entries, &mut out[acts_at..]);
    let code_at = acts_at + n;
    let end = code_at + parts::write_words(code, &mut out[code_at..]);
    out[1] = n as u32;
    end
}

// A STATEMENT; its elements stand behind it. 11 if its expression breaks its rules, 12 if a word names no trigger.
// Not inlined: its locals hold compiled code and are cleared where it begins, which at every element would be most of the work.
#[inline(never)]
fn write_found(names: Spans, element: Entry<'_>, out: &mut [u32]) -> Result<usize, Refusal>
    requires { (is_kind (shown element).kind "STATEMENT" ≡ true) × (length (line_row names.file.now (names_in names.file.now names.starts.now names.ends.now) (shown element) (behind element)) ≤ length out.old) × (length out.old ≤ 1590) }
    ensures { WroteOr (line_fault names.entry.file.now (names_in names.entry.file.now names.entry.starts.now names.entry.ends.now) (shown element.entry) (behind element.entry)) (line_row names.entry.file.now (names_in names.entry.file.now names.entry.starts.now names.entry.ends.now) (shown element.entry) (behind element.entry)) out.old result out.new }
{
    let entries = element.rest();
    let place = rows::text_from(entries);
    match compile_at(names, place) {
        Ok(code) => {
            let post = element.value(attributes::POSTTRIGGER);
            Ok(write_line(post, entries, code.as_slice(), out))
        }
        Err(unfit) => Err(Refusal {
            number: unfit.number(),
            place,
        }),
    }
}

// An element, if it is a STATEMENT.
fn write_statement(names: Spans, element: Entry<'_>, out: &mut [u32]) -> Result<usize, Refusal>
    requires { (length (line_row names.file.now (names_in names.file.now names.starts.now names.ends.now) (shown element) (behind element)) ≤ length out.old) × (length out.old ≤ 1590) }
    ensures { WroteOr (line_fault names.entry.file.now (names_in names.entry.file.now names.entry.starts.now names.entry.ends.now) (shown element.entry) (behind element.entry)) (line_row names.entry.file.now (names_in names.entry.file.now names.entry.starts.now names.entry.ends.now) (shown element.entry) (behind element.entry)) out.old result out.new }
{
    if !kinds::is_same(element.kind(), kinds::STATEMENT) {
        return Ok(0);
    }
    write_found(names, element, out)
}

// The statements, or the first whose expression is refused.
pub(crate) fn write_statements(
    names: Spans,
    words: &[u32],
    out: &mut [u32],
) -> Result<usize, Refusal>
    requires { (length (rows_of (line_row names.file.now (names_in names.file.now names.starts.now names.ends.now)) (entries_in words.now)) ≤ length out.old) × (length out.old ≤ 1590) }
    ensures { WroteOr (late_fault names.entry.file.now (names_in names.entry.file.now names.entry.starts.now names.entry.ends.now) (entries_in words.now)) (rows_of (line_row names.entry.file.now (names_in names.entry.file.now names.entry.starts.now names.entry.ends.now)) (entries_in words.now)) out.old result out.new }
{
    let mut n = 0;
    for element in (Entries { words }) {
        n += write_statement(names, element, &mut out[n..])?;
    }
    Ok(n)
}
