// What the programs `plan` and `convert` print, as bytes.
//
// Promises: `print_answer` answers every form, every file, every plan buffer and every text buffer; specs/Printing.antt says what stands in them then.
// May not touch: standard input and output. The programs read and write.
#![tactic(auto)]

ghost use Rattle.std.specs.Prelude.{◌≡◌, ◌++◌, get_or, take, Ok};
ghost use Rattle.text.specs.Texts.{bytes};
ghost use Rattle.printing.specs.Printing.{decimal, refusal_text, plan_text, word_lines, form_text, Prints};
ghost use Rattle.printing.specs.PrintingCode.{Put};

use itoa::Buffer;

// Whose text is wanted: that of the program `plan`, or that of the program `convert`. An enum and no closure: `print_answer`'s contract names the
// text of each (`form_text`).
#[derive(Clone, Copy)]
pub enum Form {
    Plan,
    Words,
}

// The word at i, 0 where there is none.
fn word(words: &[u32], i: usize) -> u64
    ensures { result ≡ get_or words.now i 0 }
{
    words.get(i).map_or(0, |x| u64::from(*x))
}

// Writes a text at the front of the buffer, as much of it as there is room for, and answers how many bytes that are. All below do so.
fn put(text: &[u8], out: &mut [u8]) -> usize
    ensures { Put text.now out.old result out.new }
{
    let n = text.len().min(out.len());
    out[..n].copy_from_slice(&text[..n]);
    n
}

fn put_line(name: &[u8], n: u64, out: &mut [u8]) -> usize
    ensures { Put (name.now ++ (decimal n ++ bytes "\n")) out.old result out.new }
{
    let mut digits = Buffer::new();
    let digits_at = put(name, out);
    let end = digits_at + put(digits.format(n).as_bytes(), &mut out[digits_at..]);
    end + put(b"\n", &mut out[end..])
}

fn put_refusal(n: u32, p: usize, out: &mut [u8]) -> usize
    ensures { Put (refusal_text n p) out.old result out.new }
{
    let place_at = put_line(b"refused=", u64::from(n), out);
    place_at + put_line(b"place=", p as u64, &mut out[place_at..])
}

fn put_summary(n: usize, words: &[u32], out: &mut [u8]) -> usize
    ensures { Put (plan_text (Ok n) words.now) out.old result out.new }
{
    let mut at = put_line(b"channels=", word(words, 1), out);
    at += put_line(b"log_all=", word(words, 2), &mut out[at..]);
    at += put_line(b"triggers=", word(words, 3), &mut out[at..]);
    at += put_line(b"filters=", word(words, 4), &mut out[at..]);
    at += put_line(b"statements=", word(words, 5), &mut out[at..]);
    at + put_line(b"words=", n as u64, &mut out[at..])
}

// The first n words, or all where there are fewer.
fn put_lines(n: usize, words: &[u32], out: &mut [u8]) -> usize
    ensures { Put (word_lines (take n words.now)) out.old result out.new }
{
    let mut at = 0;
    for w in &words[..n.min(words.len())] {
        at += put_line(b"", u64::from(*w), &mut out[at..]);
    }
    at
}

// Converts a file, and writes the text of that form. Answers how many bytes that are.
pub fn print_answer(form: Form, file: &[u8], words: &mut [u32], text: &mut [u8]) -> usize
    ensures { Prints (form_text form) file.now words.old text.old result words.new text.new }
{
    match converter::convert(file, words) {
        Ok(n) => match form {
            Form::Plan => put_summary(n, words, text),
            Form::Words => put_lines(n, words, text),
        },
        Err(refusal) => put_refusal(refusal.number, refusal.place, text),
    }
}
