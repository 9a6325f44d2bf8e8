// The tokens of an expression's text, as numbers: 0 to 31 is a trigger, 37 a word that names no trigger, and those between have names below.
// They are numbers and no enum: a plan's words of code are the same numbers, so code is written as it is read. Brackets and 37 are no words of code, and
// numbers like the others, so that tokens are one list of words.
//
// Promises: `tokenise` answers every input, by value and to the last word: the tokens are those of crates/grammar/specs/Lex.antt. It knows no grammar.
ghost use Rattle.std.specs.Prelude.{◌≡◌, ◌<◌, length, take, drop, zip};
ghost use Rattle.std.specs.List.{position_from};
ghost use Rattle.text.specs.Texts.{same};
ghost use Rattle.grammar.specs.Lex.{token_of};
ghost use Rattle.grammar.specs.TokensCode.{names_in, find, number_of, LexemeAt, lexed};

use grammar::{Lexeme, MOST, Spans, Words};
use text::{letters, runs, texts};

// The most triggers.
const TRIGGERS: usize = 32;

pub(crate) const AND: u32 = 32;

pub(crate) const OR: u32 = 33;

pub(crate) const NOT: u32 = 34;

pub(crate) const OPEN: u32 = 35;

pub(crate) const CLOSE: u32 = 36;

pub(crate) const UNKNOWN: u32 = 37;

// Which of the names between starts and ends a word is first.
fn first_between(word: &[u8], file: &[u8], starts: &[usize], ends: &[usize]) -> Option<usize>
    ensures { result ≡ position_from (λ p. same word.now (drop p.0 (take p.1 file.now))) 0 (zip starts.now ends.now) }
{
    let mut spans = starts.iter().zip(ends);
    spans.position(|(start, end)| texts::same_text(word, grammar::cut(file, *start, *end)))
}

// Which of the names a word is first. Starts and ends are cut to one length, so that the loop, in which large files spend much of their time, has one
// end to test and no three.
fn first_named(word: &[u8], names: Spans) -> Option<usize>
    ensures { result ≡ position_from (λ p. same word.now (drop p.0 (take p.1 names.entry.file.now))) 0 (take 32 (zip names.entry.starts.now names.entry.ends.now)) }
{
    let n = TRIGGERS.min(names.starts.len()).min(names.ends.len());
    first_between(word, names.file, &names.starts[..n], &names.ends[..n])
}

// The number of the first trigger that a word names, or 37.
fn find_name(word: &[u8], names: Spans) -> u32
    ensures { result ≡ find (names_in names.entry.file.now names.entry.starts.now names.entry.ends.now) word.now 0 }
{
    match first_named(word, names) {
        Some(n) => n as u32,
        None => UNKNOWN,
    }
}

// The number of a word.
fn word_number(w: &[u8], names: Spans) -> u32
    ensures { result ≡ number_of (names_in names.entry.file.now names.entry.starts.now names.entry.ends.now) (token_of w.now) }
{
    if texts::same_text(w, b"AND") {
        return AND;
    }
    if texts::same_text(w, b"OR") {
        return OR;
    }
    if texts::same_text(w, b"NOT") {
        return NOT;
    }
    find_name(w, names)
}

fn next_token(text: &[u8], at: usize, names: Spans) -> Option<Lexeme>
    requires { at < length text.now }
    ensures { LexemeAt (names_in names.entry.file.now names.entry.starts.now names.entry.ends.now) text.now at result }
{
    match text[at] {
        b if letters::is_name(b) => {
            let end = runs::name_end(text, at);
            let token = Some(word_number(&text[at..end], names));
            Some(Lexeme { token, end })
        }
        b if letters::is_blank(b) => Some(Lexeme {
            token: None,
            end: at + 1,
        }),
        b'(' => Some(Lexeme {
            token: Some(OPEN),
            end: at + 1,
        }),
        b')' => Some(Lexeme {
            token: Some(CLOSE),
            end: at + 1,
        }),
        _ => None,
    }
}

// The numbers of a text's tokens, where the triggers' names stand in a file. Each turn goes on by a token, so no iterator of the bytes serves.
pub fn tokenise(text: &[u8], names: Spans) -> Option<Words>
    ensures { result ≡ lexed (names_in names.entry.file.now names.entry.starts.now names.entry.ends.now) text.now }
{
    let mut out = Words::new();
    let mut at = 0;
    while at < text.len() {
        let lexeme = next_token(text, at, names)?;
        at = lexeme.end;
        if let Some(token) = lexeme.token {
            if out.count == MOST {
                return None;
            }
            out.push(token);
        }
    }
    Some(out)
}
