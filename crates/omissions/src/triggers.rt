// The triggers that no expression names, among the entries of a file: each expression's text is read for each trigger's name.
//
// Promises: `list` answers any file, entries and buffer, as specs/TriggersCode.antt gives it.
ghost use Rattle.std.specs.Prelude.{◌≡◌, eqb};
ghost use Rattle.std.specs.List.{list_any};
ghost use Rattle.lists.specs.Lists.{any};
ghost use Rattle.shape.specs.Text.{trimmed};
ghost use Rattle.element.specs.ElementCode.{short_text};
ghost use Rattle.document.specs.EntriesCode.{entries_in};
ghost use Rattle.tables.specs.RowsCode.{shown};
ghost use Rattle.omissions.specs.TriggersCode.{has_word, says_word, is_unnamed, unnamed_in};
ghost use Rattle.omissions.specs.ToldCode.{Told};

use element::fields;
use expression::tokens;
use grammar::Spans;
use schema::kinds;
use tables::cells::{Entries, Entry};
use walk::{texts, trims};

fn has_zero(tokens: &[u32]) -> bool
    ensures { result ≡ list_any (λ t. eqb t 0) tokens.now }
{
    tokens.iter().any(|token| *token == 0)
}

// Does a text have the word? With this one name the word is the token 0.
fn has_word(text: &[u8], word: &[u8]) -> bool
    ensures { result ≡ has_word word.now text.now }
{
    let names = Spans {
        file: word,
        starts: &[0],
        ends: &[word.len()],
    };
    match tokens::tokenise(text, names) {
        Some(tokens) => has_zero(tokens.as_slice()),
        None => false,
    }
}

// The same of a text, blanks at its ends aside.
fn has_inside(text: &[u8], word: &[u8]) -> bool
    ensures { result ≡ has_word word.now (trimmed text.now) }
{
    let part = trims::trim(text);
    let a = part.from;
    let e = part.to;
    has_word(&text[a..e], word)
}

// The same of the text of the element at a place.
fn has_text(file: &[u8], place: usize, word: &[u8]) -> bool
    ensures { result ≡ has_word word.now (short_text file.now place) }
{
    let mut text = [0; 32768];
    let n = texts::gather_text(file, place, &mut text);
    has_inside(&text[..n], word)
}

// Is an element an EXPRESSION with the word?
fn says(file: &[u8], element: Entry<'_>, word: &[u8]) -> bool
    ensures { result ≡ says_word file.now word.now (shown element.entry) }
{
    if !kinds::is_same(element.kind(), kinds::EXPRESSION) {
        return false;
    }
    has_text(file, element.place(), word)
}

// Is one of the elements an EXPRESSION with the word?
fn is_named(file: &[u8], words: &[u32], word: &[u8]) -> bool
    ensures { result ≡ any (says_word file.now word.now) (entries_in words.now) }
{
    Entries { words }.any(|element| says(file, element, word))
}

// Is an element a trigger that no expression names?
fn is_unnamed(file: &[u8], words: &[u32], element: Entry<'_>) -> bool
    ensures { result ≡ is_unnamed file.now (entries_in words.now) (shown element.entry) }
{
    if !kinds::is_in(kinds::TRIGGERS, element.kind()) {
        return false;
    }
    let name = fields::value_at(file, element.place(), b"name");
    !is_named(file, words, grammar::cut(file, name.from, name.to))
}

// The places of the triggers that no expression names, as many as there is room for, and how many there are.
pub(crate) fn list(file: &[u8], words: &[u32], places: &mut [usize]) -> usize
    ensures { Told (unnamed_in file.now (entries_in words.now)) places.old result places.new }
{
    let mut n = 0;
    for element in (Entries { words }) {
        if is_unnamed(file, words, element) {
            // n counts what was found, no turns
            crate::put(places, n, element.place());
            n += 1;
        }
    }
    n
}
