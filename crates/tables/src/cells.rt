// The entries of a file, one behind the other, and the words of one.
//
// Promises: each answers every words, as crates/document/specs/EntriesCode.antt reads the entries there.
ghost use Rattle.std.specs.Prelude.{◌≤◌, ◌+◌, ◌*◌, ◌≡◌, get_or, cond, Some, None};
ghost use Rattle.std.specs.Iterator.{item_count};
ghost use Rattle.lists.specs.BitsCode.{has_bit};
ghost use Rattle.document.specs.EntriesCode.{row_width, row_size, entries_in};
ghost use Rattle.tables.specs.RowsCode.{shown, left, words_behind, Takes};

use document::ROW;
use lists::bits;
use schema::attributes;

// An entry: the words from it on.
#[derive(Clone, Copy)]
pub struct Entry<'a> {
    pub words: &'a [u32],
}

// The entries that stand in words.
#[derive(Clone, Copy)]
pub struct Entries<'a> {
    pub words: &'a [u32],
}

// How many words an entry of the kind has.
fn size_of(kind: usize) -> usize
    ensures { (result ≡ row_size kind + 3) × (result ≤ row_width + 3) }
{
    if attributes::is_ruled(kind) {
        ROW + 3
    } else {
        3
    }
}

// A set in two words.
fn set_from(low: u32, high: u32) -> u64
    ensures { result ≡ low + high * 4294967296 }
{
    (low as u64) + (high as u64) * 4294967296
}

impl<'a> Entry<'a> {
    pub fn kind(self) -> usize
        ensures { result ≡ (shown self.entry).kind }
    {
        records::word(self.words, 0) as usize
    }

    pub fn place(self) -> usize
        ensures { result ≡ (shown self.entry).place }
    {
        records::word(self.words, 1) as usize
    }

    // The number that its text gives.
    pub fn number(self) -> u32
        ensures { result ≡ (shown self.entry).number }
    {
        records::word(self.words, 2)
    }

    // The word j of its row, or 0.
    fn row_word(self, j: usize) -> u32
        ensures { result ≡ get_or (shown self.entry).row j 0 }
    {
        let kind = self.kind();
        if ROW <= j {
            return 0;
        }
        if attributes::is_ruled(kind) {
            records::word(self.words, j + 3)
        } else {
            0
        }
    }

    // The number of one of its attributes, 0 where it has none; `given` tells the two apart.
    pub fn value(self, attribute: usize) -> u32
        ensures { result ≡ get_or (shown self.entry).row (attribute + 2) 0 }
    {
        if attribute < attributes::ATTRIBUTES {
            self.row_word(attribute + 2)
        } else {
            0
        }
    }

    // The same, if it has the attribute.
    pub fn given(self, attribute: usize) -> Option<u32>
        ensures { result ≡ cond (has_bit (get_or (shown self.entry).row 0 0 + get_or (shown self.entry).row 1 0 * 4294967296) attribute) (Some (get_or (shown self.entry).row (attribute + 2) 0)) None }
    {
        let low = self.row_word(0);
        let high = self.row_word(1);
        if bits::has_bit(set_from(low, high), attribute) {
            Some(self.value(attribute))
        } else {
            None
        }
    }

    // Those behind it.
    pub fn rest(self) -> Entries<'a>
        ensures { result.words.now ≡ words_behind self.entry }
    {
        let kind = self.kind();
        let size = size_of(kind);
        if size < self.words.len() {
            Entries {
                words: &self.words[size..],
            }
        } else {
            Entries { words: &[] }
        }
    }
}

impl<'a> Iterator for Entries<'a> {
    type Item = Entry<'a>;

    ghost next_gives = { Takes };

    ghost remaining = { item_count left };

    fn next(&mut self) -> Option<Entry<'a>> {
        let words = self.words;
        if words.is_empty() {
            return None;
        }
        let entry = Entry { words };
        *self = entry.rest();
        Some(entry)
    }
}
