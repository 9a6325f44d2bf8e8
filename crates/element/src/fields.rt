// What an element's text says, and one value by its attribute's name.
//
// Promises: each answer is the function of the bytes that specs/ElementCode.antt gives, for every input, whether the element has faults or not.
ghost use Rattle.std.specs.Prelude.{◌≡◌};
ghost use Rattle.shape.specs.Text.{trimmed};
ghost use Rattle.element.specs.ElementCode.{worth_said, channel_said, version_said, said, short_in, value_at};
ghost use Rattle.std.specs.Fn.{FnOnceReturnsAt};

use schema::kinds;
use values::{Sort, Unfit, sorts};
use walk::{Body, Part, TagPart, pieces, tags, texts, trims};

const LAST_CHANNEL: u32 = 4;

// What a value says as a text: none where it is misspelt.
fn said_of(w: Result<u32, Unfit>) -> Option<u32>
    ensures { result ≡ worth_said w }
{
    match w {
        Ok(v) => Some(v),
        Err(Unfit::BadValue) => None,
        Err(Unfit::NotCarried) => Some(0),
    }
}

fn channel_said(text: &[u8]) -> Option<u32>
    ensures { result ≡ channel_said text.now }
{
    let sort = Sort::Numeric {
        lo: 0,
        hi: LAST_CHANNEL,
        most: LAST_CHANNEL,
    };
    said_of(sorts::worth_of(sort, text))
}

// Only the version that is carried is none that is misspelt.
fn version_said(text: &[u8]) -> Option<u32>
    ensures { result ≡ version_said text.now }
{
    text::texts::same_text(text, b"2.0").then_some(0)
}

// A text, blanks at its ends aside.
fn core_of(text: &[u8]) -> &[u8]
    ensures { result.now ≡ trimmed text.now }
{
    let Part { from, to } = trims::trim(text);
    &text[from..to]
}

// What the text of an element says, its pieces joined in a buffer (fixed memory: no String). Never inlined: in a function that calls itself for the
// elements in an element the buffer would take its room at every level.
#[inline(never)]
fn joined_as<F: FnOnce(&[u8]) -> Option<u32>>(read: F, file: &[u8], body: Body) -> Option<u32>
    requires { F.IsAlwaysCallable read }
    ensures { FnOnceReturnsAt F.FnOnce read (short_in file.now body) result }
{
    let mut joined = [0; 32768];
    let o = texts::inner_start(file, body);
    let n = texts::gather_from(file, o, &mut joined);
    read(core_of(&joined[..n]))
}

// Nearly every text is one piece, and is read where it stands.
fn text_as<F: FnOnce(&[u8]) -> Option<u32>>(read: F, file: &[u8], body: Body) -> Option<u32>
    requires { F.IsAlwaysCallable read }
    ensures { FnOnceReturnsAt F.FnOnce read (short_in file.now body) result }
{
    match pieces::text_in(file, body) {
        Some(Part { from, to }) => read(core_of(&file[from..to])),
        None => joined_as(read, file, body),
    }
}

// What the text of an element of the kind says: none where it is read for a value and misspelt, else its number, 0 if it is read for none.
pub fn read_text(file: &[u8], kind: usize, body: Body) -> Option<u32>
    ensures { result ≡ said kind (short_in file.now body) }
{
    match kind {
        kinds::VERSION => text_as(version_said, file, body),
        kinds::CHANNEL => text_as(channel_said, file, body),
        _ => Some(0),
    }
}

// The value of the attribute of that name of the element at i; nothing at 0 if it has none. An Option is no plainer: callers ask where the
// attribute is required, of files without faults, and would take the same part out of it.
pub fn value_at(file: &[u8], i: usize, name: &[u8]) -> Part
    ensures { result ≡ value_at name.now file.now i }
{
    let mut j = tags::name_of(file, i).to;
    // No iterator over attributes: it would serve this loop alone, since the others answer the part that ends them.
    while j < file.len() {
        let TagPart::Attribute(a, e, c, k) = tags::part_at(file, j) else {
            break;
        };
        if text::texts::same_text(&file[a..e], name) {
            return Part { from: c, to: k };
        }
        j = k + 1;
    }
    Part { from: 0, to: 0 }
}
