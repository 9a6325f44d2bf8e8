// The first pass over a file: is it of good shape (refusals 1 and 2)?
//
// tags: start and end tags. comments: comments. The root reads elements, and the whole file.
// Promises: `read_shape` answers every input: the file is too long, or it is well shaped as crates/shape/specs/Shape.antt says it,
// or how many of its bytes some well-shaped text starts with.
// May not touch: what an element means. It knows no element's name, and keeps nothing of what it reads.
// A file and a place go as two parameters and not as a cursor: each reader answers where it came to, and nothing is written through.
#![tactic(auto)]

ghost use Rattle.std.specs.Prelude.{◌≡◌, ◌<◌, length};
ghost use Rattle.shape.specs.MachineCode.{at, goes, start, decl, mark, mark_xm, before, after, idle};
ghost use Rattle.shape.specs.ReadsCode.{Expects, Reads, Marks, in_lt, in_text, ReadsElement, single, Outside, out_of};
ghost use Rattle.shape.specs.Shape.{Shaped};

pub mod comments;
pub mod tags;

use shape::{Mark, Outer, Shape, Step, Stop, Tag, Unshaped};
use text::{letters, runs};

// The most bytes that a file may have.
const LONGEST: usize = 32768;

// How many elements may nest in the root.
const NESTED: usize = 7;

// The byte b must stand here.
pub(crate) fn expect(file: &[u8], from: usize, b: u8) -> Step
    ensures { Expects b file.now from result }
{
    if from < file.len() && file[from] == b {
        return Ok(from + 1);
    }
    Err(Stop(from))
}

// Behind `<` in an element.
fn after_lt(file: &[u8], from: usize) -> Result<Mark, Stop>
    ensures { Marks in_lt file.now from result }
{
    if from < file.len() {
        let b = file[from];
        if b == b'!' {
            let end = comments::comment(file, from + 1)?;
            return Ok(Mark::Again(end));
        }
        if b == b'/' {
            return Ok(Mark::Close(from + 1));
        }
        if letters::is_start(b) {
            return Ok(Mark::Child(from));
        }
    }
    Err(Stop(from))
}

// In an element: text, and the markup behind it.
fn markup(file: &[u8], from: usize) -> Result<Mark, Stop>
    ensures { Marks in_text file.now from result }
{
    let end = runs::text_end(file, from);
    let next = expect(file, end, b'<')?;
    after_lt(file, next)
}

// At an element's name, behind `<`: to behind the element. Elements may nest `left` deeper.
fn element(file: &[u8], from: usize, left: usize) -> Step
    requires { from < length file.now }
    ensures { ReadsElement file.now from left result }
{
    let end = runs::name_end(file, from + 1);
    let mut here = match tags::tag_rest(file, end)? {
        Tag::Empty(past) => return Ok(past),
        Tag::Open(inner) => inner,
    };
    // No `for`: each turn goes to where a reader came to.
    while here < file.len() {
        match markup(file, here)? {
            Mark::Again(next) => here = next,
            Mark::Close(name) => return tags::end_tag(file, &file[from..end], name),
            Mark::Child(child) => {
                if left == 0 {
                    return Err(Stop(child));
                }
                here = element(file, child, left - 1)?;
            }
        }
    }
    Err(Stop(here))
}

// Behind `<?`: to behind `?>`.
fn declaration(file: &[u8], from: usize) -> Step
    ensures { Reads (single (decl mark)) (single (idle before)) file.now from result }
{
    let second = expect(file, from, b'x')?;
    let third = expect(file, second, b'm')?;
    declared_text(file, third)
}

// Behind `<?xm`: to behind `?>`.
fn declared_text(file: &[u8], from: usize) -> Step
    ensures { Reads (single (decl mark_xm)) (single (idle before)) file.now from result }
{
    let inner = expect(file, from, b'l')?;
    let end = runs::decl_end(file, inner);
    let last = expect(file, end, b'?')?;
    expect(file, last, b'>')
}

// From the very start: to behind the declaration, if there is one.
fn prolog(file: &[u8]) -> Step
    ensures { at start file.now 0 ≡ goes (idle before) file.now result }
{
    if 1 < file.len() && file[0] == b'<' && file[1] == b'?' {
        return declaration(file, 2);
    }
    Ok(0)
}

// Before or behind the root: past blanks and comments.
fn misc(file: &[u8], from: usize) -> Result<Outer, Stop>
    ensures { Outside file.now from result }
{
    // No `for`: each turn goes to where a reader came to.
    let mut here = from;
    while here < file.len() {
        let next = runs::blanks_end(file, here);
        if file.len() <= next {
            return Ok(Outer::End(next));
        }
        if file[next] != b'<' {
            return Err(Stop(next));
        }
        let mark = next + 1;
        if file.len() <= mark || file[mark] != b'!' {
            return Ok(Outer::Lt(mark));
        }
        here = comments::comment(file, next + 2)?;
    }
    Ok(Outer::End(here))
}

// Before the root: to behind it.
fn root(file: &[u8], from: usize) -> Step
    ensures { at (idle before) file.now from ≡ goes (idle after) file.now result }
{
    let name = match misc(file, from)? {
        Outer::End(p) => return Err(Stop(p)),
        Outer::Lt(name) => name,
    };
    if name < file.len() && letters::is_start(file[name]) {
        return element(file, name, NESTED);
    }
    Err(Stop(name))
}

// Behind the root: to the end.
fn rest(file: &[u8], from: usize) -> Result<(), Stop>
    ensures { at (idle after) file.now from ≡ out_of result }
{
    match misc(file, from)? {
        Outer::End(_) => Ok(()),
        Outer::Lt(p) => Err(Stop(p)),
    }
}

// The shape of a whole file.
pub fn read_shape(file: &[u8]) -> Shape
    ensures { Shaped file.now result }
{
    if LONGEST < file.len() {
        return Err(Unshaped::TooLong);
    }
    let body = prolog(file)?;
    let past = root(file, body)?;
    rest(file, past)?;
    Ok(())
}
