// Start tags and end tags, in the first pass.
//
// Promises: `tag_rest` and `end_tag` say where the tag ends, and as what, or how many bytes can stand, as the machine of crates/shape has it.
ghost use Rattle.shape.specs.MachineCode.{attr, equal, valued};
ghost use Rattle.shape.specs.ReadsCode.{Reads, tagged, ReadsAttributes, TagEnd, TagRest, SameName, closing_tag, behind};

use shape::{Step, Stop, Tag};
use text::{letters, runs};

// In an attribute's name: to behind its `=`.
fn equals(file: &[u8], from: usize) -> Step
    ensures { Reads (tagged attr) (tagged equal) file.now from result }
{
    let end = runs::name_end(file, from);
    let sign = runs::blanks_end(file, end);
    crate::expect(file, sign, b'=')
}

// Behind `=`: to behind the quoted value.
fn quoted(file: &[u8], from: usize) -> Step
    ensures { Reads (tagged equal) (tagged valued) file.now from result }
{
    let quote = runs::blanks_end(file, from);
    let value = crate::expect(file, quote, b'"')?;
    let end = runs::value_end(file, value);
    crate::expect(file, end, b'"')
}

// In an attribute's name: to behind its value.
fn attribute(file: &[u8], from: usize) -> Step
    ensures { Reads (tagged attr) (tagged valued) file.now from result }
{
    let next = equals(file, from)?;
    quoted(file, next)
}

// Behind a tag's name or an attribute: past all attributes and blanks that follow.
fn attributes(file: &[u8], from: usize) -> Step
    ensures { ReadsAttributes file.now from result }
{
    // No `for`: each turn goes to where a reader came to.
    let mut here = from;
    while here < file.len() {
        let next = runs::blanks_end(file, here);
        if next == here || file.len() <= next || !letters::is_start(file[next]) {
            return Ok(next);
        }
        here = attribute(file, next + 1)?;
    }
    Ok(here)
}

// At the end of a start tag, where no blank stands.
fn tag_end(file: &[u8], from: usize) -> Result<Tag, Stop>
    ensures { TagEnd file.now from result }
{
    if from < file.len() {
        let b = file[from];
        if b == b'/' {
            let end = crate::expect(file, from + 1, b'>')?;
            return Ok(Tag::Empty(end));
        }
        if b == b'>' {
            return Ok(Tag::Open(from + 1));
        }
    }
    Err(Stop(from))
}

// Behind a tag's name: to behind its `>`.
pub(crate) fn tag_rest(file: &[u8], from: usize) -> Result<Tag, Stop>
    ensures { TagRest file.now from result }
{
    let end = attributes(file, from)?;
    tag_end(file, end)
}

// The name must stand here again.
fn same_name(file: &[u8], name: &[u8], from: usize) -> Step
    ensures { SameName name.now file.now from result }
{
    let mut here = from;
    for letter in name {
        here = crate::expect(file, here, *letter)?;
    }
    Ok(here)
}

// Behind `</`: the name, blanks and `>`.
pub(crate) fn end_tag(file: &[u8], name: &[u8], from: usize) -> Step
    ensures { Reads (closing_tag name.now) behind file.now from result }
{
    let next = same_name(file, name, from)?;
    let last = runs::blanks_end(file, next);
    crate::expect(file, last, b'>')
}
