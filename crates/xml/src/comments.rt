// Comments, in the first pass.
//
// Promises: `comment` says where the comment ends, or how many bytes can stand, as the machine of crates/shape has it.
ghost use Rattle.std.specs.Prelude.{◌≡◌, ◌<◌, length, drop};
ghost use Rattle.text.specs.SpansCode.{span_at, is_plain};
ghost use Rattle.shape.specs.MachineCode.{idle, comment, bang, text};
ghost use Rattle.shape.specs.ReadsCode.{Reads};

use shape::{Step, Stop};
use text::runs;

// Where the plain bytes at `from` end. A dash is seen here: empty comments and runs of dashes then need no call.
fn plain_end(file: &[u8], from: usize) -> usize
    requires { from < length file.now }
    ensures { result ≡ span_at is_plain (drop from file.now) from }
{
    if file[from] == b'-' {
        return from;
    }
    runs::plain_end(file, from)
}

// Behind `<!--`: to behind `-->`.
fn comment_text(file: &[u8], from: usize) -> Step
    ensures { Reads (comment text) idle file.now from result }
{
    // No `for`: each turn goes to where a reader came to.
    let mut here = from;
    while here < file.len() {
        let end = plain_end(file, here);
        let next = crate::expect(file, end, b'-')?;
        if next < file.len() && file[next] == b'-' {
            return crate::expect(file, next + 1, b'>');
        }
        here = next;
    }
    Err(Stop(here))
}

// Behind `<!`: to behind `-->`.
pub(crate) fn comment(file: &[u8], from: usize) -> Step
    ensures { Reads (comment bang) idle file.now from result }
{
    let dash = crate::expect(file, from, b'-')?;
    let inner = crate::expect(file, dash, b'-')?;
    comment_text(file, inner)
}
