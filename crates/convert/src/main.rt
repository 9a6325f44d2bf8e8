// Prints the words of the plan of the file on standard input, one to a line, or its refusal.
//
// Promises: the bytes are those of `printing::print_answer` for `Form::Words`. A file longer than the buffer is cut there; it is still too long, and
// refused for that. `plan` is its twin but for the form: a program each, and what both do is `reading` and `printing`.
#![tactic(auto)]

use printing::Form;
use std::io;

// As many bytes are looked at.
const ROOM: usize = 65536;

// The text has room for 1,590 lines of 11 bytes.
fn main(rt: HostRuntime) -> io::Result<()> {
    let mut file = [0; ROOM];
    let n = reading::first_bytes(&mut rt.reader(), &mut file)?;
    let mut words = [0; 1590];
    let mut text = [0; 65536];
    let m = printing::print_answer(Form::Words, &file[..n], &mut words, &mut text);
    rt.write_all(&text[..m])
}
