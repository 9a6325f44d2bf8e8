// Prints what the plan of the file on standard input says, or its refusal.
//
// Promises: the bytes are those of `printing::print_answer` for `Form::Plan`. A file longer than the buffer is cut there; it is still too long, and
// refused for that. `convert` is its twin but for the form: a program each, and what both do is `reading` and `printing`.
#![tactic(auto)]

use printing::Form;
use std::io;

// As many bytes are looked at.
const ROOM: usize = 65536;

fn main(rt: HostRuntime) -> io::Result<()> {
    let mut file = [0; ROOM];
    let n = reading::first_bytes(&mut rt.reader(), &mut file)?;
    let mut words = [0; 1590];
    let mut text = [0; 4096];
    let m = printing::print_answer(Form::Plan, &file[..n], &mut words, &mut text);
    rt.write_all(&text[..m])
}
