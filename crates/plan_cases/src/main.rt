// Runs `printing::print_answer` for `Form::Plan` on many files and prints what each gives.
//
// Promises: nothing but that it ends and touches no byte out of range; what it prints is held to the stored output.
// The input has for each case a line `N text`, right behind it the N bytes of a file, and a line end.
#![tactic(auto)]

ghost use Rattle.std.specs.Prelude.{◌+◌, ◌≤◌, min, ◌≡◌, length};

use printing::Form;
use std::io;

// Room for the input, in which two files have 32,768 bytes or more.
const ROOM: usize = 131072;

// The offset behind n bytes from i, or the end.
fn behind(s: &[u8], i: usize, n: usize) -> usize
    requires i_in_bounds { i ≤ length s.now }
    requires n_bound { n ≤ 131072 }
    ensures { result ≡ min (i + n) (length s.now) }
{
    i + n.min(s.len() - i)
}

fn show(rt: &impl Print, title: &[u8], file: &[u8], words: &mut [u32]) -> io::Result<()> {
    let mut text = [0; 4096];
    let n = printing::print_answer(Form::Plan, file, words, &mut text);
    rt.write_all(b"#")?;
    rt.write_all(title)?;
    rt.write_all(b"\n")?;
    rt.write_all(&text[..n])
}

fn cases(rt: &impl Print, input: &[u8], words: &mut [u32]) -> io::Result<()> {
    let mut i = 0;
    // No `for`: a line says how long the file behind it is.
    while i < input.len() {
        let e = i + reading::place_of(b'\n', &input[i..]);
        let t = i + reading::place_of(b' ', &input[i..e]);
        let n = reading::number(&input[i..t], ROOM as u32);
        let a = behind(input, e, 1);
        let b = behind(input, a, n);
        show(rt, &input[t..e], &input[a..b], words)?;
        i = behind(input, b, 1);
    }
    Ok(())
}

fn main(rt: HostRuntime) -> io::Result<()> {
    let mut input = [0; ROOM];
    let n = reading::first_bytes(&mut rt.reader(), &mut input)?;
    let mut words = [0; 1590];
    cases(&rt, &input[..n], &mut words)
}
