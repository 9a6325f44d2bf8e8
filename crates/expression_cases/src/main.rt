// Runs `compile` on the texts of its standard input and prints what each gives: the words of its code, or the paper's refusal number.
//
// Promises: nothing but that it ends and touches no byte out of range; what it prints is held to the stored output.
// A line that begins with '#' is copied to the output. A case is a letter, ':' and a text; the letter says which names the triggers
// have: see the functions below. \n, \r, \t, \\ and \xNN are bytes that a line cannot hold.
#![tactic(auto)]

ghost use Rattle.std.specs.Prelude.{◌<◌};

use grammar::Spans;
use std::io;

// As many bytes of input are read.
const ROOM: usize = 65536;

fn say(rt: &impl Print, text: &[u8]) -> io::Result<()> {
    rt.write_all(text)
}

fn say_word(rt: &impl Print, w: u32) -> io::Result<()> {
    say(rt, b" ")?;
    rt.print(w as u64)
}

fn say_words(rt: &impl Print, words: &[u32]) -> io::Result<()> {
    for w in words {
        say_word(rt, *w)?;
    }
    Ok(())
}

// One text, with the names that stand in the file.
fn case(rt: &impl Print, text: &[u8], names: Spans) -> io::Result<()> {
    say(rt, b"[")?;
    say(rt, text)?;
    say(rt, b"]")?;
    match expression::compile(text, names) {
        Ok(code) => say_words(rt, code.as_slice())?,
        Err(unfit) => {
            say(rt, b" refused")?;
            say_word(rt, unfit.number())?;
        }
    }
    say(rt, b"\n")
}

fn names_of<'a>(file: &'a [u8], starts: &'a [usize], ends: &'a [usize]) -> Spans<'a> {
    Spans { file, starts, ends }
}

// a, b, c and a name of 32 letters.
fn named(rt: &impl Print, text: &[u8]) -> io::Result<()> {
    let file = b"a b c abcdefghijklmnopqrstuvwxyz_01234";
    let starts = [0usize, 2, 4, 6];
    let ends = [1usize, 3, 5, 38];
    case(rt, text, names_of(file, &starts, &ends))
}

// a twice, and a name that is an operator.
fn twice(rt: &impl Print, text: &[u8]) -> io::Result<()> {
    let file = b"a AND";
    let starts = [0usize, 0, 2];
    let ends = [1usize, 1, 5];
    case(rt, text, names_of(file, &starts, &ends))
}

// Names cut at the end of the file, ends before starts, more starts than ends.
fn cut(rt: &impl Print, text: &[u8]) -> io::Result<()> {
    let file = b"abc";
    let starts = [0usize, 1, 2, 9, 0];
    let ends = [1usize, 99, 1, 12];
    case(rt, text, names_of(file, &starts, &ends))
}

// 33 names: w is the last and the one at `from`, the others are v.
fn many(rt: &impl Print, text: &[u8], from: usize) -> io::Result<()>
    requires { from < 33 }
{
    let file = b"vw";
    let mut starts = [0usize; 33];
    let mut ends = [1usize; 33];
    starts[32] = 1;
    ends[32] = 2;
    starts[from] = 1;
    ends[from] = 2;
    case(rt, text, names_of(file, &starts, &ends))
}

fn show_case(rt: &impl Print, kind: u8, text: &[u8]) -> io::Result<()> {
    match kind {
        b'n' => named(rt, text),
        b't' => twice(rt, text),
        b'c' => cut(rt, text),
        b'v' => many(rt, text, 32),
        b'w' => many(rt, text, 31),
        _ => Ok(()),
    }
}

fn show_line(rt: &impl Print, line: &[u8]) -> io::Result<()> {
    if line.len() < 2 {
        return Ok(());
    }
    let kind = line[0];
    if kind == b'#' {
        say(rt, line)?;
        return say(rt, b"\n");
    }
    let mut text = [0; 256];
    let n = reading::spell(&line[2..], &mut text);
    show_case(rt, kind, &text[..n])
}

// The lines of the input, in order.
fn show_lines(rt: &impl Print, input: &[u8]) -> io::Result<()> {
    for line in input.split(|b| *b == b'\n') {
        show_line(rt, line)?;
    }
    Ok(())
}

fn main(rt: HostRuntime) -> io::Result<()> {
    let mut input = [0; ROOM];
    let n = reading::first_bytes(&mut rt.reader(), &mut input)?;
    show_lines(&rt, &input[..n])
}
