// Prints what the shape reader answers for the files of its standard input: `whole`, `too long`, or the place.
//
// Promises: nothing but that it ends and touches no byte out of range; what it prints is held to the stored output.
// A line that begins with '#' is copied to the output: it names the decision that the cases below it belong to. A case is a letter,
// ':' and a file: 'f' the file itself, 'm' with blanks behind it up to 32,768 bytes, 'o' up to 32,769, 'x' up to 32,768 with an x at
// their end, 'p' each text that the file starts with. \n, \r, \t, \\ and \xNN are bytes that a line cannot hold. '/' begins a comment.
#![tactic(auto)]

ghost use Rattle.std.specs.Prelude.{◌≡◌, ◌≤◌, length};

use shape::{Shape, Unshaped};
use std::io;

// As many bytes of input are read.
const ROOM: usize = 65536;

fn say(rt: &impl Print, text: &[u8]) -> io::Result<()> {
    rt.write_all(text)
}

// No Display: the words are this program's, and the type is std's Result.
fn say_shape(rt: &impl Print, shape: Shape) -> io::Result<()> {
    match shape {
        Ok(()) => say(rt, b"whole"),
        Err(Unshaped::TooLong) => say(rt, b"too long"),
        Err(Unshaped::Broken(p)) => rt.print(p as u64),
    }
}

fn show(rt: &impl Print, file: &[u8]) -> io::Result<()> {
    let shape = xml::read_shape(file);
    say_shape(rt, shape)?;
    say(rt, b"\n")
}

// Behind the n-th number: twenty to a line.
fn say_gap(rt: &impl Print, n: usize) -> io::Result<()> {
    if n % 20 == 0 {
        return say(rt, b"\n");
    }
    say(rt, b" ")
}

// Each text that the file starts with, and the file.
fn show_prefixes(rt: &impl Print, file: &[u8]) -> io::Result<()> {
    for end in 0..file.len() {
        say_shape(rt, xml::read_shape(&file[..end]))?;
        say_gap(rt, end + 1)?;
    }
    show(rt, file)
}

// How long the file of a case is whose text spells n bytes.
fn size_of(kind: u8, n: usize) -> usize
    requires { n ≤ 32769 }
    ensures { result ≤ 32769 }
{
    match kind {
        b'm' | b'x' => 32768,
        b'o' => 32769,
        _ => n,
    }
}

// A case; the buffer holds what stands behind its text.
fn show_case(rt: &impl Print, kind: u8, text: &[u8], file: &mut [u8]) -> io::Result<()>
    requires { 32769 ≡ length file.old }
{
    let n = reading::spell(text, file);
    if kind == b'p' {
        return show_prefixes(rt, &file[..n]);
    }
    let size = size_of(kind, n);
    show(rt, &file[..size])
}

fn show_line(rt: &impl Print, line: &[u8]) -> io::Result<()> {
    if line.len() < 2 {
        return Ok(());
    }
    let kind = line[0];
    if kind == b'/' {
        return Ok(());
    }
    if kind == b'#' {
        say(rt, line)?;
        return say(rt, b"\n");
    }
    let mut file = [b' '; 32769];
    file[32767] = if kind == b'x' { b'x' } else { b' ' };
    show_case(rt, kind, &line[2..], &mut file)
}

// The lines of the input, in order.
fn show_lines(rt: &impl Print, input: &[u8]) -> io::Result<()> {
    for line in input.split(|b| *b == b'\n') {
        show_line(rt, line)?;
    }
    Ok(())
}

fn main(rt: HostRuntime) -> io::Result<()> {
    let mut input = [0; ROOM];
    let n = reading::first_bytes(&mut rt.reader(), &mut input)?;
    show_lines(&rt, &input[..n])
}
