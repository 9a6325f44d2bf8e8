// Prints what the file on standard input says and its plan does not: `skipped=NAME` for each element that is skipped, `unnamed=NAME` for each
// trigger that no expression names, each with `place=OFFSET` behind it, and `silent=1` where nothing can ever be recorded.
//
// Promises: which these are is what `omissions` promises; that they are printed so is held to the stored output. A file longer than the buffer
// is cut there; it is still too long, and a refused file has no notices.
#![tactic(auto)]

use element::fields;
use std::io;
use walk::{Part, tags};

// As many bytes are looked at.
const ROOM: usize = 65536;

// An element has four bytes at least, so that no file that is accepted skips more.
const MOST: usize = 8192;

// No more triggers are accepted.
const TRIGGERS: usize = 32;

fn say(rt: &impl Print, text: &[u8]) -> io::Result<()> {
    rt.write_all(text)
}

// A name in the file, and the place of its element. The name lies in the file, which is looked at once more for the sake of safety.
fn tell(rt: &impl Print, what: &[u8], file: &[u8], name: Part, place: usize) -> io::Result<()> {
    let Some(name) = file.get(name.from..name.to) else {
        return Ok(());
    };
    say(rt, what)?;
    say(rt, name)?;
    say(rt, b"\nplace=")?;
    rt.print(place as u64)?;
    say(rt, b"\n")
}

fn tell_skipped(rt: &impl Print, file: &[u8]) -> io::Result<()> {
    let mut places = [0; MOST];
    let n = omissions::skipped(file, &mut places);
    for place in &places[..n.min(MOST)] {
        let name = tags::name_of(file, *place);
        tell(rt, b"skipped=", file, name, *place)?;
    }
    Ok(())
}

fn tell_unnamed(rt: &impl Print, file: &[u8]) -> io::Result<()> {
    let mut places = [0; TRIGGERS];
    let n = omissions::unnamed(file, &mut places);
    for place in &places[..n.min(TRIGGERS)] {
        let name = fields::value_at(file, *place, b"name");
        tell(rt, b"unnamed=", file, name, *place)?;
    }
    Ok(())
}

fn main(rt: HostRuntime) -> io::Result<()> {
    let mut space = [0; ROOM];
    let n = reading::first_bytes(&mut rt.reader(), &mut space)?;
    let file = &space[..n];
    tell_skipped(&rt, file)?;
    tell_unnamed(&rt, file)?;
    if omissions::is_silent(file) {
        say(&rt, b"silent=1\n")?;
    }
    Ok(())
}
