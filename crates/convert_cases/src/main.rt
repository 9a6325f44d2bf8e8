// Runs `convert` on edits of one file and prints what each gives.
//
// Promises: nothing but that it ends and touches no byte out of range; what it prints is held to the stored output.
// The input is the base file, a line `==`, and a line for each case:
//   # text   printed as it is
//   @N       from here on the plan buffer has N words, at most 1600; it begins with 1600
//   ?        the base file itself; prints all words of its plan
//   =FILE    the rest of the line is a whole file
//   !        every prefix of the base file
//   OLD|NEW or OLD|NEW|OLD2|NEW2
//            the base file with the first OLD replaced by NEW, then in the result the first OLD2 by NEW2
#![tactic(auto)]

ghost use Rattle.std.specs.Prelude.{◌+◌, ◌≤◌, min, ◌≡◌, length, IfOk};

use file_rules::Refusal;
use std::io;

// As many bytes of input are read, and as many has a file.
const LARGEST: usize = 65536;

const ROOM: usize = 1600;

// Stands in every word of the buffer before a call.
const UNTOUCHED: u32 = 7;

// How an answer is told: in short, with the words that differ from the base's, or with all words. It is data of a case and no step to be run.
#[derive(Clone, Copy, PartialEq, Eq)]
enum How {
    Short,
    Changes,
    All,
}

// The base file, and the words of its plan.
#[derive(Clone, Copy)]
struct Base<'a> {
    file: &'a [u8],
    words: &'a [u32],
}

fn say(rt: &impl Print, text: &[u8]) -> io::Result<()> {
    rt.write_all(text)
}

fn say_number(rt: &impl Print, before: &[u8], n: usize) -> io::Result<()> {
    say(rt, before)?;
    rt.print(n as u64)
}

// Where a text first stands. Where it does not, a case tests nothing: it says so and answers the end.
fn find_text(rt: &impl Print, s: &[u8], text: &[u8]) -> io::Result<usize>
    ensures { IfOk result (λ i. i ≤ length s.now) }
{
    for i in 0..s.len() {
        if s[i..].starts_with(text) {
            return Ok(i);
        }
    }
    say(rt, b"(not there) ")?;
    Ok(s.len())
}

// The offset behind the byte at i.
fn behind(s: &[u8], i: usize) -> usize
    ensures { result ≡ min (i + 1) (length s.now) }
{
    if i < s.len() { i + 1 } else { s.len() }
}

// Puts a text at the front of what is lent and answers how long it is. What the input holds fits, so nothing is cut.
fn put(text: &[u8], out: &mut [u8]) -> usize
    ensures { result ≤ length out.new }
{
    let n = text.len().min(out.len());
    out[..n].copy_from_slice(&text[..n]);
    n
}

// Writes the file with what stands from p to q replaced.
fn splice(file: &[u8], p: usize, q: usize, new: &[u8], out: &mut [u8]) -> usize
    requires { (p ≤ length file.now) × (q ≤ length file.now) }
    ensures { result ≤ length out.new }
{
    let mut at = put(&file[..p], out);
    at += put(new, &mut out[at..]);
    at + put(&file[q..], &mut out[at..])
}

// Writes the file with the OLD of a pair replaced.
fn edit(rt: &impl Print, file: &[u8], pair: &[u8], out: &mut [u8]) -> io::Result<usize>
    ensures { IfOk result (λ n. n ≤ length out.new) }
{
    let a = reading::place_of(b'|', pair);
    let b = behind(pair, a);
    let p = find_text(rt, file, &pair[..a])?;
    let q = p + a.min(file.len() - p);
    Ok(splice(file, p, q, &pair[b..], out))
}

// A missing second pair replaces nothing by nothing.
fn edit_twice(rt: &impl Print, file: &[u8], line: &[u8], out: &mut [u8]) -> io::Result<usize>
    ensures { IfOk result (λ n. n ≤ length out.new) }
{
    let a = reading::place_of(b'|', line);
    let b = behind(line, a);
    let c = b + reading::place_of(b'|', &line[b..]);
    let d = behind(line, c);
    let mut first = [0; LARGEST];
    let m = edit(rt, file, &line[..c], &mut first)?;
    edit(rt, &first[..m], &line[d..], out)
}

fn say_case(rt: &impl Print, line: &[u8]) -> io::Result<()> {
    let n = line.len().min(100);
    say(rt, &line[..n])?;
    if n < line.len() {
        say(rt, b"..")?;
    }
    say(rt, b" -> ")
}

// The start of what stands at a refusal's place, to the end of its line.
fn say_place(rt: &impl Print, file: &[u8], p: usize) -> io::Result<()> {
    if file.len() <= p {
        return Ok(());
    }
    let e = p + (file.len() - p).min(24);
    let end = p + reading::place_of(b'\n', &file[p..e]);
    say(rt, b" ")?;
    say(rt, &file[p..end])
}

fn say_refused(rt: &impl Print, file: &[u8], k: u32, p: usize, how: How) -> io::Result<()> {
    say_number(rt, b"refused ", k as usize)?;
    say_number(rt, b" at ", p)?;
    if (how != How::Short) & (k != 13) {
        say_place(rt, file, p)?;
    }
    Ok(())
}

fn say_word(rt: &impl Print, i: usize, new: u32, old: u32, how: How) -> io::Result<()> {
    if how == How::All {
        return say_number(rt, b" ", new as usize);
    }
    if (how == How::Changes) & (new != old) {
        say_number(rt, b" [", i)?;
        say_number(rt, b"]=", new as usize)?;
    }
    Ok(())
}

// Nothing of a plan of another length than the base's.
fn say_words(rt: &impl Print, new: &[u32], old: &[u32], how: How) -> io::Result<()> {
    if new.len() != old.len() {
        return Ok(());
    }
    for (i, (new, old)) in new.iter().zip(old).enumerate() {
        say_word(rt, i, *new, *old, how)?;
    }
    Ok(())
}

// Was a word written that had to be left alone?
fn spoilt(words: &[u32]) -> bool {
    words.iter().any(|w| *w != UNTOUCHED)
}

// Ends a line; `rest` are the words behind those answered.
fn say_end(rt: &impl Print, rest: &[u32]) -> io::Result<()> {
    if spoilt(rest) {
        say(rt, b" SPOILT")?;
    }
    say(rt, b"\n")
}

// The answer of n words, and the buffer that it came in.
fn say_plan(rt: &impl Print, n: usize, plan: &[u32], words: &[u32], how: How) -> io::Result<()> {
    let m = n.min(plan.len());
    say_number(rt, b"", n)?;
    say(rt, b" words")?;
    say_words(rt, &plan[..m], words, how)?;
    say_end(rt, &plan[m..])
}

fn convert_anew(file: &[u8], plan: &mut [u32]) -> Result<usize, Refusal> {
    plan.fill(UNTOUCHED);
    converter::convert(file, plan)
}

// One file; `words` are the base's.
fn show(rt: &impl Print, file: &[u8], words: &[u32], plan: &mut [u32], how: How) -> io::Result<()> {
    match convert_anew(file, plan) {
        Ok(n) => say_plan(rt, n, plan, words, how),
        Err(refusal) => {
            say_refused(rt, file, refusal.number, refusal.place, how)?;
            say_end(rt, plan)
        }
    }
}

// A run of prefixes: of `from` bytes and more, and of less than `to`.
fn say_run(rt: &impl Print, from: usize, to: usize) -> io::Result<()> {
    if from < to {
        say_number(rt, b"prefixes ", from)?;
        say_number(rt, b" to ", to - 1)?;
        say(rt, b": refused 2 at their end\n")?;
    }
    Ok(())
}

fn ends_early(file: &[u8], plan: &mut [u32]) -> bool {
    match convert_anew(file, plan) {
        Ok(_) => false,
        Err(refusal) => (refusal.number == 2) & (refusal.place == file.len()) & !spoilt(plan),
    }
}

// One prefix; `from` is the length at which the run before it began. Answers that of the run behind it.
fn prefix(
    rt: &impl Print,
    file: &[u8],
    words: &[u32],
    plan: &mut [u32],
    from: usize,
) -> io::Result<usize> {
    let n = file.len();
    if ends_early(file, plan) {
        return Ok(from);
    }
    say_run(rt, from, n)?;
    say_number(rt, b"prefix ", n)?;
    say(rt, b": ")?;
    show(rt, file, words, plan, How::Short)?;
    Ok(n + 1)
}

fn prefixes(rt: &impl Print, base: Base<'_>, plan: &mut [u32]) -> io::Result<()> {
    let mut from = 0;
    for n in 0..=base.file.len() {
        from = prefix(rt, &base.file[..n], base.words, plan, from)?;
    }
    say_run(rt, from, base.file.len() + 1)
}

fn show_edit(rt: &impl Print, line: &[u8], base: Base<'_>, plan: &mut [u32]) -> io::Result<()> {
    let mut file = [0; LARGEST];
    let n = edit_twice(rt, base.file, line, &mut file)?;
    show(rt, &file[..n], base.words, plan, How::Changes)
}

fn show_case(rt: &impl Print, line: &[u8], base: Base<'_>, plan: &mut [u32]) -> io::Result<()>
    requires { 1 ≤ length line.now }
{
    say_case(rt, line)?;
    let mark = line[0];
    if mark == b'?' {
        show(rt, base.file, base.words, plan, How::All)
    } else if mark == b'=' {
        show(rt, &line[1..], base.words, plan, How::Changes)
    } else {
        show_edit(rt, line, base, plan)
    }
}

// One line. Answers the room from here on.
fn case(rt: &impl Print, line: &[u8], base: Base<'_>, plan: &mut [u32]) -> io::Result<usize> {
    let room = plan.len();
    if line.len() == 0 {
        return Ok(room);
    }
    let mark = line[0];
    if mark == b'@' {
        return Ok(reading::number(&line[1..], ROOM as u32));
    }
    if mark == b'#' {
        say(rt, line)?;
        say(rt, b"\n")?;
    } else if mark == b'!' {
        prefixes(rt, base, plan)?;
    } else {
        show_case(rt, line, base, plan)?;
    }
    Ok(room)
}

fn cases(rt: &impl Print, lines: &[u8], base: Base<'_>, plan: &mut [u32]) -> io::Result<()> {
    let mut room = plan.len();
    let mut i = 0;
    // No `for` over `split`: the check refuses that loop's own module beside the lent buffers (tried in engine_cases).
    while i < lines.len() {
        let e = i + reading::place_of(b'\n', &lines[i..]);
        let r = room.min(plan.len());
        room = case(rt, &lines[i..e], base, &mut plan[..r])?;
        i = behind(lines, e);
    }
    Ok(())
}

// How many words the base gives: none where it is refused.
fn count_words(file: &[u8], plan: &mut [u32]) -> usize
    ensures { result ≤ length plan.old }
{
    match convert_anew(file, plan) {
        Ok(n) => n.min(plan.len()),
        Err(_) => 0,
    }
}

fn run(rt: &impl Print, input: &[u8], own: &mut [u32], plan: &mut [u32]) -> io::Result<()> {
    let p = find_text(rt, input, b"\n==\n")?;
    if input.len() - p < 4 {
        return Ok(());
    }
    let b = p + 1;
    let c = p + 4;
    let n = count_words(&input[..b], own);
    let base = Base {
        file: &input[..b],
        words: &own[..n],
    };
    cases(rt, &input[c..], base, plan)
}

fn main(rt: HostRuntime) -> io::Result<()> {
    let mut input = [0; LARGEST];
    let n = reading::first_bytes(&mut rt.reader(), &mut input)?;
    let mut own = [0; ROOM];
    let mut plan = [0; ROOM];
    run(&rt, &input[..n], &mut own, &mut plan)
}
