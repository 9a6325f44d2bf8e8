// Runs the cases of its standard input through the engine and prints each answer with the logging state behind it and the counts.
//
// Every event goes through `host`, and the counts are those of the record that was lent to the call.
// Promises: nothing but that it ends and touches no byte out of range; what it prints is held to the stored output.
// A line is one letter and numbers: '#' is copied to the output, 'p' gives the plan's words, 'k' begins anew with four counts,
// 'f' (frame), 'r' (remote frame), 'x' (extended frame) and 'e' (error frame) have channel, time, id and dlc, 't' (tick) a time.
#![tactic(auto)]

ghost use Rattle.std.specs.Prelude.{◌+◌, ◌≤◌, ◌<◌, IfOk, length};

use event_rules::{Answer, Counts, Engine, Event, Frame, Outcome};
use std::io;
use steps::start;

// As many bytes of input are read.
const ROOM: usize = 65536;

fn say_outcome(rt: &impl Print, o: Outcome) -> io::Result<()> {
    let engine = o.engine;
    println!(rt; "{}, {} | {}", o.answer, engine.logging, o.counts)
}

// The low 32 bits.
fn narrow(x: u64) -> u32 {
    (x % 4294967296) as u32
}

fn begin(counts: Counts) -> Outcome {
    let engine = start::fresh_engine();
    Outcome {
        answer: Answer::Ticked,
        engine,
        counts,
    }
}

// One event as a host gives it: the record stands in a local and is lent to the call.
fn lend_event(words: &[u32], en: Engine, before: Counts, e: Event) -> Outcome {
    let mut record = before;
    let out = host::event_into(words, en, &mut record, e);
    Outcome {
        counts: record,
        ..out
    }
}

fn take_event(rt: &impl Print, words: &[u32], o: Outcome, e: Event) -> io::Result<Outcome> {
    let next = lend_event(words, o.engine, o.counts, e);
    say_outcome(rt, next)?;
    Ok(next)
}

fn frame_of(kind: u8, numbers: &[u64]) -> Frame
    requires { 4 ≤ length numbers.now }
{
    Frame {
        channel: narrow(numbers[0]),
        time: numbers[1],
        error: kind == b'e',
        remote: kind == b'r',
        ext: kind == b'x',
        id: narrow(numbers[2]),
        dlc: narrow(numbers[3]),
        bytes: [0; 8],
    }
}

// A number with one digit more, within 64 bits.
fn with_digit(x: u64, b: u8) -> u64 {
    if 1000000000000000000 <= x {
        return x;
    }
    10 * x + u64::from(b % 16)
}

// The line's numbers, as many as there is room for; answers how many.
fn read_numbers(line: &[u8], out: &mut [u64]) -> usize
    ensures { result ≤ length out.new }
{
    let mut numbers = line
        .split(|b| !b.is_ascii_digit())
        .filter(|digits| !digits.is_empty());
    for i in 0..out.len() {
        let Some(digits) = numbers.next() else {
            return i;
        };
        out[i] = digits.iter().fold(0, |x, b| with_digit(x, *b));
    }
    out.len()
}

// Plan words out of numbers.
fn copy_words(numbers: &[u64], words: &mut [u32]) {
    for (word, number) in words.iter_mut().zip(numbers) {
        *word = narrow(*number);
    }
}

// A line that is no plan: what it makes of the run so far.
fn take_line(
    rt: &impl Print,
    words: &[u32],
    o: Outcome,
    kind: u8,
    numbers: &[u64],
) -> io::Result<Outcome>
    requires { 4 ≤ length numbers.now }
{
    match kind {
        b'k' => Ok(begin(Counts {
            recorded: narrow(numbers[0]),
            idle: narrow(numbers[1]),
            stopped: narrow(numbers[2]),
            halted: narrow(numbers[3]),
        })),
        b't' => take_event(rt, words, o, Event::Tick(numbers[0])),
        b'e' | b'f' | b'r' | b'x' => take_event(
            rt,
            words,
            o,
            Event::Frame(frame_of(kind, numbers)),
        ),
        _ => Ok(o),
    }
}

// The run so far: how many words the plan has, and the last outcome.
#[derive(Clone, Copy)]
struct Stage {
    count: usize,
    outcome: Outcome,
}

fn step_line(
    rt: &impl Print,
    line: &[u8],
    s: Stage,
    words: &mut [u32],
    numbers: &mut [u64],
) -> io::Result<Stage>
    requires { (4 ≤ length numbers.old) × (length numbers.old ≤ length words.old) × (s.count ≤ length words.old) }
    ensures { IfOk result (λ next. next.count ≤ length words.old) }
{
    if line.len() == 0 {
        return Ok(s);
    }
    let kind = line[0];
    if kind == b'#' {
        rt.write_all(line)?;
        rt.write_all(b"\n")?;
        return Ok(s);
    }
    let n = read_numbers(line, numbers);
    let outcome = s.outcome;
    if kind == b'p' {
        copy_words(&numbers[..n], words);
        return Ok(Stage { count: n, outcome });
    }
    let count = s.count;
    let next = take_line(rt, &words[..count], outcome, kind, numbers)?;
    Ok(Stage {
        count,
        outcome: next,
    })
}

// The lines of the input, in order.
fn run(rt: &impl Print, input: &[u8], words: &mut [u32], numbers: &mut [u64]) -> io::Result<()>
    requires { (4 ≤ length numbers.old) × (length numbers.old ≤ length words.old) }
{
    let outcome = begin(start::no_counts());
    let mut s = Stage { count: 0, outcome };
    // No `for` over `split`: the check refuses that loop's own module beside the lent buffers.
    let mut at = 0;
    while at < input.len() {
        let end = at + reading::place_of(b'\n', &input[at..]);
        s = step_line(rt, &input[at..end], s, words, numbers)?;
        if end == input.len() {
            return Ok(());
        }
        at = end + 1;
    }
    Ok(())
}

fn main(rt: HostRuntime) -> io::Result<()> {
    let mut input = [0; ROOM];
    let mut words = [0u32; 1600];
    let mut numbers = [0u64; 1600];
    let n = reading::first_bytes(&mut rt.reader(), &mut input)?;
    run(&rt, &input[..n], &mut words, &mut numbers)
}
