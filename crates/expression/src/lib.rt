// An expression's text to postfix code.
//
// tokens: the text as numbers of tokens. The root reads them, level by level.
// Promises: `compile` answers every input, by value and to the last word, as crates/grammar/specs/Outcome.antt says it: the words of the one tree
// that the text is, or that it breaks the rules (refusal 11), or else that a word names no trigger (12).
// May not touch: anything but the text and the names it is lent. It knows nothing of XML and nothing of where the code goes.
#![tactic(auto)]

ghost use Rattle.std.specs.Prelude.{◌≡◌, map, ◌≤◌, length, drop};
ghost use Rattle.grammar.specs.Tree.{or, and, code, coded};
ghost use Rattle.grammar.specs.TokensCode.{names_in, numbered_token};
ghost use Rattle.grammar.specs.GrammarCode.{parse_chain, parse_operand, bracket_at, all_named, compiled_from, compiled, Agrees};

pub mod tokens;

use grammar::{Spans, Unfit, Words};
use tokens::{AND, CLOSE, NOT, OPEN, OR, UNKNOWN};

// How deep brackets may stand in one another.
const DEPTH: usize = 8;

// Operands parted by OR. `read_and` reads alike: a reader for each level is a form that paper 01 names (docs/DECISIONS.md).
// Each reader pushes the words of what it reads, and gives the next token's place.
#[cycle(readers)]
fn read_or(toks: &[u32], at: usize, depth: usize, out: &mut Words) -> Option<usize>
    ensures { Agrees (code (λ i. i)) toks.now at out.old out.new (parse_chain or depth (map numbered_token (drop at toks.now))) result }
{
    let mut here = read_and(toks, at, depth, out)?;
    // No `for`: a turn goes on by a whole operand.
    while toks.get(here) == Some(&OR) {
        here = read_and(toks, here + 1, depth, out)?;
        out.push(OR);
    }
    Some(here)
}

// Operands parted by AND.
#[cycle(readers)]
fn read_and(toks: &[u32], at: usize, depth: usize, out: &mut Words) -> Option<usize>
    ensures { Agrees (code (λ i. i)) toks.now at out.old out.new (parse_chain and depth (map numbered_token (drop at toks.now))) result }
{
    let mut here = read_not(toks, at, depth, out)?;
    // No `for`: a turn goes on by a whole operand.
    while toks.get(here) == Some(&AND) {
        here = read_not(toks, here + 1, depth, out)?;
        out.push(AND);
    }
    Some(here)
}

// NOT and its operand, a word, or an expression in brackets.
#[cycle(readers)]
fn read_not(toks: &[u32], at: usize, depth: usize, out: &mut Words) -> Option<usize>
    ensures { Agrees (coded (λ i. i)) toks.now at out.old out.new (parse_operand and depth (map numbered_token (drop at toks.now))) result }
{
    match *toks.get(at)? {
        NOT => {
            let negated = read_not(toks, at + 1, depth, out)?;
            out.push(NOT);
            Some(negated)
        }
        OPEN => read_bracket(toks, at + 1, depth, out),
        // Three arms: of one with all three a goal would have no name of the source's own.
        AND => None,
        OR => None,
        CLOSE => None,
        word => {
            out.push(word);
            Some(at + 1)
        }
    }
}

// What stands behind an opening bracket, and the closing one.
#[cycle(readers)]
fn read_bracket(toks: &[u32], at: usize, depth: usize, out: &mut Words) -> Option<usize>
    ensures { Agrees (coded (λ i. i)) toks.now at out.old out.new (bracket_at (parse_chain or) depth (map numbered_token (drop at toks.now))) result }
{
    let inner = read_or(toks, at, depth.checked_sub(1)?, out)?;
    if toks.get(inner) != Some(&CLOSE) {
        return None;
    }
    Some(inner + 1)
}

// Does every word among the tokens name a trigger?
fn all_named(toks: &[u32]) -> bool
    ensures { result ≡ all_named toks.now }
{
    toks.iter().all(|t| *t < UNKNOWN)
}

fn compile_tokens(toks: &[u32]) -> Result<Words, Unfit>
    requires { length toks.now ≤ 64 }
    ensures { result ≡ compiled_from toks.now }
{
    let mut out = Words::new();
    let end = read_or(toks, 0, DEPTH, &mut out).ok_or(Unfit::Broken)?;
    if end < toks.len() {
        return Err(Unfit::Broken);
    }
    if !all_named(toks) {
        return Err(Unfit::Unknown);
    }
    Ok(out)
}

// The code of an expression's text, where the triggers' names stand in a file.
pub fn compile(text: &[u8], names: Spans) -> Result<Words, Unfit>
    ensures { result ≡ compiled (names_in names.entry.file.now names.entry.starts.now names.entry.ends.now) text.now }
{
    let tokens = tokens::tokenise(text, names).ok_or(Unfit::Broken)?;
    compile_tokens(tokens.as_slice())
}
