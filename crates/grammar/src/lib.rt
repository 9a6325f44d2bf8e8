// Expressions of triggers: tokens, trees, meaning, code, refusals 11 and 12: definitions, laws and the types of names and answers.
//
// Promises: specs/Lex.antt states the tokens of a text, specs/Tree.antt the trees, what they mean and their code, specs/Outcome.antt the rules and
// the refusals, once; the theorems on them stand in proofs/.
// May not touch: anything; its code makes a value of its types, and says what one holds.

#![tactic(auto)]

ghost use Rattle.std.specs.Prelude.{◌≡◌, ◌≤◌, [], length, take, drop};
ghost use Rattle.grammar.specs.TokensCode.{laid, words_in, pushed};
ghost use Rattle.grammar.specs.GrammarCode.{unfit_number};

// The most tokens that an expression has, and the most words: one for each token.
pub const MOST: usize = 64;

// The triggers' names as they stand in the file, each from a start up to an end: as many as have both, and at most 32.
// Starts and ends stay two slices: `expression::compile` answers also where there are more of the one than of the other.
#[derive(Clone, Copy)]
pub struct Spans<'a> {
    pub file: &'a [u8],
    pub starts: &'a [usize],
    pub ends: &'a [usize],
}

// The numbers of a text's tokens, or the words of its code: the first `count` of `words`, and zeros behind them.
// An array with its count: fixed memory is a rule of the project.
#[derive(Clone, Copy)]
pub struct Words {
    pub count: usize,
    pub words: [u32; MOST],
}

// What stands at a place of a text: a token's number, or none at a blank, and the place behind it.
#[derive(Clone, Copy)]
pub struct Lexeme {
    pub token: Option<u32>,
    pub end: usize,
}

// Why a text has no code: it breaks the rules, or a word names no trigger.
#[derive(Clone, Copy)]
pub enum Unfit {
    Broken,
    Unknown,
}

// What stands in a file from a start up to an end, cut at the file's end.
pub fn cut(file: &[u8], start: usize, end: usize) -> &[u8]
    ensures { result.now ≡ drop start (take end file.now) }
{
    let to = end.min(file.len());
    &file[start.min(to)..to]
}

impl Words {
    // None yet.
    pub fn new() -> Words
        ensures { result ≡ laid [] }
    {
        Words {
            count: 0,
            words: [0; MOST],
        }
    }

    // The words that count.
    pub fn as_slice(&self) -> &[u32]
        ensures { (result.now ≡ words_in self.now) × (length result.now ≤ 64) }
    {
        &self.words[..self.count.min(MOST)]
    }

    // One more word behind those that count. Where there is no room, none.
    pub fn push(&mut self, word: u32)
        ensures { self.new ≡ pushed self.old word }
    {
        if self.count < MOST {
            self.words[self.count] = word;
            self.count += 1;
        }
    }
}

impl Unfit {
    // The paper's number of the refusal.
    pub fn number(self) -> u32
        ensures { result ≡ unfit_number self }
    {
        match self {
            Unfit::Broken => 11,
            Unfit::Unknown => 12,
        }
    }
}
