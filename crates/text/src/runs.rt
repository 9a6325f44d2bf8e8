// Where a run of bytes of one kind ends: blanks, names, values, texts, declarations, comments up to a dash.
//
// Promises: every answer is the definition's, for every text and every offset.
ghost use Rattle.std.specs.Prelude.{◌≡◌, ◌+◌, ◌≤◌, ℕ, Bool, length, drop};
ghost use Rattle.std.specs.List.{list_all};
ghost use Rattle.text.specs.Kinds.{is_blank, is_name, is_decl, is_value, is_text};
ghost use Rattle.text.specs.SpansCode.{span_at, is_plain, Tests};

use crate::letters;

// The offset behind the bytes at i that are of the kind. A loop by place: most runs are short, and what `take_while` and `count` over the rest cost at
// each run's start was more than the runs.
fn run_end<F: Fn(u8) -> bool>(s: &[u8], i: usize, is_kind: F) -> usize
    requires { F.IsAlwaysCallable is_kind }
    ensures { (p : ℕ → Bool) → Tests F.post is_kind p → result ≡ span_at p (drop i s.now) i }
{
    let mut j = i;
    while j < s.len() {
        if !is_kind(s[j]) {
            return j;
        }
        j += 1;
    }
    j
}

// The offset behind the blanks at i.
pub fn blanks_end(s: &[u8], i: usize) -> usize
    ensures { result ≡ span_at is_blank (drop i s.now) i }
{
    run_end(s, i, letters::is_blank)
}

// The offset behind the letters, digits and `_` at i.
pub fn name_end(s: &[u8], i: usize) -> usize
    ensures { result ≡ span_at is_name (drop i s.now) i }
{
    run_end(s, i, letters::is_name)
}

// A byte of a value.
#[tactic(auto, unfolding(crate::specs::Kinds::is_value))]
fn is_value(b: u8) -> bool
    ensures { result ≡ is_value b }
{
    matches!(b, b' '..=b'~') && !matches!(b, b'<' | b'&' | b'"')
}

#[tactic(auto, unfolding(crate::specs::Kinds::is_text))]
fn is_text(b: u8) -> bool
    ensures { result ≡ is_text b }
{
    !matches!(b, b'<' | b'&') && letters::is_any(b)
}

// A byte of the declaration at a file's start.
#[tactic(auto, unfolding(crate::specs::Kinds::is_decl))]
fn is_decl(b: u8) -> bool
    ensures { result ≡ is_decl b }
{
    b != b'?' && (matches!(b, b' '..=b'~') || letters::is_blank(b))
}

// The offset behind the bytes of a value at i.
pub fn value_end(s: &[u8], i: usize) -> usize
    ensures { result ≡ span_at is_value (drop i s.now) i }
{
    run_end(s, i, is_value)
}

// The offset behind the text at i. Blanks first: most texts are nothing else.
pub fn text_end(s: &[u8], i: usize) -> usize
    ensures { result ≡ span_at is_text (drop i s.now) i }
{
    run_end(s, blanks_end(s, i), is_text)
}

// The offset behind the bytes of a declaration at i.
pub fn decl_end(s: &[u8], i: usize) -> usize
    ensures { result ≡ span_at is_decl (drop i s.now) i }
{
    run_end(s, i, is_decl)
}

// The test of `plain_end` without branches: sixteen of these become a few instructions.
fn is_plain(b: u8) -> bool
    ensures { result ≡ is_plain b }
{
    (b != b'-') & ((0x20 <= b) | (b == b'\t') | (b == b'\r') | (b == b'\n'))
}

// Are the bytes of the block all plain? Without branches.
#[tactic(auto, unfolding(crate::specs::SpansCode::is_plain))]
fn is_block(block: &[u8]) -> bool
    ensures { result ≡ list_all is_plain block.now }
{
    block.iter().fold(true, |all, b| all & is_plain(*b))
}

// Behind blocks of plain bytes at i, so that the run goes on or ends here.
fn blocks_end(s: &[u8], i: usize) -> usize
    ensures { span_at is_plain (drop result s.now) result ≡ span_at is_plain (drop i s.now) i }
{
    let rest = s.get(i..).unwrap_or(&[]);
    let blocks = rest
        .chunks_exact(16)
        .take_while(|block| is_block(block))
        .count();
    i + 16 * blocks
}

// The offset behind the bytes of a comment at i of which none is a dash.
#[tactic(auto, unfolding(crate::specs::SpansCode::is_plain))]
pub fn plain_end(s: &[u8], i: usize) -> usize
    ensures { result ≡ span_at is_plain (drop i s.now) i }
{
    run_end(s, blocks_end(s, i), |b| b != b'-' && letters::is_any(b))
}
