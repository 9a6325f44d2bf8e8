// Records in a row, as a loop over them takes them: parts of the words, wherever it stands.
//
// Promises: `head` and `tail` answer every input.
ghost use Rattle.std.specs.Prelude.{◌≡◌, take, drop};

// The first n words, or all where there are fewer.
pub(crate) fn head(words: &[u32], n: usize) -> &[u32]
    ensures { result.now ≡ take n words.now }
{
    &words[..n.min(words.len())]
}

// The words from `at` on, or none past their end.
pub(crate) fn tail(words: &[u32], at: usize) -> &[u32]
    ensures { result.now ≡ drop at words.now }
{
    &words[at.min(words.len())..]
}
