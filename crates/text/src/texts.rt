// Equal texts.
//
// Promises: the answer is the definition's, for every input.
ghost use Rattle.std.specs.Prelude.{◌≡◌};
ghost use Rattle.text.specs.Texts.{same};

// Are the two texts the same? It stays beside `==`: here alone `==` is tied to `same`, which the contracts of its callers cite.
pub fn same_text(a: &[u8], b: &[u8]) -> bool
    ensures { result ≡ same a.now b.now }
{
    a == b
}
