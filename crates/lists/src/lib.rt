// Lists: the few functions of lists that definitions and code share, and laws of lists, of flags and of buffers that are filled from the front.
//
// Promises: each law is said once, for any elements; `is_flagged` and `lacks_first` answer every input by their definitions.
// May not touch: what the elements mean.
#![tactic(auto)]

ghost use Rattle.std.specs.Prelude.{◌≡◌, false, get_or};
ghost use Rattle.lists.specs.FlagsCode.{lacks_first};

pub mod bits;

// A flag past the last is not set.
pub fn is_flagged(flags: &[bool], at: usize) -> bool
    ensures { result ≡ get_or flags.now at false }
{
    flags.get(at).copied().unwrap_or(false)
}

// Is one of the first n not set?
pub fn lacks_first(flags: &[bool], n: usize) -> bool
    ensures { result ≡ lacks_first n flags.now }
{
    flags.len() < n || flags[..n].contains(&false)
}
