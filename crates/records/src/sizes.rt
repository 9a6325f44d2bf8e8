// How many words one record of a plan has, and the largest identifier.
//
// Promises: each function answers by the definition of its record, for every input.
ghost use Rattle.std.specs.Prelude.{◌≡◌, ◌<◌};
ghost use Rattle.records.specs.Records.{id_top};
ghost use Rattle.records.specs.RecordsCode.{trigger_size, filter_size, statement_size};

// The number of words of the record that the words start with, by its kind. Two functions for two constants: the loader takes each by its name.
pub fn trigger_size(rec: &[u32]) -> usize
    ensures { result ≡ trigger_size rec.now }
{
    6
}

pub fn filter_size(rec: &[u32]) -> usize
    ensures { result ≡ filter_size rec.now }
{
    7
}

pub fn statement_size(rec: &[u32]) -> usize
    ensures { (result ≡ statement_size rec.now) × (result < 8589934600) }
{
    let actions = crate::word(rec, 1) as usize;
    let words = crate::word(rec, 2) as usize;
    3 + actions + words
}

// The largest identifier: 11 bits, or 29 where it is extended.
pub fn id_top(ext: bool) -> u32
    ensures { result ≡ id_top ext }
{
    if ext { 536870911 } else { 2047 }
}
