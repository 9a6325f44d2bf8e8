// The converter for C. The header is include/steamfiddle.h; `converter_archive` has the symbol that C links.
//
// Promises: `steamfiddle_convert` answers any bytes and any buffer as `convert` does, the answer packed into one number. It keeps nothing
// between calls.
// May not touch: files, events.
#![tactic(auto)]

ghost use Rattle.converter_c.specs.Calls.{Converting};

// Writes the plan of a file and answers its length, or answers the number and place of the first refusal: number × 2^32 + value.
pub fn steamfiddle_convert(file: &[u8], plan: &mut [u32]) -> u64
    ensures { Converting file.now plan.old result plan.new }
{
    match converter::convert(file, plan) {
        Ok(n) => n as u64,
        Err(refusal) => (refusal.number as u64) * 4294967296 + (refusal.place as u64),
    }
}
