// The archive for C, libsteamfiddle_converter.a: the function of `converter_c` under the name that C links. The header is include/steamfiddle.h.
//
// Promises: what `converter_c` promises, with the same clauses.
// May not touch: files, events.
#![tactic(auto)]

ghost use Rattle.converter_c.specs.Calls.{Converting};

#[unsafe(no_mangle)]
pub extern "C" fn steamfiddle_convert(file: &[u8], plan: &mut [u32]) -> u64
    ensures { Converting file.now plan.old result plan.new }
{
    converter_c::steamfiddle_convert(file, plan)
}
