//! The compiler for C and for what calls C: `include/factc.h` declares it, and says who owns what.
#![tactic(auto)]

ghost use Rattle.fact_library.specs.Giving.{IsFuel, IsGiven, LeadsTo};

use fact_library::{ImportRecord, Sizes, compile_into};
use std::alloc::Global;

/// Compiles the bytes of a plan, and hands over what comes of it into buffers of the caller's, as [`compile_into`] says. All that it takes of
/// memory it has given back when it returns.
#[unsafe(no_mangle)]
pub extern "C" fn factc_compile_into(
    alloc: Global,
    plan: &[u8],
    debug: bool,
    fuel: u32,
    bytes: &mut [u8],
    records: &mut [ImportRecord],
    text: &mut [u8],
    sizes: &mut Sizes,
) -> u32
    ensures given { IsGiven debug fuel plan.now sizes.new bytes.old bytes.new records.old records.new text.old text.new result }
    ensures exactly { IsFuel fuel → LeadsTo plan.now result }
{
    compile_into(alloc, plan, debug, fuel, bytes, records, text, sizes)
}
