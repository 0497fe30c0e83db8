//! Flags as words (canonical ABI, "Flat Lowering", `pack_flags_into_int`).

ghost use Rattle.std.specs.Prelude.{◌≡◌, ◌≤◌, ◌<◌, ◌^◌, length, IfOk};
ghost use Rattle.fact_lowering.specs.FlagNumbers.{number_of_flags};
ghost use Rattle.fact_lowering.specs.Lowerings.{AreFlagWords};

use fact_wasm::{OutOfMemory, Seq, Text};
use std::alloc::Global;

/// The words of 32 bits that stand for flags, the first flag by the lowest bit.
pub fn flag_words(alloc: Global, flags: &[(Text, bool)]) -> Result<Seq<u64>, OutOfMemory>
    ensures { IfOk result (λ words. AreFlagWords flags.now words) }
{
    let mut words = Seq::new(alloc);
    let mut rest = flags;
    while rest.len() > 32 {
        words.push(flag_word(&rest[..32]))?;
        rest = &rest[32..];
    }
    if rest.is_empty() {
        return Ok(words);
    }
    words.push(flag_word(rest))?;
    Ok(words)
}

/// The word that stands for at most 32 flags.
fn flag_word(flags: &[(Text, bool)]) -> u64
    requires { length flags.now ≤ 32 }
    ensures value { result ≡ number_of_flags flags.now }
    ensures small { result < 2 ^ 32 }
{
    let count = flags.len();
    let mut word = 0;
    for place in 0..count {
        word = word * 2 + u64::from(flags[count - 1 - place].1);
    }
    word
}
