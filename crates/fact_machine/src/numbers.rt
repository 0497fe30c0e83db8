//! Numbers in memory.

ghost use Rattle.std.specs.Prelude.{◌≡◌, ◌<◌, ◌≤◌, ◌^◌, length};
ghost use Rattle.fact_machine.specs.World.{number_of};

/// The number that at most 8 bytes make, lowest first (core specification, "Execution", "Numerics", "Storage").
pub fn number_of_bytes(bytes: &[u8]) -> u64
    requires { length bytes.now ≤ 8 }
    ensures value { result ≡ number_of bytes.now }
    ensures below { result < 256 ^ length bytes.now }
{
    match bytes {
        [] => 0,
        [low, rest @ ..] => u64::from(*low) + 0x100 * number_of_bytes(rest),
    }
}
