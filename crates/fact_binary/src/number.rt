//! Integers of variable length (core specification, "Values", LEB128), in their shortest form.

ghost use Rattle.std.specs.Prelude.{ℤ, ◌≡◌, ◌+◌, ◌*◌, ◌<◌, ◌≤◌, ◌^◌, ◌++◌, OnOk};
ghost use Rattle.fact_binary.specs.Numbers.{unsigned, signed, groups, count, magnitude};
ghost use Rattle.fact_binary.specs.Values.{UnsignedIsShortest, SignedIsShortest};

use fact_wasm::OutOfMemory;

/// Writes an unsigned integer at the end.
pub fn push_unsigned(out: &mut Vec<u8>, n: u64) -> Result<(), OutOfMemory>
    ensures { OnOk result (out.new.items ≡ out.old.items ++ unsigned n) }
{
    let mut rest = n;
    while rest >= 128 {
        out.push((rest % 128 + 128) as u8)?;
        rest /= 128;
    }
    out.push(rest as u8)?;
    Ok(())
}

/// How many groups of seven bits the number has, at least one.
pub fn group_count(n: u128) -> u32
    requires { n < 128 ^ 10 }
    ensures { result ≡ count n }
{
    let mut k = 1;
    let mut rest = n;
    while rest >= 128 {
        rest /= 128;
        k += 1;
    }
    k
}

/// 128 to the power of k.
pub fn scale(k: u32) -> u128
    requires { k ≤ 10 }
    ensures { result ≡ 128 ^ k }
{
    128u128.pow(k)
}

/// Writes k groups of seven bits.
fn push_groups(out: &mut Vec<u8>, k: u32, n: u128) -> Result<(), OutOfMemory>
    requires low { 1 ≤ k }
    requires fits { n < 128 ^ k }
    ensures { OnOk result (out.new.items ≡ out.old.items ++ groups k n) }
{
    let mut rest = n;
    let mut left = k;
    while left > 1 {
        out.push((rest % 128 + 128) as u8)?;
        rest /= 128;
        left -= 1;
    }
    out.push(rest as u8)?;
    Ok(())
}

/// The number n of `n` and of `-n - 1`.
fn magnitude_of(z: i64) -> u64
    ensures { result ≡ magnitude z }
{
    if z < 0 { (-(z + 1)) as u64 } else { z as u64 }
}

/// Writes a signed integer at the end.
pub fn push_signed(out: &mut Vec<u8>, z: i64) -> Result<(), OutOfMemory>
    ensures { OnOk result (out.new.items ≡ out.old.items ++ signed z) }
{
    let n = magnitude_of(z) as u128;
    let k = group_count(2 * n);
    if z < 0 {
        push_groups(out, k, scale(k) - 1 - n)?;
        Ok(())
    } else {
        push_groups(out, k, n)?;
        Ok(())
    }
}

/// Numbers are spelled in their shortest form: the bytes stand for the number, and no fewer groups of seven bits do. This
/// function carries the laws and does nothing.
pub fn numbers_are_shortest()
    ensures unsigned { UnsignedIsShortest }
    ensures signed { SignedIsShortest }
{}
