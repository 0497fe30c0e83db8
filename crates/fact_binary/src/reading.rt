//! Readers of numbers and of bytes. Each answers what stands at the front, with what follows it, or `NotInGrammar` where
//! nothing of its kind stands there.

ghost use Rattle.std.specs.Prelude.{ℤ, ◌≡◌, ℕ, true, false, ◌+◌, ◌*◌, ◌-◌, ◌<◌, ◌≤◌, ◌^◌, ◌++◌, List, [], ◌∷◌, length, IfOk, IfSome, IfNone, IsSomeAnd};
ghost use Rattle.std.specs.Int.{w32, w64, cast_signed, to_le_bytes};
ghost use Rattle.fact_binary.specs.Answers.{IfRead};
ghost use Rattle.fact_binary.specs.Numbers.{unsigned, signed, groups, count, magnitude, number};
ghost use Rattle.fact_binary.specs.Spelling.{sized};

use crate::error::DecodeError;
use crate::number::{group_count, scale};

/// The first byte, and what follows it.
fn take_byte(bytes: &[u8]) -> Option<(u8, &[u8])>
    ensures found { IfSome result (λ x. bytes.now ≡ x.0 ∷ x.1.now) }
    ensures byte { IfSome result (λ x. x.0 < 256) }
    ensures none { IfNone result (bytes.now ≡ []) }
{
    match bytes {
        [] => None,
        [byte, rest @ ..] => Some((*byte, rest)),
    }
}

/// Groups of seven bits, up to the first byte below 128: how many, and their number.
fn read_groups(bytes: &[u8], limit: u32) -> Option<(u32, u128, &[u8])>
    requires { limit ≤ 10 }
    ensures found { IfSome result (λ x. (1 ≤ x.0) × (x.0 ≤ limit) × (x.1 < 128 ^ x.0) × (bytes.now ≡ groups x.0 x.1 ++ x.2.now)) }
    ensures only { (k n : ℕ) (rest : List ℕ) → 1 ≤ k → k ≤ limit → n < 128 ^ k → bytes.now ≡ groups k n ++ rest
        → IsSomeAnd result (λ x. (x.0 ≡ k) × (x.1 ≡ n) × (x.2.now ≡ rest)) }
{
    if limit == 0 {
        return None;
    }
    let (byte, rest) = take_byte(bytes)?;
    if byte < 128 {
        return Some((1, byte as u128, rest));
    }
    let (count, high, after) = read_groups(rest, limit - 1)?;
    Some((count + 1, high * 128 + (byte - 128) as u128, after))
}

/// Reads an unsigned number in its shortest form.
fn read_unsigned(bytes: &[u8]) -> Option<(u64, &[u8])>
    ensures found { IfSome result (λ x. bytes.now ≡ unsigned x.0 ++ x.1.now) }
    ensures only { (n : ℕ) (rest : List ℕ) → n < 2 ^ 64 → bytes.now ≡ unsigned n ++ rest
        → IsSomeAnd result (λ x. (x.0 ≡ n) × (x.1.now ≡ rest)) }
{
    let (k, n, rest) = read_groups(bytes, 10)?;
    if n >= 18446744073709551616 {
        return None;
    }
    if group_count(n) != k {
        return None;
    }
    Some((n as u64, rest))
}

/// Reads an index as a signed number in its shortest form.
fn read_signed_index(bytes: &[u8]) -> Option<(u32, &[u8])>
    ensures found { IfSome result (λ x. (x.0 < 2 ^ 32) × (bytes.now ≡ groups (count (2 * x.0)) x.0 ++ x.1.now)) }
    ensures only { (n : ℕ) (rest : List ℕ) → n < 2 ^ 32 → bytes.now ≡ groups (count (2 * n)) n ++ rest
        → IsSomeAnd result (λ x. (x.0 ≡ n) × (x.1.now ≡ rest)) }
{
    let (k, n, rest) = read_groups(bytes, 10)?;
    if n >= 4294967296 {
        return None;
    }
    if group_count(2 * n) != k {
        return None;
    }
    Some((n as u32, rest))
}

/// Whether k groups of seven bits are a negative number, and n of `n` and of `-n - 1`.
fn split_sign(k: u32, n: u128) -> (bool, u128)
    requires most { k ≤ 10 }
    requires fits { n < 128 ^ k }
    ensures low { 2 * n < 128 ^ k → (result.0 ≡ false) × (result.1 ≡ n) }
    ensures high { 128 ^ k ≤ 2 * n → (result.0 ≡ true) × (result.1 ≡ 128 ^ k - 1 - n) }
{
    let whole = scale(k);
    if 2 * n >= whole {
        return (true, whole - 1 - n);
    }
    (false, n)
}

/// Reads a signed number in its shortest form: whether it is negative, and n of `n` and of `-n - 1`, below 2^63.
fn read_signed(bytes: &[u8]) -> Option<(bool, u64, &[u8])>
    ensures found { IfSome result (λ x. (x.1 < 2 ^ 63) × (bytes.now ≡ signed (number x.0 x.1) ++ x.2.now)) }
    ensures only { (z : ℤ) (rest : List ℕ) → magnitude z < 2 ^ 63 → bytes.now ≡ signed z ++ rest
        → IsSomeAnd result (λ x. (number x.0 x.1 ≡ z) × (x.2.now ≡ rest)) }
{
    let (k, n, rest) = read_groups(bytes, 10)?;
    let (negative, size) = split_sign(k, n);
    if size >= 9223372036854775808 {
        return None;
    }
    if group_count(2 * size) != k {
        return None;
    }
    Some((negative, size as u64, rest))
}

/// The byte at the front.
pub fn byte_at(bytes: &[u8]) -> Result<(u8, &[u8]), DecodeError>
    ensures found { IfOk result (λ x. bytes.now ≡ x.0 ∷ x.1.now) }
    ensures only { (b : ℕ) (rest : List ℕ) → bytes.now ≡ b ∷ rest → IfRead result (λ x. (x.0 ≡ b) × (x.1.now ≡ rest)) }
{
    take_byte(bytes).ok_or(DecodeError::NotInGrammar)
}

/// The number of 64 bits at the front.
pub fn u64_at(bytes: &[u8]) -> Result<(u64, &[u8]), DecodeError>
    ensures found { IfOk result (λ x. (x.0 < 2 ^ 64) × (bytes.now ≡ unsigned x.0 ++ x.1.now)) }
    ensures only { (n : ℕ) (rest : List ℕ) → n < 2 ^ 64 → bytes.now ≡ unsigned n ++ rest → IfRead result (λ x. (x.0 ≡ n) × (x.1.now ≡ rest)) }
{
    read_unsigned(bytes).ok_or(DecodeError::NotInGrammar)
}

/// The number of 32 bits at the front.
pub fn u32_at(bytes: &[u8]) -> Result<(u32, &[u8]), DecodeError>
    ensures found { IfOk result (λ x. (x.0 < 2 ^ 32) × (bytes.now ≡ unsigned x.0 ++ x.1.now)) }
    ensures only { (n : ℕ) (rest : List ℕ) → n < 2 ^ 32 → bytes.now ≡ unsigned n ++ rest → IfRead result (λ x. (x.0 ≡ n) × (x.1.now ≡ rest)) }
{
    let (n, rest) = u64_at(bytes)?;
    if n >= 4294967296 {
        return Err(DecodeError::NotInGrammar);
    }
    Ok((n as u32, rest))
}

/// The type index of a block at the front.
pub fn index_at(bytes: &[u8]) -> Result<(u32, &[u8]), DecodeError>
    ensures found { IfOk result (λ x. (x.0 < 2 ^ 32) × (bytes.now ≡ groups (count (2 * x.0)) x.0 ++ x.1.now)) }
    ensures only { (n : ℕ) (rest : List ℕ) → n < 2 ^ 32 → bytes.now ≡ groups (count (2 * n)) n ++ rest → IfRead result (λ x. (x.0 ≡ n) × (x.1.now ≡ rest)) }
{
    read_signed_index(bytes).ok_or(DecodeError::NotInGrammar)
}

/// The bits of the constant of 32 bits at the front.
pub fn int32_at(bytes: &[u8]) -> Result<(u32, &[u8]), DecodeError>
    ensures found { IfOk result (λ x. (x.0 < 2 ^ 32) × (bytes.now ≡ signed (cast_signed w32 x.0) ++ x.1.now)) }
    ensures only { (n : ℕ) (rest : List ℕ) → n < 2 ^ 32 → bytes.now ≡ signed (cast_signed w32 n) ++ rest → IfRead result (λ x. (x.0 ≡ n) × (x.1.now ≡ rest)) }
{
    let (negative, size, rest) = read_signed(bytes).ok_or(DecodeError::NotInGrammar)?;
    if size >= 2147483648 {
        return Err(DecodeError::NotInGrammar);
    }
    if negative {
        return Ok((u32::MAX - size as u32, rest));
    }
    Ok((size as u32, rest))
}

/// The bits of the constant of 64 bits at the front.
pub fn int64_at(bytes: &[u8]) -> Result<(u64, &[u8]), DecodeError>
    ensures found { IfOk result (λ x. (x.0 < 2 ^ 64) × (bytes.now ≡ signed (cast_signed w64 x.0) ++ x.1.now)) }
    ensures only { (n : ℕ) (rest : List ℕ) → n < 2 ^ 64 → bytes.now ≡ signed (cast_signed w64 n) ++ rest → IfRead result (λ x. (x.0 ≡ n) × (x.1.now ≡ rest)) }
{
    let (negative, size, rest) = read_signed(bytes).ok_or(DecodeError::NotInGrammar)?;
    if negative {
        return Ok((u64::MAX - size, rest));
    }
    Ok((size, rest))
}

/// The 4 bytes of a float at the front.
pub fn float32_at(bytes: &[u8]) -> Result<(u32, &[u8]), DecodeError>
    ensures found { IfOk result (λ x. (x.0 < 2 ^ 32) × (bytes.now ≡ to_le_bytes w32 x.0 ++ x.1.now)) }
    ensures only { (n : ℕ) (rest : List ℕ) → n < 2 ^ 32 → bytes.now ≡ to_le_bytes w32 n ++ rest → IfRead result (λ x. (x.0 ≡ n) × (x.1.now ≡ rest)) }
{
    let [a, b, c, d, rest @ ..] = bytes else {
        return Err(DecodeError::NotInGrammar);
    };
    Ok((u32::from_le_bytes([*a, *b, *c, *d]), rest))
}

/// The 8 bytes of a float at the front.
pub fn float64_at(bytes: &[u8]) -> Result<(u64, &[u8]), DecodeError>
    ensures found { IfOk result (λ x. (x.0 < 2 ^ 64) × (bytes.now ≡ to_le_bytes w64 x.0 ++ x.1.now)) }
    ensures only { (n : ℕ) (rest : List ℕ) → n < 2 ^ 64 → bytes.now ≡ to_le_bytes w64 n ++ rest → IfRead result (λ x. (x.0 ≡ n) × (x.1.now ≡ rest)) }
{
    let [a, b, c, d, e, f, g, h, rest @ ..] = bytes else {
        return Err(DecodeError::NotInGrammar);
    };
    Ok((u64::from_le_bytes([*a, *b, *c, *d, *e, *f, *g, *h]), rest))
}

/// The bytes behind their number at the front.
pub fn sized_at(bytes: &[u8]) -> Result<(&[u8], &[u8]), DecodeError>
    ensures found { IfOk result (λ x. (length x.0.now < 2 ^ 32) × (bytes.now ≡ sized x.0.now ++ x.1.now)) }
    ensures only { (content rest : List ℕ) → length content < 2 ^ 32 → bytes.now ≡ sized content ++ rest → IfRead result (λ x. (x.0.now ≡ content) × (x.1.now ≡ rest)) }
{
    let (len, rest) = u32_at(bytes)?;
    let len = len as usize;
    if rest.len() < len {
        return Err(DecodeError::NotInGrammar);
    }
    let (content, after) = rest.split_at(len);
    Ok((content, after))
}
