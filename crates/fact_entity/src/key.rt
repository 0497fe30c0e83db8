//! Keys.

ghost use Rattle.std.specs.Prelude.{◌≡◌, ◌↔◌, ◌<◌, ◌≤◌, ◌^◌, ℕ, true};

use std::hash::Hash;

/// A key of a table: a 32-bit number under a type of its own. Every `u32` is the number of one key.
pub trait EntityRef: Copy + Eq + Hash {
    // the number of a key
    ghost number: { Self → ℕ };

    // the key of a number
    ghost key: { ℕ → Self };

    /// The key of a number.
    fn from_u32(n: u32) -> Self
        ensures { result ≡ key n };

    /// The number of the key.
    fn as_u32(self) -> u32
        ensures { result ≡ number self };

    // the two are inverse
    ghost number_of_key: { (n : ℕ) → n < 2 ^ 32 → number (key n) ≡ n };

    ghost key_of_number: { (k : Self) → key (number k) ≡ k };

    // keys are equal exactly where their numbers are
    ghost equal_by_number: { (a b : Self) → (Self.eq a b ≡ true) ↔ (number a ≡ number b) };
}

/// The key of a place in a table.
pub(crate) fn key_at<K: EntityRef>(place: usize) -> K
    requires { place ≤ 4294967295 }
    ensures key { result ≡ K.key place }
    ensures number { K.number result ≡ place }
{
    K::from_u32(place as u32)
}
