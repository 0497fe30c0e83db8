//! A sink of bytes.

ghost use Rattle.std.specs.Prelude.{List, ℕ, ◌≡◌, ◌<◌, ◌≤◌, Some, length, IfOk, OnOk, OnErr, codes};
ghost use Rattle.std.specs.declared.option.Option.{Option};
ghost use Rattle.std.specs.Io.{WritesAtMost};
ghost use Rattle.std.specs.Io.KnownBytes.{WriteAppends};
ghost use Rattle.fact_io.specs.Faults.{Rose};

use std::error::Error;
use std::fmt;

/// A write failed, and appended nothing.
#[derive(Clone, Copy, Debug, PartialEq, Eq)]
pub struct WriteFailed;

impl fmt::Display for WriteFailed {
    ghost output = { λ _. Some (codes "write fault") };

    fn fmt<W: fmt::Write>(&self, f: &mut fmt::Formatter<W>) -> fmt::Result {
        write!(f, "write fault")
    }
}

impl Error for WriteFailed {}

/// What bytes are written to.
pub trait Sink {
    /// The bytes that the sink holds, where it tells them.
    ghost written: { Self → Option (List ℕ) };

    /// How many writes failed, by a count that stops at its last value.
    ghost faults: { Self → ℕ };

    /// Appends some first bytes of the piece, and gives their number: 0 only where the piece is empty.
    fn write(&mut self, piece: &[u8]) -> Result<usize, WriteFailed>
        ensures bound { WritesAtMost result piece.now }
        ensures some { IfOk result (λ n. 0 < length piece.now → 1 ≤ n) }
        ensures bytes { WriteAppends (written self.old) (written self.new) result piece.now }
        ensures rose { OnErr result (Rose (faults self.old) (faults self.new)) }
        ensures no_fault { OnOk result (faults self.new ≡ faults self.old) }
        ensures never_falls { faults self.old ≤ faults self.new };
}
