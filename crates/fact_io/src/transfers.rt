//! All of a source, and a whole text.

ghost use Rattle.std.specs.Prelude.{◌≡◌, ◌≢◌, ◌<◌, ◌≤◌, ◌+◌, ◌++◌, Some, List, ℕ, length, vec_len, IfOk, OnOk, OnErr, IsErrOf};
ghost use Rattle.std.specs.Io.KnownBytes.{Appends, Consumes, IsAtEnd};
ghost use Rattle.fact_io.specs.Faults.{Rose};
ghost use Rattle.fact_io.specs.InputError.{message};
ghost use Rattle.fact_io.specs.Transfers.{AppendsFront, TakesAll, TakesPast, TakesUpTo};
ghost use Rattle.fact_io.specs.declared.transfers.InputError.TheVariants.{Fault, OutOfMemory};

use crate::sink::{Sink, WriteFailed};
use crate::source::{ReadFailed, Source};
use std::alloc::{AllocError, Global};
use std::error::Error;
use std::fmt;

/// The most bytes that an input may have.
pub const INPUT_LIMIT: usize = 67_108_864;

// The most bytes that are asked for at once.
const PIECE: usize = 16_384;

/// Why an input was not read.
#[derive(Clone, Copy, Debug, PartialEq, Eq)]
pub enum InputError {
    /// A read failed.
    Fault,
    /// There are more than [`INPUT_LIMIT`] bytes.
    TooLong,
    /// Memory ran out.
    OutOfMemory,
}

impl fmt::Display for InputError {
    ghost output = { λ e. Some (message e) };

    fn fmt<W: fmt::Write>(&self, f: &mut fmt::Formatter<W>) -> fmt::Result {
        match self {
            InputError::Fault => write!(f, "read fault"),
            InputError::TooLong => write!(f, "input too long"),
            InputError::OutOfMemory => write!(f, "out of memory"),
        }
    }
}

impl Error for InputError {}

impl From<ReadFailed> for InputError {
    ghost from_gives = { λ _ e. e ≡ Fault };

    fn from(_: ReadFailed) -> InputError {
        InputError::Fault
    }
}

impl From<AllocError> for InputError {
    ghost from_gives = { λ _ e. e ≡ OutOfMemory };

    fn from(_: AllocError) -> InputError {
        InputError::OutOfMemory
    }
}

// Reads once into the buffer, and puts what was read at the end of the bytes.
fn read_piece<S: Source>(
    source: &mut S,
    buf: &mut [u8],
    bytes: &mut Vec<u8>,
) -> Result<usize, InputError>
    requires { 0 < length buf.old }
    ensures took { IfOk result (λ n.
        (n ≤ length buf.old) × (vec_len bytes.new ≡ vec_len bytes.old + n)) }
    ensures piece { OnOk result ((piece : List ℕ) × (bytes.new.items ≡ bytes.old.items ++ piece)
        × Consumes (S.left source.old) (S.left source.new) piece) }
    ensures ended { IfOk result (λ n. n ≡ 0 → IsAtEnd (S.left source.new)) }
    ensures err { OnErr result
        (TakesUpTo (S.left source.old) (S.left source.new) (length buf.old)) }
    ensures not_too_long { result ≢ Err InputError.TooLong }
    ensures fault { IsErrOf result InputError.Fault
        → Rose (S.faults source.old) (S.faults source.new) }
    ensures no_fault { result ≢ Err InputError.Fault → S.faults source.new ≡ S.faults source.old }
    ensures never_falls { S.faults source.old ≤ S.faults source.new }
{
    let count = source.read(buf)?;
    bytes.extend_from_slice(&buf[..count])?;
    Ok(count)
}

/// Reads to the end of a source, or until one byte more than [`INPUT_LIMIT`] was taken. Each turn takes at least one
/// byte. After an error the source has lost what was taken.
pub fn read_all<S: Source>(alloc: Global, source: &mut S) -> Result<Vec<u8>, InputError>
    ensures all { IfOk result (λ bytes.
        TakesAll (S.left source.old) (S.left source.new) bytes.items) }
    ensures within { IfOk result (λ bytes. vec_len bytes ≤ INPUT_LIMIT) }
    ensures too_long { IsErrOf result InputError.TooLong
        → TakesPast (S.left source.old) (S.left source.new) INPUT_LIMIT }
    ensures most { TakesUpTo (S.left source.old) (S.left source.new) (INPUT_LIMIT + 1) }
    ensures fault { IsErrOf result InputError.Fault
        → Rose (S.faults source.old) (S.faults source.new) }
    ensures no_fault { result ≢ Err InputError.Fault → S.faults source.new ≡ S.faults source.old }
    ensures never_falls { S.faults source.old ≤ S.faults source.new }
{
    let mut buf = [0; PIECE];
    let mut bytes = Vec::new(alloc);
    'turns: while bytes.len() <= INPUT_LIMIT {
        let want = PIECE.min(INPUT_LIMIT + 1 - bytes.len());
        if read_piece(source, &mut buf[..want], &mut bytes)? == 0 {
            return Ok(bytes);
        }
    }
    Err(InputError::TooLong)
}

/// Writes a whole text. After an error some first bytes of it were written.
pub fn write_text<K: Sink>(out: &mut K, text: &[u8]) -> Result<(), WriteFailed>
    ensures whole { OnOk result (Appends (K.written out.old) (K.written out.new) text.now) }
    ensures part { OnErr result (AppendsFront (K.written out.old) (K.written out.new) text.now) }
    ensures rose { OnErr result (Rose (K.faults out.old) (K.faults out.new)) }
    ensures no_fault { OnOk result (K.faults out.new ≡ K.faults out.old) }
    ensures never_falls { K.faults out.old ≤ K.faults out.new }
{
    let mut at = 0;
    'pieces: while at < text.len() {
        let count = out.write(&text[at..])?;
        at += count;
    }
    Ok(())
}
