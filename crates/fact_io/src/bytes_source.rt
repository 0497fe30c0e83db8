//! A source in memory.

ghost use Rattle.std.specs.Prelude.{◌≡◌, ◌≤◌, ◌+◌, ◌↔◌, Some, min, drop, length, take, vec_len, Contains, IfOk, OnOk, OnErr, IsErr};
ghost use Rattle.std.specs.Io.{ReadsAtMost};
ghost use Rattle.std.specs.Io.KnownBytes.{ReadConsumes};
ghost use Rattle.fact_io.specs.Faults.{Rose, next_count};
ghost use Rattle.fact_io.specs.Memory.{SourceState};

use crate::calls::{count_call, count_fault};
use crate::source::{ReadFailed, Source};
use std::marker::Model;

/// Bytes in memory that are read in pieces, by calls of which some are to fail.
#[derive(Drop)]
pub struct BytesSource {
    bytes: Vec<u8>,
    at: usize,
    piece: usize,
    failing: Vec<u64>,
    calls: u64,
    faults: u64,
}

impl Model for BytesSource {
    ghost Value = { SourceState };

    ghost view = { λ s. record {
      left = drop s.at s.bytes.items;
      piece = s.piece;
      failing = s.failing.items;
      calls = s.calls;
      faults = s.faults;
    } };

    ghost invariant = { λ s. (s.at ≤ vec_len s.bytes) × (1 ≤ s.piece) };
}

impl BytesSource {
    /// A source of `bytes`, of which a read takes at most `piece`. The reads whose numbers, counted from 1, are in
    /// `failing` are to fail.
    pub fn new(bytes: Vec<u8>, piece: usize, failing: Vec<u64>) -> BytesSource
        requires { 1 ≤ piece }
        ensures { result ≡ record {
          left = bytes.items;
          piece = piece;
          failing = failing.items;
          calls = 0;
          faults = 0;
        } }
    {
        BytesSource {
            bytes,
            at: 0,
            piece,
            failing,
            calls: 0,
            faults: 0,
        }
    }
}

impl Source for BytesSource {
    ghost left = { λ s. Some s.left };

    ghost faults = { λ s. s.faults };

    fn read(&mut self, buf: &mut [u8]) -> Result<usize, ReadFailed>
        ensures bound { ReadsAtMost result buf.new }
        ensures bytes { ReadConsumes (Some self.old.left) (Some self.new.left) result buf.new }
        ensures rose { OnErr result (Rose self.old.faults self.new.faults) }
        ensures no_fault { OnOk result (self.new.faults ≡ self.old.faults) }
        ensures never_falls { self.old.faults ≤ self.new.faults }

        // Exactly the listed calls fail, and each other call takes all that it may.
        ensures fails { IsErr result ↔ Contains self.old.failing (self.old.calls + 1) }
        ensures count { IfOk result (λ n.
            n ≡ min (length buf.old) (min self.old.piece (length self.old.left))) }

        // What a call changes.
        ensures ok { IfOk result (λ n. self.new ≡ record self.old {
          left = drop n self.old.left;
          calls = next_count self.old.calls;
        }) }
        ensures err { OnErr result (self.new ≡ record self.old {
          calls = next_count self.old.calls;
          faults = next_count self.old.faults;
        }) }
    {
        if count_call(&mut self.calls, &self.failing) {
            count_fault(&mut self.faults);
            return Err(ReadFailed);
        }
        let count = copy_front(&self.bytes[self.at..], self.piece, buf);
        self.at += count;
        Ok(count)
    }
}

/// Copies the first bytes to the front of a buffer, as many as fit and at most so many, and gives their number.
fn copy_front(bytes: &[u8], most: usize, buf: &mut [u8]) -> usize
    ensures count { result ≡ min (length buf.old) (min most (length bytes.now)) }
    ensures room { length buf.new ≡ length buf.old }
    ensures front { take result buf.new ≡ take result bytes.now }
{
    let count = buf.len().min(most).min(bytes.len());
    buf[..count].copy_from_slice(&bytes[..count]);
    count
}
