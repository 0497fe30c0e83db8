//! A sink in memory.

ghost use Rattle.std.specs.Prelude.{◌≡◌, ◌≤◌, ◌<◌, ◌+◌, ◌-◌, ◌++◌, ◌⊎◌, ◌↔◌, [], Some, min, take, length, vec_len, vec_capacity, Contains, IfOk, OnOk, OnErr, IsErr, IsTrue};
ghost use Rattle.std.specs.Io.{WritesAtMost};
ghost use Rattle.std.specs.Io.KnownBytes.{WriteAppends};
ghost use Rattle.fact_io.specs.Faults.{Rose, next_count};
ghost use Rattle.fact_io.specs.Memory.{SinkState};

use crate::OutOfMemory;
use crate::calls::{count_call, count_fault};
use crate::sink::{Sink, WriteFailed};
use std::alloc::Global;
use std::marker::Model;

/// Bytes in memory that are written in pieces, up to a room, by calls of which some are to fail.
#[derive(Drop)]
pub struct BytesSink {
    bytes: Vec<u8>,
    room: usize,
    piece: usize,
    failing: Vec<u64>,
    calls: u64,
    faults: u64,
}

impl Model for BytesSink {
    ghost Value = { SinkState };

    ghost view = { λ s. record {
      written = s.bytes.items;
      room = s.room - vec_len s.bytes;
      piece = s.piece;
      failing = s.failing.items;
      calls = s.calls;
      faults = s.faults;
    } };

    ghost invariant = { λ s.
        (vec_len s.bytes ≤ s.room) × (s.room ≤ vec_capacity s.bytes) × (1 ≤ s.piece) };
}

impl BytesSink {
    /// An empty sink with room for `room` bytes, of which a write takes at most `piece`. The writes whose numbers,
    /// counted from 1, are in `failing` are to fail. All its memory is taken here, so a write takes none.
    pub fn new(
        alloc: Global,
        room: usize,
        piece: usize,
        failing: Vec<u64>,
    ) -> Result<BytesSink, OutOfMemory>
        requires { 1 ≤ piece }
        ensures { IfOk result (λ s. s ≡ record {
          written = [];
          room = room;
          piece = piece;
          failing = failing.items;
          calls = 0;
          faults = 0;
        }) }
    {
        let bytes = Vec::with_capacity(alloc, room)?;
        Ok(BytesSink {
            bytes,
            room,
            piece,
            failing,
            calls: 0,
            faults: 0,
        })
    }

    /// The bytes that were written.
    pub fn written(&self) -> &[u8]
        ensures { result.now ≡ self.now.written }
    {
        &self.bytes
    }
}

impl Sink for BytesSink {
    ghost written = { λ s. Some s.written };

    ghost faults = { λ s. s.faults };

    fn write(&mut self, piece: &[u8]) -> Result<usize, WriteFailed>
        ensures bound { WritesAtMost result piece.now }
        ensures some { IfOk result (λ n. 0 < length piece.now → 1 ≤ n) }
        ensures bytes { WriteAppends (Some self.old.written) (Some self.new.written) result piece.now }
        ensures rose { OnErr result (Rose self.old.faults self.new.faults) }
        ensures no_fault { OnOk result (self.new.faults ≡ self.old.faults) }
        ensures never_falls { self.old.faults ≤ self.new.faults }

        // Exactly the listed calls fail, and those that have bytes to write and no room for them. Each other call takes
        // all that it may.
        ensures fails { IsErr result ↔
            (Contains self.old.failing (self.old.calls + 1)
            ⊎ ((0 < length piece.now) × (self.old.room ≡ 0))) }
        ensures count { IfOk result (λ n.
            n ≡ min (length piece.now) (min self.old.piece self.old.room)) }

        // What a call changes.
        ensures ok { IfOk result (λ n. self.new ≡ record self.old {
          written = self.old.written ++ take n piece.now;
          room = self.old.room - n;
          calls = next_count self.old.calls;
        }) }
        ensures err { OnErr result (self.new ≡ record self.old {
          calls = next_count self.old.calls;
          faults = next_count self.old.faults;
        }) }
    {
        let is_listed = count_call(&mut self.calls, &self.failing);
        let room = self.room - self.bytes.len();
        if is_refused(is_listed, room, piece) {
            count_fault(&mut self.faults);
            return Err(WriteFailed);
        }
        let count = piece.len().min(self.piece).min(room);
        self.bytes.extend_from_slice(&piece[..count]).unwrap();
        Ok(count)
    }
}

/// Whether a call fails: its number is a listed one, or there is no room for its bytes.
fn is_refused(is_listed: bool, room: usize, piece: &[u8]) -> bool
    ensures { IsTrue result ↔ (IsTrue is_listed ⊎ ((0 < length piece.now) × (room ≡ 0))) }
{
    is_listed || (room == 0 && !piece.is_empty())
}
