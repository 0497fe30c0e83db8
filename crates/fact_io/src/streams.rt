//! Readers and writers of `std::io`, and among them the standard streams.

ghost use Rattle.std.specs.Prelude.{◌≡◌, ◌≤◌, ◌<◌, length, IfOk, OnOk, OnErr};
ghost use Rattle.std.specs.Io.{ReadsAtMost, WritesAtMost};
ghost use Rattle.std.specs.Io.KnownBytes.{ReadConsumes, WriteAppends};
ghost use Rattle.fact_io.specs.Faults.{Rose, next_count};
ghost use Rattle.fact_io.specs.Streams.{ReaderState, WriterState};

use crate::calls::count_fault;
use crate::sink::{Sink, WriteFailed};
use crate::source::{ReadFailed, Source};
use std::io::{Read, Stderr, Stdin, Stdout, Write};
use std::marker::Model;

/// A reader as a source. It tells the bytes that the reader tells.
#[derive(Drop)]
pub struct ReaderSource<R: Read> {
    reader: R,
    faults: u64,
}

impl<R: Read> Model for ReaderSource<R> {
    ghost Value = { ReaderState };

    ghost view = { λ s. record { left = R.remaining s.reader; faults = s.faults } };
}

impl<R: Read> ReaderSource<R> {
    /// A source over `reader`, with no fault so far.
    pub fn new(reader: R) -> ReaderSource<R>
        ensures { result ≡ record { left = R.remaining reader; faults = 0 } }
    {
        ReaderSource { reader, faults: 0 }
    }
}

impl<R: Read> Source for ReaderSource<R> {
    ghost left = { λ s. s.left };

    ghost faults = { λ s. s.faults };

    /// Each error of the reader counts as a fault, also where it was interrupted.
    fn read(&mut self, buf: &mut [u8]) -> Result<usize, ReadFailed>
        ensures bound { ReadsAtMost result buf.new }
        ensures bytes { ReadConsumes self.old.left self.new.left result buf.new }
        ensures rose { OnErr result (Rose self.old.faults self.new.faults) }
        ensures no_fault { OnOk result (self.new.faults ≡ self.old.faults) }
        ensures never_falls { self.old.faults ≤ self.new.faults }
        ensures err { OnErr result (self.new.faults ≡ next_count self.old.faults) }
    {
        match self.reader.read(buf) {
            Ok(count) => Ok(count),
            Err(_) => {
                count_fault(&mut self.faults);
                Err(ReadFailed)
            }
        }
    }
}

/// A writer as a sink. It tells the bytes that the writer tells.
#[derive(Drop)]
pub struct WriterSink<W: Write> {
    writer: W,
    faults: u64,
}

impl<W: Write> Model for WriterSink<W> {
    ghost Value = { WriterState };

    ghost view = { λ s. record { written = W.contents s.writer; faults = s.faults } };
}

impl<W: Write> WriterSink<W> {
    /// A sink over `writer`, with no fault so far.
    pub fn new(writer: W) -> WriterSink<W>
        ensures { result ≡ record { written = W.contents writer; faults = 0 } }
    {
        WriterSink { writer, faults: 0 }
    }
}

impl<W: Write> Sink for WriterSink<W> {
    ghost written = { λ s. s.written };

    ghost faults = { λ s. s.faults };

    /// Each error of the writer counts as a fault, also where it was interrupted, and so does a write that takes nothing
    /// of a piece that is not empty.
    fn write(&mut self, piece: &[u8]) -> Result<usize, WriteFailed>
        ensures bound { WritesAtMost result piece.now }
        ensures some { IfOk result (λ n. 0 < length piece.now → 1 ≤ n) }
        ensures bytes { WriteAppends self.old.written self.new.written result piece.now }
        ensures rose { OnErr result (Rose self.old.faults self.new.faults) }
        ensures no_fault { OnOk result (self.new.faults ≡ self.old.faults) }
        ensures never_falls { self.old.faults ≤ self.new.faults }
        ensures err { OnErr result (self.new.faults ≡ next_count self.old.faults) }
    {
        match self.writer.write(piece) {
            Ok(count) if count > 0 || piece.is_empty() => Ok(count),
            _ => {
                count_fault(&mut self.faults);
                Err(WriteFailed)
            }
        }
    }
}

/// Standard input as a source. It tells no bytes.
pub type StdinSource = ReaderSource<Stdin>;

/// Standard output as a sink. It tells no bytes.
pub type StdoutSink = WriterSink<Stdout>;

/// Standard error as a sink. It tells no bytes.
pub type StderrSink = WriterSink<Stderr>;
