//! Where bytes come from and where they go.
//!
//! A [`Source`] gives bytes and a [`Sink`] takes them, each in pieces, and each counts the calls of it that failed.
//! [`read_all`] and [`write_text`] move a whole input and a whole text over them. [`BytesSource`] and [`BytesSink`] lie
//! in memory and fail at calls that are listed; [`ReaderSource`] and [`WriterSink`] stand over `std::io`, and
//! [`StdinSource`], [`StdoutSink`] and [`StderrSink`] are these at the standard streams.
#![tactic(auto)]

mod bytes_sink;
mod bytes_source;
mod calls;
mod sink;
mod source;
mod streams;
mod transfers;

pub use bytes_sink::BytesSink;
pub use bytes_source::BytesSource;
pub use sink::{Sink, WriteFailed};
pub use source::{ReadFailed, Source};
pub use streams::{ReaderSource, StderrSink, StdinSource, StdoutSink, WriterSink};
pub use transfers::{INPUT_LIMIT, InputError, read_all, write_text};

/// Want of memory.
pub type OutOfMemory = std::alloc::AllocError;
