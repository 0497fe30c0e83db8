//! The program: reads a plan of adapters in JSON from standard input, and explains it to people; or writes its module as a file.
#![tactic(auto)]

use fact_explain::{explain, module_bytes, plain_line};
use fact_io::{StderrSink, StdinSource, StdoutSink, write_text};
use fact_run::Status;
use std::fs;
use std::io::ErrorKind;
use std::process::ExitCode;

/// The words after the program's name. One that is not UTF-8 is no word of the command.
fn words_of(rt: &HostRuntime) -> Result<Vec<String>, Status> {
    match std::env::args(rt) {
        Ok(words) => match words.skip(1).collect(rt.alloc()) {
            Ok(words) => Ok(words),
            Err(_) => Err(Status::OutOfMemory),
        },
        Err(error) => match error.kind() {
            ErrorKind::OutOfMemory => Err(Status::OutOfMemory),
            _ => Err(Status::Usage),
        },
    }
}

/// Writes the module of the plan as a file, where it is made.
fn write_module(
    rt: &HostRuntime,
    path: &str,
    words: &[String],
    source: &mut StdinSource,
    err: &mut StderrSink,
) -> Status {
    let bytes = match module_bytes(rt.alloc(), words, source, err) {
        Ok(bytes) => bytes,
        Err(status) => return status,
    };
    match fs::write(rt, path, bytes.as_slice()) {
        Ok(()) => Status::Done,
        Err(_) => {
            let status = Status::WriteFault;
            let _ = write_text(err, plain_line(status).as_bytes());
            status
        }
    }
}

/// Runs the words on the standard streams: where the first two are `--wasm FILE` the module is written, and else the plan explained.
fn run_words(rt: &HostRuntime, words: &[String], err: &mut StderrSink) -> Status {
    let mut source = StdinSource::new(rt.stdin());
    match words {
        [first, path, rest @ ..] if first.as_str() == "--wasm" => {
            write_module(rt, path.as_str(), rest, &mut source, err)
        }
        _ => {
            let mut out = StdoutSink::new(rt.stdout());
            explain(rt.alloc(), words, &mut source, &mut out, err)
        }
    }
}

fn main(rt: HostRuntime) -> ExitCode {
    let mut err = StderrSink::new(rt.stderr());
    let status = match words_of(&rt) {
        Ok(words) => run_words(&rt, words.as_slice(), &mut err),
        Err(status) => {
            let _ = write_text(&mut err, plain_line(status).as_bytes());
            status
        }
    };
    ExitCode::from(status.number())
}
