//! The program: reads a plan of adapters in JSON from standard input, and prints its module in hex.
#![tactic(auto)]

use fact_io::write_text;
use fact_run::{Status, StderrSink, StdinSource, StdoutSink, run};
use std::io::ErrorKind;
use std::process::ExitCode;

/// The words after the program's name. One that is not UTF-8 is no word of the command.
fn words_of(rt: &HostRuntime) -> Result<Vec<String>, Status> {
    match std::env::args(rt) {
        Ok(words) => match words.skip(1).collect(rt.alloc()) {
            Ok(words) => Ok(words),
            Err(_) => Err(Status::OutOfMemory),
        },
        Err(error) => match error.kind() {
            ErrorKind::OutOfMemory => Err(Status::OutOfMemory),
            _ => Err(Status::Usage),
        },
    }
}

fn main(rt: HostRuntime) -> ExitCode {
    let mut source = StdinSource::new(rt.stdin());
    let mut out = StdoutSink::new(rt.stdout());
    let mut err = StderrSink::new(rt.stderr());
    let status = match words_of(&rt) {
        Ok(words) => run(
            rt.alloc(),
            words.as_slice(),
            &mut source,
            &mut out,
            &mut err,
        ),
        Err(status) => {
            let _ = write_text(&mut err, status.line().as_bytes());
            status
        }
    };
    ExitCode::from(status.number())
}
