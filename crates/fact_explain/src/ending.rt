//! How a run ends.

ghost use Rattle.std.specs.Prelude.{◌≡◌, IfOk, None, option_map, string_bytes};
ghost use Rattle.fact_explain.specs.Explained.{text_in, plain_line};
ghost use Rattle.fact_explain.specs.Endings.{IsTold, no_memory};

use fact_command::Status;
use fact_wasm::OutOfMemory;
use std::alloc::AllocError;

/// The line of an end that is told alike for every input: that of `run`, but for words that are no command.
pub fn plain_line(status: Status) -> &'static str
    ensures { result.now ≡ plain_line status }
{
    match status {
        Status::Usage => "usage: factplan [--wasm FILE] [--debug] [--fuel N]\n",
        told => told.line(),
    }
}

/// How a run ended, and the text that tells it where that names what the input holds.
#[derive(Drop)]
pub struct Ending {
    pub status: Status,
    pub told: Option<String>,
}

impl From<AllocError> for Ending {
    ghost from_gives = { λ _ e. e ≡ no_memory };

    fn from(_: AllocError) -> Ending {
        Ending::of(Status::OutOfMemory)
    }
}

impl Ending {
    /// An end that is told alike for every input.
    pub fn of(status: Status) -> Ending
        ensures { result ≡ record { status = status; told = None } }
    {
        Ending { status, told: None }
    }

    /// An end that is told by a line with reasons behind it.
    pub fn telling(status: Status, mut line: String, reasons: &str) -> Result<Ending, OutOfMemory>
        ensures { IfOk result (λ e. IsTold status (string_bytes line) e) }
    {
        line.push_str(reasons)?;
        Ok(Ending {
            status,
            told: Some(line),
        })
    }

    /// The text.
    pub fn text(&self) -> &str
        ensures { result.now ≡ text_in self.now.status (option_map string_bytes self.now.told) }
    {
        match &self.told {
            Some(text) => text.as_str(),
            None => plain_line(self.status),
        }
    }
}
