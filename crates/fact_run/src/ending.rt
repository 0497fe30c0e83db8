//! An end of a run with its line.

ghost use Rattle.std.specs.Prelude.{◌≡◌, Some, option_map, string_bytes};
ghost use Rattle.fact_run.specs.Replies.{line_in};

use fact_command::Status;

/// How a run ended, and the line that tells it where that names what the input holds.
#[derive(Drop)]
pub struct Ending {
    pub status: Status,
    pub told: Option<String>,
}

impl Ending {
    /// An end that is told alike for every input.
    pub fn of(status: Status) -> Ending
        ensures { result ≡ record { status = status; told = None } }
    {
        Ending { status, told: None }
    }

    /// An end that is told by a line of its own.
    pub fn telling(status: Status, line: String) -> Ending
        ensures { result ≡ record { status = status; told = Some line } }
    {
        Ending {
            status,
            told: Some(line),
        }
    }

    /// The line, with its newline.
    pub fn line(&self) -> &str
        ensures { result.now ≡ line_in self.now.status (option_map string_bytes self.now.told) }
    {
        match &self.told {
            Some(line) => line.as_str(),
            None => self.status.line(),
        }
    }
}
