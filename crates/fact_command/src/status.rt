//! How a run ends.

ghost use Rattle.std.specs.Prelude.{◌≡◌};
ghost use Rattle.fact_command.specs.Status.{line_of, exit_status_of};

/// How a run ended.
#[derive(Clone, Copy, Debug, Drop, PartialEq, Eq)]
pub enum Status {
    /// The module was printed, or the counts of the one that was generated or checked, or the call of an adapter or of two was told.
    Done,
    /// The words are no command.
    Usage,
    /// The source failed.
    ReadFault,
    /// The sink failed.
    WriteFault,
    /// The input has more bytes than it may have.
    TooLong,
    /// The input is no JSON text.
    NotJson,
    /// The input is no plan, or no input of a call or of a chain.
    BadPlan,
    /// The plan has a fault.
    Refused,
    /// The input is no hex digits.
    NotHex,
    /// The bytes spell no adapter module.
    Rejected,
    /// No sync adapter between two instances has the name.
    NotCallable,
    /// One of two names is that of no sync adapter between two instances, or the first of the two adapters does not lead to the second.
    NotChained,
    /// The arguments or the results of a call or of a chain are not of their types.
    BadValue,
    /// They are too large, too many or too heavy for a host.
    OverLimit,
    /// There was no memory.
    OutOfMemory,
}

impl Status {
    /// The exit status of the program.
    pub fn number(self) -> u8
        ensures { result ≡ exit_status_of self }
    {
        match self {
            Status::Done => 0,
            Status::Usage => 2,
            Status::ReadFault => 3,
            Status::WriteFault => 4,
            Status::TooLong => 5,
            Status::NotJson => 6,
            Status::BadPlan => 7,
            Status::Refused => 8,
            Status::OutOfMemory => 9,
            Status::NotHex => 11,
            Status::Rejected => 12,
            Status::NotCallable => 13,
            Status::BadValue => 14,
            Status::OverLimit => 15,
            Status::NotChained => 16,
        }
    }

    /// The line that tells it, with its newline, where it is the same for every input; nothing for [`Status::Done`], and
    /// for [`Status::BadPlan`], [`Status::Refused`], [`Status::Rejected`] and [`Status::BadValue`], whose lines name the fault.
    pub fn line(self) -> &'static str
        ensures { result.now ≡ line_of self }
    {
        match self {
            Status::Done
            | Status::BadPlan
            | Status::Refused
            | Status::Rejected
            | Status::BadValue => "",
            Status::Usage => {
                "usage: factc [--debug] [--fuel N] [--imports] [--generate N] [--check] [--call NAME] [--chain]\n"
            }
            Status::ReadFault => "read fault\n",
            Status::WriteFault => "write fault\n",
            Status::TooLong => "input too long\n",
            Status::NotJson => "not json\n",
            Status::NotHex => "not hex\n",
            Status::NotCallable => "not callable\n",
            Status::NotChained => "not chained\n",
            Status::OverLimit => "over limit\n",
            Status::OutOfMemory => "out of memory\n",
        }
    }
}
