//! How a run ends, and the exit status that says so.
ghost use Rattle.std.specs.Prelude.{◌≡◌};
ghost use Rattle.answers.specs.Status.{status_code};

/// How a run ended.
#[derive(Clone, Copy, Debug, PartialEq, Eq)]
pub enum Status {
    /// The answer is yes: what is judged is accepted, or what is asked for was found or made, or can't be bettered.
    Yes,
    /// The answer is no: the schedule or the log isn't accepted.
    No,
    /// The words of the command line are no command.
    Words,
    /// A file is refused, or its rows are too many, or a number of `part` or of slots is none of its league.
    File,
    /// The log that is written proves that there is no schedule such as was asked for.
    Refuted,
    /// A budget is spent, and what was learnt is written.
    Spent,
    /// A file could not be read.
    ReadFault,
    /// The text could not be written whole.
    WriteFault,
    /// Memory ran out.
    Memory,
    /// A schedule that costs less was found, and is written.
    Better,
}

/// The exit status of the process, from 0 to 9 in the order of `Status`.
pub fn code(status: Status) -> u8
    ensures { result ≡ status_code status }
{
    status as u8
}
