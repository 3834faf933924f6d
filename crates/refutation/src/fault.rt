//! What is wrong with the text of a log.
ghost use Rattle.std.specs.Prelude.{◌≡◌};
ghost use Rattle.refutation.specs.declared.fault.LogFault.TheVariants as faults;
ghost use Rattle.refutation.specs.declared.fault.Stop.TheVariants as stops;

use std::alloc::{AllocError, AllocFailed};
use thiserror::Error;

/// What is wrong with a line of a log.
#[derive(Clone, Copy, Debug, PartialEq, Eq, Error)]
pub enum LogKind {
    /// The line isn't written as it has to be.
    #[error("a line is malformed")]
    BadLine,
    /// A literal's variable is above 2,147,483,647, or another number above 18,446,744,073,709,551,615.
    #[error("a number is too large")]
    BadNumber,
    /// The text ends before the line that has to end it.
    #[error("the log has no end")]
    NoEnd,
    /// The line has more than 16,777,216 bytes before its LF.
    #[error("a line is too long")]
    TooLong,
}

/// Why bytes are no log.
#[derive(Debug, Drop, PartialEq, Eq, Error)]
pub enum LogFault {
    /// The first fault of the text, in the line with this number, from 1.
    #[error("line {line}: {kind}")]
    Form { kind: LogKind, line: u64 },
    /// Memory ran out.
    #[error("out of memory")]
    Mem,
}

impl From<AllocError> for LogFault {
    ghost from_gives = { λ _ fault. fault ≡ faults.Mem };

    fn from(_error: AllocError) -> LogFault {
        LogFault::Mem
    }
}

/// Why a line can't be read. Its number is known to the caller.
#[derive(Clone, Copy)]
pub(crate) enum Stop {
    /// The line has this fault.
    Form(LogKind),
    /// Memory ran out.
    Mem,
}

impl From<LogKind> for Stop {
    ghost from_gives = { λ kind stop. stop ≡ stops.Form kind };

    fn from(kind: LogKind) -> Stop {
        Stop::Form(kind)
    }
}

impl From<AllocError> for Stop {
    ghost from_gives = { λ _ stop. stop ≡ stops.Mem };

    fn from(_error: AllocError) -> Stop {
        Stop::Mem
    }
}

impl<T: Drop> From<AllocFailed<T>> for Stop {
    ghost from_gives = { λ _ stop. stop ≡ stops.Mem };

    fn from(_failed: AllocFailed<T>) -> Stop {
        Stop::Mem
    }
}
