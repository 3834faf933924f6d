//! The text of a certificate, read.
ghost use Rattle.std.specs.Prelude.{◌≡◌};
ghost use Rattle.refutation.specs.Answers.{SaysLog};
ghost use Rattle.refutation.specs.Logs.{lines_of};
ghost use Rattle.bounds.specs.Answers.{SaysCertificate};
ghost use Rattle.bounds.specs.Certificates as texts;

use crate::certificate::Certificate;
use memchr::memchr;
use refutation::{Log, LogFault, LogFeed, LogKind};
use robin_io::decimal;
use std::alloc::Global;

/// The certificate that a text writes. The first line states the bound, and behind it stands the log, whose first line
/// has the number 2; where the bound is 0, nothing.
///
/// # Errors
/// `Form` with the kind and the line of the text's first fault: NoEnd in line 1 where no LF ends it, BadLine in line 1
/// where it states no bound, BadLine in line 2 where something follows a bound of 0, and else the log's. `Mem` where
/// memory runs out.
pub fn read_certificate(alloc: Global, bytes: &[u8]) -> Result<Certificate, LogFault>
    ensures { SaysCertificate (texts.certificate_of bytes.now) result }
{
    let Some(at) = memchr(b'\n', bytes) else {
        return Err(LogFault::Form {
            kind: LogKind::NoEnd,
            line: 1,
        });
    };
    let Some(bound) = bound_of(&bytes[..at]) else {
        return Err(LogFault::Form {
            kind: LogKind::BadLine,
            line: 1,
        });
    };
    let log = log_behind(alloc, bound, &bytes[at + 1..])?;
    Ok(Certificate { bound, log })
}

/// The bound that a first line states.
fn bound_of(line: &[u8]) -> Option<u64>
    ensures { result ≡ texts.bound_of line.now }
{
    let Some(digits) = line.strip_prefix(b"bound ") else {
        return None;
    };
    number_of(digits)
}

/// The number that bytes write in decimal digits: a number with a leading zero, or past 64 bits, is none.
fn number_of(bytes: &[u8]) -> Option<u64>
    ensures { result ≡ texts.number_in bytes.now }
{
    match bytes {
        [b'0', _, ..] => None,
        digits => decimal(digits).ok(),
    }
}

/// The log behind a first line that states a bound.
fn log_behind(alloc: Global, bound: u64, rest: &[u8]) -> Result<Log, LogFault>
    ensures { SaysLog (texts.log_behind bound (lines_of rest.now)) result }
{
    if bound > 0 {
        return later_log(alloc, rest);
    }
    if !rest.is_empty() {
        return Err(LogFault::Form {
            kind: LogKind::BadLine,
            line: 2,
        });
    }
    Ok(Log::new(alloc))
}

/// The log that a text writes whose first line has the number 2.
fn later_log(alloc: Global, rest: &[u8]) -> Result<Log, LogFault>
    ensures { SaysLog (texts.later_log (lines_of rest.now)) result }
{
    let mut reader = LogFeed::at_line(alloc, 2);
    let mut steps = Log::new(alloc);
    reader.feed(rest, &mut steps)?;
    reader.finish()?;
    Ok(steps)
}
