// Where a reader of a log is, and how it goes on.
ghost use Rattle.std.specs.Prelude.{◌≡◌, ◌+◌, ◌<◌, ◌≤◌, ◌^◌, ◌++◌, ◌∷◌, [], false, None, ℕ, List, OnOk, IfOk, length};
ghost use Rattle.std.specs.Str.{byte};
ghost use Rattle.refutation.specs.Steps.{Step};
ghost use Rattle.refutation.specs.Logs.{line_of};
ghost use Rattle.refutation.specs.Places.{log_from, start_at};
ghost use Rattle.refutation.specs.Cuts.{Lacks};
ghost use Rattle.refutation.specs.Answers.{Finishes};
ghost use Rattle.refutation.specs.Feeding.{ReadsOn};
ghost use Rattle.refutation.specs.Fronts.{ReadsFront};
ghost use Rattle.refutation.specs.SeenPlace.{GivesOutcome, IsPlace, IsSameButText, SaysOutcome};
ghost use Rattle.refutation.specs.SeenPlace.{is_line_feed, next_place, place_of};

use crate::fault::{LogFault, LogKind, Stop};
use crate::line::{LineKind, MOST_BYTES, Room, read_line};
use crate::log::Log;
use crate::version::Version;
use memchr::memchr;
use std::alloc::{AllocError, Global};

/// Where a reader is: the number of its line, that line's bytes so far, the version once it is known, whether `end`
/// was read, and the first fault with its line.
#[derive(Drop)]
pub(crate) struct Place {
    pub line: u64,
    pub text: Vec<u8>,
    pub version: Option<Version>,
    pub ended: bool,
    pub fault: Option<(LogKind, u64)>,
}

/// What a whole line did.
#[derive(Clone, Copy)]
pub(crate) enum Outcome {
    Heading(Version),
    End,
    Step,
    Fault(LogKind),
}

/// The outcome of a line, where memory sufficed.
fn outcome_of(read: Result<LineKind, Stop>) -> Result<Outcome, AllocError>
    ensures { IfOk result (λ outcome. GivesOutcome read outcome) }
{
    match read {
        Ok(LineKind::Heading(version)) => Ok(Outcome::Heading(version)),
        Ok(LineKind::End) => Ok(Outcome::End),
        Ok(LineKind::Step) => Ok(Outcome::Step),
        Err(Stop::Form(kind)) => Ok(Outcome::Fault(kind)),
        Err(Stop::Mem) => Err(AllocError),
    }
}

impl Place {
    /// In front of a log whose first line has this number.
    pub(crate) fn new(alloc: Global, line: u64) -> Place
        ensures { place_of result ≡ start_at line }
    {
        Place {
            line,
            text: Vec::new(alloc),
            version: None,
            ended: false,
            fault: None,
        }
    }

    /// Notes a fault of this line. Its bytes are no longer wanted.
    fn stop(&mut self, kind: LogKind)
        ensures { place_of self.new ≡ next_place (place_of self.old) (Outcome.Fault kind) }
    {
        self.fault = Some((kind, self.line));
        self.text.clear();
    }

    /// Keeps bytes of a line whose LF hasn't come: never more than the most bytes of a line.
    fn keep(&mut self, front: &[u8]) -> Result<(), AllocError>
        requires place { IsPlace (place_of self.old) }
        requires front { Lacks is_line_feed front.now }
        ensures place { IsPlace (place_of self.new) }
        ensures line { self.new.line ≡ self.old.line }
        ensures read { OnOk result ((rest : List ℕ)
            → log_from (place_of self.old) (front.now ++ rest) ≡ log_from (place_of self.new) rest) }
    {
        if self.fault.is_some() || front.is_empty() {
            return Ok(());
        }
        if self.ended {
            self.stop(LogKind::BadLine);
            return Ok(());
        }
        if front.len() > MOST_BYTES - self.text.len() {
            self.stop(LogKind::TooLong);
            return Ok(());
        }
        self.text.extend_from_slice(front)
    }

    /// Goes on behind a line.
    fn go_on(&mut self, outcome: Outcome)
        requires line { self.old.line + 1 < 2 ^ 64 }
        requires text { self.old.text.items ≡ [] }
        ensures { place_of self.new ≡ next_place (place_of self.old) outcome }
    {
        match outcome {
            Outcome::Heading(version) => {
                self.version = Some(version);
                self.line += 1;
            }
            Outcome::End => {
                self.ended = true;
                self.line += 1;
            }
            Outcome::Step => self.line += 1,
            Outcome::Fault(kind) => self.fault = Some((kind, self.line)),
        }
    }

    /// Reads the line that these bytes end, where it lies whole in them without a copy.
    fn whole_line(
        &mut self,
        front: &[u8],
        room: &mut Room,
        steps: &mut Log,
    ) -> Result<Outcome, AllocError>
        requires place { IsPlace (place_of self.old) }
        requires front { Lacks is_line_feed front.now }
        ensures place { IsPlace (place_of self.new) }
        ensures kept { IsSameButText (place_of self.old) (place_of self.new) }
        ensures read { IfOk result (λ outcome.
            SaysOutcome (line_of self.old.version (self.old.text.items ++ front.now)) outcome steps.old steps.new) }
    {
        if self.text.is_empty() {
            return outcome_of(read_line(self.version, front, room, steps));
        }
        if front.len() > MOST_BYTES - self.text.len() {
            return Ok(Outcome::Fault(LogKind::TooLong));
        }
        self.text.extend_from_slice(front)?;
        outcome_of(read_line(self.version, &self.text, room, steps))
    }

    /// Reads on over these bytes and the LF behind them.
    fn end_line(&mut self, front: &[u8], room: &mut Room, steps: &mut Log) -> Result<(), AllocError>
        requires line { self.old.line + 1 < 2 ^ 64 }
        requires place { IsPlace (place_of self.old) }
        requires front { Lacks is_line_feed front.now }
        ensures place { IsPlace (place_of self.new) }
        ensures line { self.new.line ≤ self.old.line + 1 }
        ensures read { OnOk result
            (ReadsOn (place_of self.old) steps.old (front.now ++ 10 ∷ []) (place_of self.new) steps.new) }
    {
        if self.fault.is_some() {
            return Ok(());
        }
        if self.ended {
            self.stop(LogKind::BadLine);
            return Ok(());
        }
        let read = self.whole_line(front, room, steps);
        self.text.clear();
        self.go_on(read?);
        Ok(())
    }

    /// Reads on over the lines in front that are steps as a log's text has them, and gives what is behind them.
    fn plain_lines<'a>(&mut self, bytes: &'a [u8], steps: &mut Log) -> Result<&'a [u8], AllocError>
        requires line { self.old.line + length bytes.now < 2 ^ 64 }
        requires place { IsPlace (place_of self.old) }
        ensures place { IsPlace (place_of self.new) }
        ensures line { self.new.line ≤ self.old.line + length bytes.now }
        ensures read { IfOk result (λ left.
            ReadsFront (place_of self.old) steps.old bytes.now left.now (place_of self.new) steps.new) }
    {
        if self.fault.is_some() || self.ended || !self.text.is_empty() {
            return Ok(bytes);
        }
        let Some(version) = self.version else {
            return Ok(bytes);
        };
        let mut rest = bytes;
        'lines: loop {
            let Some(left) = steps.push_line(version, rest)? else {
                return Ok(rest);
            };
            self.line += 1;
            rest = left;
        }
    }

    /// Reads on over a piece.
    pub(crate) fn feed(
        &mut self,
        piece: &[u8],
        room: &mut Room,
        steps: &mut Log,
    ) -> Result<(), AllocError>
        requires line { self.old.line + length piece.now < 2 ^ 64 }
        requires place { IsPlace (place_of self.old) }
        ensures place { IsPlace (place_of self.new) }
        ensures line { self.new.line ≤ self.old.line + length piece.now }
        ensures read { OnOk result (ReadsOn (place_of self.old) steps.old piece.now (place_of self.new) steps.new) }
    {
        let mut rest = self.plain_lines(piece, steps)?;
        'lines: while let Some(at) = memchr(b'\n', rest) {
            self.end_line(&rest[..at], room, steps)?;
            rest = self.plain_lines(&rest[at + 1..], steps)?;
        }
        self.keep(rest)
    }

    /// The end of the text here.
    pub(crate) fn finish(&self) -> Result<(), LogFault>
        requires { IsPlace (place_of self.now) }
        ensures { Finishes (log_from (place_of self.now) []) result }
    {
        if let Some((kind, line)) = self.fault {
            return Err(LogFault::Form { kind, line });
        }
        if self.ended {
            return Ok(());
        }
        Err(LogFault::Form {
            kind: LogKind::NoEnd,
            line: self.line,
        })
    }
}
