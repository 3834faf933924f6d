//! A log's text, read in pieces and whole.
ghost use Rattle.std.specs.Prelude.{◌≡◌, ◌+◌, ◌<◌, ◌≤◌, ◌^◌, [], ℕ, List, IfOk, IfSome, OnOk, length};
ghost use Rattle.refutation.specs.Logs.{log_of, most_bytes};
ghost use Rattle.refutation.specs.Places.{log_from, start, start_at};
ghost use Rattle.refutation.specs.Feeding.{ReadsOn};
ghost use Rattle.refutation.specs.Answers.{Finishes, SaysLog};
ghost use Rattle.refutation.specs.Writable.{IsLogText};

use crate::fault::LogFault;
use crate::line::Room;
use crate::log::Log;
use crate::place::Place;
use std::alloc::{AllocError, Global};
use std::marker::Model;

/// A reader of a log's text in pieces: seen as the number of the line that it is in, that line's bytes so far, the
/// version once line 1 was read, whether `end` was read, and the first fault, if there was one.
///
/// The reader keeps at most 16,777,216 bytes of a line that a piece leaves unfinished, and none of a line that lies
/// whole in a piece. After a fault it passes over all bytes.
pub struct LogFeed {
    at: Place,
    room: Room,
}

impl Drop for LogFeed {
    fn drop(self) {
        let LogFeed { at: _, room: _ } = self;
    }
}

impl Model for LogFeed {
    ghost use Rattle.refutation.specs.Places as places;

    ghost Value = { places.Place };

    ghost use Rattle.refutation.specs.SeenPlace.{IsPlace, place_of};

    ghost view = { λ f. place_of f.at };

    ghost invariant = { λ f. IsPlace (place_of f.at) };
}

impl LogFeed {
    /// In front of a log. It takes no memory.
    pub fn new(alloc: Global) -> LogFeed
        ensures { result ≡ start }
    {
        LogFeed::at_line(alloc, 1)
    }

    /// In front of a log whose first line has this number in the file that holds it. It takes no memory.
    pub fn at_line(alloc: Global, line: u64) -> LogFeed
        ensures { result ≡ start_at line }
    {
        LogFeed {
            at: Place::new(alloc, line),
            room: Room::new(alloc),
        }
    }

    /// The number of the line that the reader is in, or at a fault the number of its line.
    pub fn line(&self) -> u64
        ensures line { result ≡ self.now.line }
        ensures at_fault { IfSome self.now.fault (λ fault. result ≡ fault.1) }
    {
        self.at.line
    }

    /// Adds the steps of the lines that this piece ends, up to the first fault.
    ///
    /// Whatever comes behind the piece, the text is read as these steps and then as what is read from where the
    /// reader is now. So pieces that are fed in turn give what the same bytes give as one piece.
    ///
    /// # Errors
    /// Only where memory runs out. The reader and the steps are spent then: neither says anything of the text.
    pub fn feed(&mut self, piece: &[u8], steps: &mut Log) -> Result<(), AllocError>
        requires { self.old.line + length piece.now < 2 ^ 64 }
        ensures read { OnOk result (ReadsOn self.old steps.old piece.now self.new steps.new) }
        ensures line { self.new.line ≤ self.old.line + length piece.now }
        ensures kept { length self.new.text ≤ most_bytes }
    {
        self.at.feed(piece, &mut self.room, steps)
    }

    /// Ends the text here. It takes no memory.
    ///
    /// # Errors
    /// `Form` where what is read in no more bytes is a fault, with its kind and line. Never `Mem`.
    pub fn finish(self) -> Result<(), LogFault>
        ensures { Finishes (log_from self []) result }
    {
        self.at.finish()
    }
}

/// The log that a text writes.
///
/// # Errors
/// `Form` with the kind and the line of the text's first fault, or `Mem` where memory runs out.
pub fn read_log(alloc: Global, bytes: &[u8]) -> Result<Log, LogFault>
    ensures read { SaysLog (log_of bytes.now) result }

    // No text but one that is written so is a log.
    ensures one_text { IfOk result (λ log. IsLogText bytes.now log) }
{
    let mut reader = LogFeed::new(alloc);
    let mut steps = Log::new(alloc);
    reader.feed(bytes, &mut steps)?;
    reader.finish()?;
    Ok(steps)
}
