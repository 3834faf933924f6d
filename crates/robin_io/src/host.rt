// The machine's files and its standard output: the trusted edge. What they give and keep is outside any proof.
ghost use Rattle.std.specs.Prelude.{◌≡◌, ◌↔◌, ◌-◌, ◌^◌, ◌<◌, ◌≤◌, ℕ, List, None, length, take};
ghost use Rattle.std.specs.Prelude.{IsErr, IsSome, IsNone, IsSomeAnd, IfOk, OnOk, OnErr, MatchResult};
ghost use Rattle.std.specs.Option.{option_and_then};
ghost use Rattle.std.specs.Io.KnownBytes.{Keeps, Appends, Consumes, IsAtEnd};
ghost use Rattle.robin_io.specs.Counts.{raised, HasCause, HasOneCause};
ghost use Rattle.robin_io.specs.HostFields.{reader_of, bytes_taken, files_failed, writer_of, writes_failed};

use crate::{Failed, Shelf, Sink};
use std::fs;
use std::io::{self, Read, Write};
use std::rt::Files;

/// The files of the machine. It tells no bytes, and keeps one count of faults for all names.
#[derive(Drop)]
pub struct HostShelf<R: Files> {
    rt: R,
    file: Option<R::File>,
    taken: u64,
    faults: u64,
    reason: Option<&'static str>,
}

impl<R: Files> HostShelf<R> {
    /// No file is started, and nothing has failed.
    pub fn new(rt: R) -> Self
        ensures taken { ⟦<HostShelf<R> as Shelf>⟧.taken result ≡ 0 }
        ensures faults { (n : List ℕ) → ⟦<HostShelf<R> as Shelf>⟧.faults result n ≡ 0 }
        ensures started { IsNone (reader_of result) }
    {
        HostShelf {
            rt,
            file: None,
            taken: 0,
            faults: 0,
            reason: None,
        }
    }
}

/// Why the system failed, in words, where it is one of the usual reasons.
fn reason_of(error: &io::Error) -> Option<&'static str> {
    match error.kind() {
        io::ErrorKind::NotFound => Some("there is no such file"),
        io::ErrorKind::PermissionDenied => Some("it may not be read"),
        io::ErrorKind::IsADirectory => Some("it is a folder"),
        io::ErrorKind::NotADirectory => Some("its path leads through what is no folder"),
        io::ErrorKind::OutOfMemory => Some("memory ran out"),
        _ => None,
    }
}

/// Keeps what was opened as the started file, with nothing read of it. Where it can't be opened, no file is started.
fn keep_opened<F: Read + Drop>(
    opened: io::Result<F>,
    kept: &mut Option<F>,
) -> Result<(), Option<&'static str>>
    ensures failed { IsErr result ↔ IsErr opened }
    ensures unread { IfOk opened (λ file. IsSomeAnd kept.new (λ reader. F.remaining reader ≡ F.remaining file)) }
    ensures started { MatchResult result (λ _. IsSome kept.new) (λ _. IsNone kept.new) }
{
    match opened {
        Ok(file) => {
            *kept = Some(file);
            Ok(())
        }
        Err(error) => {
            *kept = None;
            Err(reason_of(&error))
        }
    }
}

impl<R: Files> Shelf for HostShelf<R> {
    ghost contents = { λ s name. None };

    ghost started = { λ s name. IsSome (reader_of s) };

    ghost left = { λ s. None };

    ghost taken = { bytes_taken };

    ghost faults = { λ s name. files_failed s };

    // The clauses of the trait, and then how faults are counted: a file that can't be opened drops the one before.
    fn start(&mut self, name: &str) -> Result<(), Failed>
        ensures started { OnOk result (IsSome (reader_of self.new)) }
        ensures taken { bytes_taken self.new ≡ bytes_taken self.old }
        ensures last { bytes_taken self.new ≤ 2 ^ 64 - 1 }
        ensures cause { HasCause (λ _. files_failed self.old) (λ _. files_failed self.new) name.now result }

        ensures faults { MatchResult result
            (λ _. files_failed self.new ≡ files_failed self.old)
            (λ _. files_failed self.new ≡ raised (files_failed self.old) 1) }
        ensures stopped { OnErr result (IsNone (reader_of self.new)) }
    {
        // A field behind a `&mut` has its type's range only once it is read, and `last` needs it.
        let _taken = self.taken;
        match keep_opened(fs::open(&self.rt, name), &mut self.file) {
            Ok(()) => Ok(()),
            Err(reason) => {
                self.reason = reason;
                self.faults = self.faults.saturating_add(1);
                Err(Failed)
            }
        }
    }

    // The clauses of the trait, and that the room gets what the file's reader gives.
    fn take(&mut self, name: &str, room: &mut [u8]) -> Result<usize, Failed>
        requires { IsSome (reader_of self.old) }
        ensures started { IsSome (reader_of self.new) }
        ensures count { IfOk result (λ k. k ≤ length room.new) }
        ensures taken { IfOk result (λ k. bytes_taken self.new ≡ raised (bytes_taken self.old) k) }
        ensures err { OnErr result (bytes_taken self.new ≡ bytes_taken self.old) }
        ensures kept { OnErr result (Keeps
            (option_and_then R.File.remaining (reader_of self.old))
            (option_and_then R.File.remaining (reader_of self.new))) }
        ensures cause { HasCause (λ _. files_failed self.old) (λ _. files_failed self.new) name.now result }

        ensures faults { MatchResult result
            (λ _. files_failed self.new ≡ files_failed self.old)
            (λ _. files_failed self.new ≡ raised (files_failed self.old) 1) }
        ensures given { IfOk result (λ k. Consumes
            (option_and_then R.File.remaining (reader_of self.old))
            (option_and_then R.File.remaining (reader_of self.new)) (take k room.new)) }
        ensures end { IfOk result (λ k. k ≡ 0 → 0 < length room.new →
            IsAtEnd (option_and_then R.File.remaining (reader_of self.new))) }
    {
        match &mut self.file {
            None => unreachable!(),
            Some(file) => match file.read(room) {
                Ok(count) => {
                    self.taken = self.taken.saturating_add(count as u64);
                    Ok(count)
                }
                Err(error) => {
                    self.reason = reason_of(&error);
                    self.faults = self.faults.saturating_add(1);
                    Err(Failed)
                }
            },
        }
    }

    fn reason(&self) -> Option<&'static str> {
        self.reason
    }
}

/// A writer of the machine, such as standard output. It tells no bytes.
#[derive(Drop)]
pub struct HostSink<W: Write> {
    out: W,
    faults: u64,
}

impl<W: Write> HostSink<W> {
    /// Nothing has failed, and nothing is put to the writer.
    pub fn new(out: W) -> Self
        ensures faults { ⟦<HostSink<W> as Sink>⟧.faults result ≡ 0 }
        ensures kept { Keeps (W.contents out) (W.contents (writer_of result)) }
    {
        HostSink { out, faults: 0 }
    }
}

impl<W: Write> Sink for HostSink<W> {
    ghost written = { λ s. None };

    ghost faults = { writes_failed };

    // A write that takes nothing of a piece that isn't empty counts as a fault.
    // The clauses of the trait, and then how faults are counted, and that the writer gets what is put.
    fn put(&mut self, piece: &[u8]) -> Result<usize, Failed>
        ensures most { IfOk result (λ k. k ≤ length piece.now) }
        ensures some { IfOk result (λ k. 0 < length piece.now → 0 < k) }
        ensures cause { HasOneCause (writes_failed self.old) (writes_failed self.new) result }

        ensures faults { MatchResult result
            (λ _. writes_failed self.new ≡ writes_failed self.old)
            (λ _. writes_failed self.new ≡ raised (writes_failed self.old) 1) }
        ensures handed_on { IfOk result (λ k.
            Appends (W.contents (writer_of self.old)) (W.contents (writer_of self.new)) (take k piece.now)) }
        ensures kept { OnErr result (Keeps (W.contents (writer_of self.old)) (W.contents (writer_of self.new))) }
    {
        match self.out.write(piece) {
            Ok(count) if count > 0 || piece.is_empty() => Ok(count),
            _ => {
                self.faults = self.faults.saturating_add(1);
                Err(Failed)
            }
        }
    }
}
