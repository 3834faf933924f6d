//! Drafts: new files, each of which takes the place of another file once its text is whole.
ghost use Rattle.std.specs.Prelude.{◌≡◌, ◌<◌, ◌≤◌, None, length, take, string_bytes};
ghost use Rattle.std.specs.Prelude.{IfOk, IsSome, OnOk, OnErr, MatchResult};
ghost use Rattle.std.specs.Io.KnownBytes.{Appends, Keeps};
ghost use Rattle.robin_io.specs.Counts.{raised};
ghost use Rattle.robin_host.specs.DraftFields.{draft_faults, draft_file};
ghost use Rattle.robin_host.specs.Names.{IsDraftOf};

use crate::names::draft_name;
use crate::reasons::{NO_MEMORY, reason_of};
use robin_io::{Failed, Sink};
use std::alloc::Global;
use std::fs::{self, Files, Metadata, OpenFile, OpenOptions};
use std::io::{self, Write};

/// At most so many names are tried for a new file.
const MOST_NAMES: u64 = 1000;

/// A new file, which is there already.
#[derive(Drop)]
struct Begun<F> {
    file: F,
    name: String,
}

/// A new file beside another one, in whose place it is to come. It is made at the first bytes that are put.
#[derive(Drop)]
pub struct Draft<'a, R: Files> {
    rt: &'a R,
    alloc: Global,
    target: &'a str,
    begun: Option<Begun<R::File>>,
    faults: u64,
    reason: &'static str,
}

/// Whether this user may write a file that is there.
fn is_writable<R: Files>(rt: &R, target: &str, found: &Metadata) -> bool {
    let mut how = OpenOptions::new();
    how.write(true);
    !found.permissions().readonly() && how.open(rt, target).is_ok()
}

/// What stands where a text is to be put: nothing, or a file that may be replaced.
fn look<R: Files>(rt: &R, target: &str) -> Result<Option<Metadata>, &'static str> {
    match fs::symlink_metadata(rt, target) {
        Ok(found) if found.is_dir() => Err("it is a folder"),
        Ok(found) if !found.is_file() => Err("it is a link or a device, and no plain file"),
        Ok(found) if !is_writable(rt, target, &found) => Err("it may not be written"),
        Ok(found) => Ok(Some(found)),
        Err(error) if error.kind() == io::ErrorKind::NotFound => Ok(None),
        Err(error) => Err(reason_of(&error)),
    }
}

/// Makes a file that wasn't there, of a name that no other process has made.
fn make<R: Files>(rt: &R, alloc: Global, target: &str) -> Result<Begun<R::File>, &'static str>
    ensures { IfOk result (λ begun. IsDraftOf target.now (string_bytes begun.name)) }
{
    let mut how = OpenOptions::new();
    how.write(true).create_new(true);
    for number in 0..MOST_NAMES {
        let Ok(name) = draft_name(alloc, target, number) else {
            return Err(NO_MEMORY);
        };
        match how.open(rt, name.as_str()) {
            Ok(file) => return Ok(Begun { file, name }),
            Err(error) if error.kind() == io::ErrorKind::AlreadyExists => {}
            Err(error) => return Err(reason_of(&error)),
        }
    }
    Err("too many new files stand beside it, whose names end in .robin- and a number")
}

/// Makes a new file beside a file, with the permissions of that one, where it is there.
fn begin<R: Files>(rt: &R, alloc: Global, target: &str) -> Result<Begun<R::File>, &'static str>
    ensures { IfOk result (λ begun. IsDraftOf target.now (string_bytes begun.name)) }
{
    let found = look(rt, target)?;
    let begun = make(rt, alloc, target)?;
    if let Some(found) = found {
        // A file that can't be given them is as private as a new one.
        let _given = begun.file.set_permissions(found.permissions());
    }
    Ok(begun)
}

/// Writes bytes from the front of a piece, at least one where there is one.
fn put_to<W: Write>(out: &mut W, piece: &[u8]) -> Result<usize, &'static str>
    ensures most { IfOk result (λ k. k ≤ length piece.now) }
    ensures some { IfOk result (λ k. 0 < length piece.now → 0 < k) }
    ensures handed_on { IfOk result (λ k. Appends (W.contents out.old) (W.contents out.new) (take k piece.now)) }
    ensures kept { OnErr result (Keeps (W.contents out.old) (W.contents out.new)) }
{
    match out.write(piece) {
        Ok(count) if count > 0 || piece.is_empty() => Ok(count),
        Ok(_) => Err("the disk is full"),
        Err(error) => Err(reason_of(&error)),
    }
}

/// Writes bytes from the front of a piece into a new file that is made.
fn put_begun<F: Write>(begun: &mut Option<Begun<F>>, piece: &[u8]) -> Result<usize, &'static str>
    requires { IsSome begun.old }
    ensures most { IfOk result (λ k. k ≤ length piece.now) }
    ensures some { IfOk result (λ k. 0 < length piece.now → 0 < k) }
{
    match begun {
        Some(begun) => put_to(&mut begun.file, piece),
        None => unreachable!(),
    }
}

/// Brings a file whose text is whole onto the disk, and into the place of another one.
fn settle<R: Files>(rt: &R, begun: Begun<R::File>, target: &str) -> Result<(), &'static str> {
    let Begun { file, name } = begun;
    let synced = file.sync_all();
    drop(file);
    let settled = match synced {
        Ok(()) => fs::rename(rt, name.as_str(), target),
        Err(error) => Err(error),
    };
    match settled {
        Ok(()) => Ok(()),
        Err(error) => {
            let _removed = fs::remove_file(rt, name.as_str());
            Err(reason_of(&error))
        }
    }
}

impl<'a, R: Files> Draft<'a, R> {
    /// A draft of the file of this name. Nothing is made yet.
    pub fn new(rt: &'a R, alloc: Global, target: &'a str) -> Draft<'a, R>
        ensures { ⟦<Draft<'a, R> as Sink>⟧.faults result ≡ 0 }
    {
        Draft {
            rt,
            alloc,
            target,
            begun: None,
            faults: 0,
            reason: "it can't be written",
        }
    }

    /// Whether a draft can be made and can take its file's place, as things stand: it is made, and removed at once.
    ///
    /// # Errors
    /// Where it can't be made.
    pub fn check(&self) -> Result<(), &'static str> {
        let begun = begin(self.rt, self.alloc, self.target)?;
        let Begun { file, name } = begun;
        drop(file);
        let _removed = fs::remove_file(self.rt, name.as_str());
        Ok(())
    }

    /// The name of the new file, where it is made.
    pub fn name(&self) -> Option<&str> {
        match &self.begun {
            Some(begun) => Some(begun.name.as_str()),
            None => None,
        }
    }

    /// Why the last call failed that did, in words for a person.
    pub fn reason(&self) -> &'static str {
        self.reason
    }

    /// Counts a fault, and gives it.
    fn fail(&mut self, reason: &'static str) -> Failed
        ensures file { draft_file self.new ≡ draft_file self.old }
        ensures counted { draft_faults self.new ≡ raised (draft_faults self.old) 1 }
        ensures later { draft_faults self.old ≤ draft_faults self.new }
    {
        self.reason = reason;
        self.faults = self.faults.saturating_add(1);
        Failed
    }

    /// Makes the new file, where it isn't made yet.
    fn ensure_begun(&mut self) -> Result<(), Failed>
        ensures made { OnOk result (IsSome (draft_file self.new)) }
        ensures faults { MatchResult result
            (λ _. draft_faults self.new ≡ draft_faults self.old)
            (λ _. draft_faults self.new ≡ raised (draft_faults self.old) 1) }
        ensures later { draft_faults self.old ≤ draft_faults self.new }
    {
        if self.begun.is_some() {
            return Ok(());
        }
        match begin(self.rt, self.alloc, self.target) {
            Ok(begun) => {
                self.begun = Some(begun);
                Ok(())
            }
            Err(reason) => Err(self.fail(reason)),
        }
    }

    /// Puts the draft into its file's place: the text is on the disk then, where the system keeps its word.
    ///
    /// # Errors
    /// Where the system refuses it: then the file is as it was, and the draft is removed, where that can be done.
    pub fn keep(mut self) -> Result<(), &'static str> {
        if self.ensure_begun().is_err() {
            return Err(self.reason);
        }
        let Draft {
            rt,
            target,
            begun,
            ..
        } = self;
        match begun {
            Some(begun) => settle(rt, begun, target),
            None => unreachable!(),
        }
    }

    /// Removes the draft, where it was made. The file is as it was.
    pub fn leave(self) {
        let Draft { rt, begun, .. } = self;
        if let Some(Begun { file, name }) = begun {
            drop(file);
            let _removed = fs::remove_file(rt, name.as_str());
        }
    }
}

impl<R: Files> Sink for Draft<'_, R> {
    ghost written = { λ s. None };

    ghost faults = { draft_faults };

    fn put(&mut self, piece: &[u8]) -> Result<usize, Failed> {
        self.ensure_begun()?;
        match put_begun(&mut self.begun, piece) {
            Ok(count) => Ok(count),
            Err(reason) => Err(self.fail(reason)),
        }
    }
}
