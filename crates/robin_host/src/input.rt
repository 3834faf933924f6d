//! A store of files in which one name stands for standard input.
ghost use Rattle.std.specs.Prelude.{◌≡◌, ◌⊎◌, ◌-◌, ◌^◌, ◌<◌, ◌≤◌, ℕ, List, true, None, length, take};
ghost use Rattle.std.specs.Prelude.{IfOk, OnOk, OnErr, MatchResult};
ghost use Rattle.std.specs.Io.KnownBytes.{Consumes, IsAtEnd, Keeps};
ghost use Rattle.robin_io.specs.Counts.{raised, HasCause, HasOneCause};
ghost use Rattle.robin_host.specs.InputFields.{files_of, input_of, is_at_input, shelf_taken, shelf_failed};

use robin_io::{Failed, Shelf};
use std::io::Read;

/// The name that stands for standard input.
pub const INPUT: &str = "/dev/stdin";

/// A store of files in which one name, `INPUT`, stands for a reader. It tells no bytes, and keeps one count of faults
/// for all names.
#[derive(Drop)]
pub struct InputShelf<S: Shelf, I: Read> {
    files: S,
    input: I,
    at_input: bool,
    taken: u64,
    faults: u64,
}

impl<S: Shelf, I: Read> InputShelf<S, I> {
    /// Nothing is read yet.
    pub fn new(files: S, input: I) -> Self
        ensures taken { ⟦<InputShelf<S, I> as Shelf>⟧.taken result ≡ 0 }
        ensures faults { (n : List ℕ) → ⟦<InputShelf<S, I> as Shelf>⟧.faults result n ≡ 0 }
        ensures files { files_of result ≡ files }
        ensures input { input_of result ≡ input }
    {
        InputShelf {
            files,
            input,
            at_input: false,
            taken: 0,
            faults: 0,
        }
    }
}

impl<S: Shelf, I: Read> Shelf for InputShelf<S, I> {
    ghost contents = { λ s name. None };

    ghost started = { λ s name. (is_at_input s ≡ true) ⊎ S.started (files_of s) name };

    ghost left = { λ s. None };

    ghost taken = { shelf_taken };

    ghost faults = { λ s name. shelf_failed s };

    // The clauses of the trait, and then that standard input is not started anew.
    fn start(&mut self, name: &str) -> Result<(), Failed>
        ensures started { OnOk result ((is_at_input self.new ≡ true) ⊎ S.started (files_of self.new) name.now) }
        ensures taken { shelf_taken self.new ≡ shelf_taken self.old }
        ensures last { shelf_taken self.new ≤ 2 ^ 64 - 1 }
        ensures cause { HasCause (λ _. shelf_failed self.old) (λ _. shelf_failed self.new) name.now result }

        ensures input { input_of self.new ≡ input_of self.old }
    {
        // A field behind a `&mut` has its type's range only once it is read, and `last` needs it.
        let _taken = self.taken;
        self.choose(name)
    }

    // The clauses of the trait, and then that the room gets what standard input gives.
    fn take(&mut self, name: &str, room: &mut [u8]) -> Result<usize, Failed>
        requires { (is_at_input self.old ≡ true) ⊎ S.started (files_of self.old) name.now }
        ensures started { (is_at_input self.new ≡ true) ⊎ S.started (files_of self.new) name.now }
        ensures count { IfOk result (λ k. k ≤ length room.new) }
        ensures taken { IfOk result (λ k. shelf_taken self.new ≡ raised (shelf_taken self.old) k) }
        ensures err { OnErr result (shelf_taken self.new ≡ shelf_taken self.old) }
        ensures cause { HasCause (λ _. shelf_failed self.old) (λ _. shelf_failed self.new) name.now result }

        ensures given { is_at_input self.old ≡ true → IfOk result (λ k.
            Consumes (I.remaining (input_of self.old)) (I.remaining (input_of self.new)) (take k room.new)) }
    {
        match self.take_next(name, room) {
            Ok(count) => {
                self.taken = self.taken.saturating_add(count as u64);
                Ok(count)
            }
            Err(Failed) => {
                self.faults = self.faults.saturating_add(1);
                Err(Failed)
            }
        }
    }

    fn reason(&self) -> Option<&'static str> {
        if self.at_input {
            return None;
        }
        self.files.reason()
    }
}

impl<S: Shelf, I: Read> InputShelf<S, I> {
    /// Starts standard input or a file, by the name.
    fn choose(&mut self, name: &str) -> Result<(), Failed>
        ensures started { OnOk result ((is_at_input self.new ≡ true) ⊎ S.started (files_of self.new) name.now) }
        ensures taken { shelf_taken self.new ≡ shelf_taken self.old }
        ensures input { input_of self.new ≡ input_of self.old }
        ensures cause { HasOneCause (shelf_failed self.old) (shelf_failed self.new) result }
    {
        self.at_input = name == INPUT;
        if self.at_input {
            return Ok(());
        }
        match self.files.start(name) {
            Ok(()) => Ok(()),
            Err(Failed) => {
                self.faults = self.faults.saturating_add(1);
                Err(Failed)
            }
        }
    }

    /// Takes the next bytes, of standard input or of the started file.
    fn take_next(&mut self, name: &str, room: &mut [u8]) -> Result<usize, Failed>
        requires { (is_at_input self.old ≡ true) ⊎ S.started (files_of self.old) name.now }
        ensures started { (is_at_input self.new ≡ true) ⊎ S.started (files_of self.new) name.now }
        ensures count { IfOk result (λ k. k ≤ length room.new) }
        ensures given { is_at_input self.old ≡ true → IfOk result (λ k.
            Consumes (I.remaining (input_of self.old)) (I.remaining (input_of self.new)) (take k room.new)) }
        ensures taken { shelf_taken self.new ≡ shelf_taken self.old }
        ensures faults { shelf_failed self.new ≡ shelf_failed self.old }
    {
        if !self.at_input {
            return self.files.take(name, room);
        }
        match self.input.read(room) {
            Ok(count) => Ok(count),
            Err(_) => Err(Failed),
        }
    }
}
