// A store of files in memory.
ghost use Rattle.std.specs.Prelude.{◌≡◌, ◌≢◌, ◌-◌, ◌^◌, ◌<◌, ◌≤◌, ◌↔◌, ◌⊎◌, List, [], ◌∷◌, ◌++◌, ℕ, Contains, Some};
ghost use Rattle.std.specs.Prelude.{None, length, take, drop, min, map, position, bytes_eq, string_bytes, slice_get};
ghost use Rattle.std.specs.Prelude.{IfOk, OnOk, OnErr, IfSome, IsSome, IsSomeAnd, IsNone, IsErr};
ghost use Rattle.std.specs.Io.KnownBytes.{Keeps, Consumes, IsAtEnd};
ghost use Rattle.robin_io.specs.Counts.{raised, HasCause};
ghost use Rattle.robin_io.specs.ShelfView.{contents_in, faults_in};
ghost use Rattle.robin_io.specs.Faults.{CountsFault};
ghost use Rattle.robin_io.specs.Files.{file_view, Puts};

use crate::plan::Plan;
use crate::{Failed, Shelf};
use std::alloc::{AllocError, Global};
use std::marker::Model;

#[derive(Drop)]
struct MemFile {
    name: String,
    bytes: Vec<u8>,
    faults: u64,
}

/// The started file and how many of its bytes are taken.
#[derive(Clone, Copy)]
struct Place {
    file: usize,
    at: usize,
}

/// A store of files in memory, which tells its contents.
///
/// Each file that was added has a count of faults, and all other names have one in common.
/// A `start` or `take` fails where it was planned to, and a `start` of an absent name does.
#[derive(Drop)]
pub struct MemShelf {
    files: Vec<MemFile>,
    started: Option<Place>,
    taken: u64,
    other_faults: u64,
    plan: Plan,
}

impl Model for MemShelf {
    ghost use Rattle.robin_io.specs.ShelfView.{ShelfView};

    ghost Value = { ShelfView };

    ghost use Rattle.robin_io.specs.ShelfFields.{shelf_view, IsWithinFile};

    ghost view = { shelf_view };

    ghost invariant = { IsWithinFile };
}

impl MemShelf {
    /// A store with no file.
    pub fn new(alloc: Global) -> MemShelf
        ensures files { result.files ≡ [] }
        ensures started { result.started ≡ None }
        ensures left { result.left ≡ None }
        ensures taken { result.taken ≡ 0 }
        ensures faults { result.other_faults ≡ 0 }
        ensures plan { result.plan ≡ [] }
        ensures calls { result.calls ≡ 0 }
    {
        MemShelf {
            files: Vec::new(alloc),
            started: None,
            taken: 0,
            other_faults: 0,
            plan: Plan::new(alloc),
        }
    }

    /// Sets the contents of a name. No file is started then.
    ///
    /// # Errors
    /// Only where memory runs out: then nothing changes.
    pub fn add(&mut self, name: &str, bytes: &[u8]) -> Result<(), AllocError>
        ensures added { OnOk result (contents_in self.new.files name.now ≡ Some bytes.now) }
        ensures others { (n : List ℕ) → n ≢ name.now →
            contents_in self.new.files n ≡ contents_in self.old.files n }
        ensures faults { (n : List ℕ) →
            faults_in self.new.files self.new.other_faults n ≡ faults_in self.old.files self.old.other_faults n }
        ensures other_faults { self.new.other_faults ≡ self.old.other_faults }
        ensures taken { self.new.taken ≡ self.old.taken }
        ensures plan { self.new.plan ≡ self.old.plan }
        ensures calls { self.new.calls ≡ self.old.calls }
        ensures started { OnOk result (self.new.started ≡ None) }
        ensures left { OnOk result (self.new.left ≡ None) }
        ensures err { OnErr result (self.new ≡ self.old) }
    {
        put_file(&mut self.files, name, bytes, self.other_faults)?;
        self.started = None;
        Ok(())
    }

    /// Plans that the call of this number fails. All calls of `start` and `take` are counted together from 1,
    /// the refused ones too, and the number stays at the greatest `u64`.
    /// So 0 and the number of an earlier call plan nothing.
    ///
    /// # Errors
    /// Only where memory runs out: then nothing changes.
    pub fn fail_at(&mut self, call: u64) -> Result<(), AllocError>
        ensures ok { OnOk result (self.new ≡ record self.old { plan = self.old.plan ++ call ∷ [] }) }
        ensures err { OnErr result (self.new ≡ self.old) }
    {
        self.plan.add(call)
    }

    // Counts a fault of this name, and gives it.
    fn fail(&mut self, name: &str) -> Failed
        ensures counted { CountsFault name.now self.old self.new }
        ensures contents { (n : List ℕ) → contents_in self.new.files n ≡ contents_in self.old.files n }
        ensures later { (n : List ℕ) →
            faults_in self.old.files self.old.other_faults n ≤ faults_in self.new.files self.new.other_faults n }
        ensures rest { self.new ≡ record self.old { files = self.new.files; other_faults = self.new.other_faults } }
    {
        match index_of(&self.files, name) {
            Some(index) => {
                let file = &mut self.files[index];
                file.faults = file.faults.saturating_add(1);
            }
            None => self.other_faults = self.other_faults.saturating_add(1),
        }
        Failed
    }

    // Takes the next bytes of the started file to the front of the room, as many as there are and fit.
    fn take_next(&mut self, room: &mut [u8]) -> usize
        requires { IsSome self.old.started }
        ensures count { IsSomeAnd self.old.left (λ left. result ≡ min (length room.new) (length left)) }
        ensures bytes { Consumes self.old.left self.new.left (take result room.new) }
        ensures within { result ≤ length room.new }
        ensures end { result ≡ 0 → 0 < length room.new → IsAtEnd self.new.left }
        ensures taken { self.new.taken ≡ raised self.old.taken result }
        ensures rest { self.new ≡ record self.old { left = self.new.left; taken = self.new.taken } }
    {
        let Some(place) = self.started else {
            unreachable!()
        };
        let count = copy_from(&self.files[place.file].bytes, place.at, room);
        self.started = Some(Place {
            file: place.file,
            at: place.at + count,
        });
        self.taken = self.taken.saturating_add(count as u64);
        count
    }
}

impl Shelf for MemShelf {
    ghost contents = { λ s name. contents_in s.files name };

    ghost started = { λ s name. s.started ≡ Some name };

    ghost left = { λ s. s.left };

    ghost taken = { λ s. s.taken };

    ghost faults = { λ s name. faults_in s.files s.other_faults name };

    ghost calls = { λ s. s.calls };

    // The clauses of the trait, and then what exactly this store does.
    fn start(&mut self, name: &str) -> Result<(), Failed>
        ensures contents { (n : List ℕ) → contents_in self.new.files n ≡ contents_in self.old.files n }
        ensures started { OnOk result (self.new.started ≡ Some name.now) }
        ensures left { OnOk result (Keeps (contents_in self.old.files name.now) self.new.left) }
        ensures taken { self.new.taken ≡ self.old.taken }
        ensures last { self.new.taken ≤ 2 ^ 64 - 1 }
        ensures cause { HasCause (faults_in self.old.files self.old.other_faults)
            (faults_in self.new.files self.new.other_faults) name.now result }

        ensures failed { IsErr result
            ↔ (Contains self.old.plan (raised self.old.calls 1) ⊎ IsNone (contents_in self.old.files name.now)) }
        ensures stopped { OnErr result (self.new.started ≡ None) }
        ensures nothing_left { OnErr result (self.new.left ≡ None) }
        ensures fault { OnErr result (CountsFault name.now self.old self.new) }
        ensures files { OnOk result (self.new.files ≡ self.old.files) }
        ensures other_faults { OnOk result (self.new.other_faults ≡ self.old.other_faults) }
        ensures plan { self.new.plan ≡ self.old.plan }
        ensures calls { self.new.calls ≡ raised self.old.calls 1 }
    {
        // A field behind a `&mut` has its type's range only once it is read, and `last` needs it.
        let _taken = self.taken;
        self.started = None;
        if self.plan.next_fails() {
            return Err(self.fail(name));
        }
        match index_of(&self.files, name) {
            Some(file) => {
                self.started = Some(Place { file, at: 0 });
                Ok(())
            }
            None => Err(self.fail(name)),
        }
    }

    fn take(&mut self, name: &str, room: &mut [u8]) -> Result<usize, Failed>
        requires { self.old.started ≡ Some name.now }
        ensures contents { (n : List ℕ) → contents_in self.new.files n ≡ contents_in self.old.files n }
        ensures started { self.new.started ≡ Some name.now }
        ensures count { IfOk result (λ k. k ≤ length room.new) }
        ensures taken { IfOk result (λ k. self.new.taken ≡ raised self.old.taken k) }
        ensures bytes { IfOk result (λ k. Consumes self.old.left self.new.left (take k room.new)) }
        ensures end { IfOk result (λ k. k ≡ 0 → 0 < length room.new → IsAtEnd self.new.left) }
        ensures err { OnErr result ((self.new.left ≡ self.old.left) × (self.new.taken ≡ self.old.taken)) }
        ensures cause { HasCause (faults_in self.old.files self.old.other_faults)
            (faults_in self.new.files self.new.other_faults) name.now result }

        ensures exact { IfOk result (λ k. IsSomeAnd self.old.left (λ left. k ≡ min (length room.new) (length left))) }
        ensures failed { IsErr result ↔ Contains self.old.plan (raised self.old.calls 1) }
        ensures fault { OnErr result (CountsFault name.now self.old self.new) }
        ensures files { OnOk result (self.new.files ≡ self.old.files) }
        ensures other_faults { self.new.other_faults ≡ self.old.other_faults }
        ensures plan { self.new.plan ≡ self.old.plan }
        ensures calls { self.new.calls ≡ raised self.old.calls 1 }
    {
        if self.plan.next_fails() {
            return Err(self.fail(name));
        }
        Ok(self.take_next(room))
    }
}

// Where the file of this name is.
fn index_of(files: &[MemFile], name: &str) -> Option<usize>
    ensures { result ≡ position (λ f. bytes_eq (string_bytes f.name) name.now) files.now }
{
    files.iter().position(|file| file.name.as_str() == name)
}

// Sets the contents of a name. A file that wasn't there begins with this count of faults.
fn put_file(
    files: &mut Vec<MemFile>,
    name: &str,
    bytes: &[u8],
    faults: u64,
) -> Result<(), AllocError>
    ensures ok { OnOk result
        (Puts faults name.now bytes.now (map file_view files.old.items) (map file_view files.new.items)) }
    ensures err { OnErr result (files.new.items ≡ files.old.items) }
{
    let alloc = *files.allocator();
    let bytes = Vec::from_slice(alloc, bytes)?;
    match index_of(files, name) {
        Some(index) => files[index].bytes = bytes,
        None => {
            let name = String::from_str(alloc, name)?;
            files.push(MemFile {
                name,
                bytes,
                faults,
            })?;
        }
    }
    Ok(())
}

// Copies the bytes from `at` on to the front of the room, as many as fit.
fn copy_from(bytes: &[u8], at: usize, room: &mut [u8]) -> usize
    requires { at ≤ length bytes.now }
    ensures count { result ≡ min (length room.new) (length bytes.now - at) }
    ensures copied { take result room.new ≡ take result (drop at bytes.now) }
{
    let count = room.len().min(bytes.len() - at);
    room[..count].copy_from_slice(&bytes[at..at + count]);
    count
}
