//! Files in memory.
ghost use Rattle.std.specs.Prelude.{◌≡◌, ◌<◌, ◌≤◌, ◌+◌, ◌-◌, ◌^◌, ℕ, List, Some, length, min, take};
ghost use Rattle.std.specs.Prelude.{IfOk, IsOk, OnOk, OnErr};
ghost use Rattle.std.specs.Io.KnownBytes.{Keeps, Consumes, IsAtEnd};
ghost use Rattle.robin_io.specs.Counts.{raised, HasCause};
ghost use Rattle.page.specs.Files.{file_named};
ghost use Rattle.page.specs.ShelfFields.{files_of, left_of, taken_of};

use robin_io::{Failed, Shelf};

/// The texts of four files, whose names are `1`, `2`, `3` and `4`. Any other name is that of an empty file.
#[repr(C)]
#[derive(Drop)]
pub struct Files<'a> {
    pub first: &'a [u8],
    pub second: &'a [u8],
    pub third: &'a [u8],
    pub fourth: &'a [u8],
}

/// The text of a file.
fn file<'a>(files: &Files<'a>, name: &str) -> &'a [u8]
    ensures { result.now ≡ file_named files.now name.now }
{
    match name {
        "1" => files.first,
        "2" => files.second,
        "3" => files.third,
        "4" => files.fourth,
        _ => &[],
    }
}

/// A store of the files that a page lends. No call fails.
#[derive(Drop)]
pub struct PageShelf<'a> {
    files: &'a Files<'a>,
    left: &'a [u8],
    taken: u64,
}

impl<'a> PageShelf<'a> {
    /// The store of these files, of which nothing was taken.
    pub fn new(files: &'a Files<'a>) -> PageShelf<'a>
        ensures files { files_of result ≡ files.now }
        ensures taken { taken_of result ≡ 0 }
    {
        PageShelf {
            files,
            left: &[],
            taken: 0,
        }
    }
}

impl<'a> Shelf for PageShelf<'a> {
    ghost contents = { λ s name. Some (file_named (files_of s) name) };

    ghost started = { λ s name. Unit {0} };

    ghost left = { λ s. Some (left_of s) };

    ghost taken = { taken_of };

    ghost faults = { λ s name. 0 };

    // The clauses of the trait, with this store's terms.
    fn start(&mut self, name: &str) -> Result<(), Failed>
        ensures contents { (n : List ℕ) → Some (file_named (files_of self.new) n) ≡ Some (file_named (files_of self.old) n) }
        ensures started { OnOk result (Unit {0}) }
        ensures left { OnOk result (Keeps (Some (file_named (files_of self.old) name.now)) (Some (left_of self.new))) }
        ensures taken { taken_of self.new ≡ taken_of self.old }
        ensures last { taken_of self.new ≤ 2 ^ 64 - 1 }
        ensures calls { 0 ≤ 0 + 1 }
        ensures cause { HasCause (λ _. 0) (λ _. 0) name.now result }

        ensures ok { IsOk result }
    {
        // A field behind a `&mut` has its type's range only once it is read, and `last` needs it.
        let _taken = self.taken;
        self.left = file(self.files, name);
        Ok(())
    }

    fn take(&mut self, name: &str, room: &mut [u8]) -> Result<usize, Failed>
        ensures contents { (n : List ℕ) → Some (file_named (files_of self.new) n) ≡ Some (file_named (files_of self.old) n) }
        ensures started { Unit {0} }
        ensures count { IfOk result (λ k. k ≤ length room.new) }
        ensures taken { IfOk result (λ k. taken_of self.new ≡ raised (taken_of self.old) k) }
        ensures bytes { IfOk result (λ k. Consumes (Some (left_of self.old)) (Some (left_of self.new)) (take k room.new)) }
        ensures end { IfOk result (λ k. k ≡ 0 → 0 < length room.new → IsAtEnd (Some (left_of self.new))) }
        ensures err { OnErr result ((Some (left_of self.new) ≡ Some (left_of self.old)) × (taken_of self.new ≡ taken_of self.old)) }
        ensures calls { 0 ≤ 0 + 1 }
        ensures cause { HasCause (λ _. 0) (λ _. 0) name.now result }

        ensures exact { IfOk result (λ k. k ≡ min (length room.new) (length (left_of self.old))) }
        ensures ok { IsOk result }
    {
        let count = room.len().min(self.left.len());
        let (front, rest) = self.left.split_at(count);
        room[..count].copy_from_slice(front);
        self.left = rest;
        self.taken = self.taken.saturating_add(count as u64);
        Ok(count)
    }
}
