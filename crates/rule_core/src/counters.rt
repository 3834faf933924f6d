//! Numbers in rows and columns.
ghost use Rattle.std.specs.Prelude.{◌≡◌, ◌≢◌, ℕ, ◌<◌, ◌≤◌, ◌+◌, ◌*◌, ◌^◌, if◌then◌else◌, length, replicate, IfOk};
ghost use Rattle.std.specs.Prelude.{slice_index};
ghost use Rattle.std.specs.Int.{bit_at};
ghost use Rattle.league.specs.Grid.{number};
ghost use Rattle.rule_core.specs.Tables.{AreMarked, IsMark, IsOneMore};

use std::alloc::{AllocError, Global};

/// Rows of so many numbers each, in one list, row by row, and for each row the columns whose number isn't 0, as bits.
#[derive(Drop)]
pub(crate) struct Counters {
    pub(crate) columns: usize,
    pub(crate) numbers: Vec<u32>,
    pub(crate) marks: Vec<u128>,
}

impl Counters {
    /// All numbers are 0.
    pub(crate) fn new(alloc: Global, rows: usize, columns: usize) -> Result<Counters, AllocError>
        requires rows { rows ≤ 40 }
        requires columns { columns ≤ 78 }
        ensures columns { IfOk result (λ counters. counters.columns ≡ columns) }
        ensures numbers { IfOk result (λ counters. counters.numbers.items ≡ replicate (rows * columns) 0) }
        ensures marks { IfOk result (λ counters. counters.marks.items ≡ replicate rows 0) }
    {
        Ok(Counters {
            columns,
            numbers: vec![in alloc; 0; rows * columns]?,
            marks: vec![in alloc; 0; rows]?,
        })
    }

    /// The number in a row and column.
    pub(crate) fn at(&self, row: usize, column: usize) -> u32
        requires column { column < self.now.columns }
        requires place { row * self.now.columns + column < length self.now.numbers.items }
        ensures { result ≡ number self.now.columns self.now.numbers.items row column }
    {
        self.numbers[row * self.columns + column]
    }

    /// The columns of a row whose number isn't 0, as bits.
    pub(crate) fn row_marks(&self, row: usize) -> u128
        requires { row < length self.now.marks.items }
        ensures { result ≡ slice_index self.now.marks.items row }
    {
        self.marks[row]
    }

    /// Adds 1 to a number.
    pub(crate) fn add(&mut self, row: usize, column: usize)
        requires column { column < self.old.columns }
        requires place { row * self.old.columns + column < length self.old.numbers.items }
        requires room { number self.old.columns self.old.numbers.items row column < 4294967295 }
        requires row { row < length self.old.marks.items }
        requires few { self.old.columns ≤ 78 }
        requires marked { AreMarked self.old }
        ensures more { IsOneMore row column self.old self.new }
        ensures marked { AreMarked self.new }
        ensures rows { length self.new.marks.items ≡ length self.old.marks.items }
    {
        self.numbers[row * self.columns + column] += 1;
        self.mark(row, column, true);
    }

    /// Takes 1 from a number.
    pub(crate) fn take(&mut self, row: usize, column: usize)
        requires column { column < self.old.columns }
        requires place { row * self.old.columns + column < length self.old.numbers.items }
        requires there { 0 < number self.old.columns self.old.numbers.items row column }
        requires row { row < length self.old.marks.items }
        requires few { self.old.columns ≤ 78 }
        requires marked { AreMarked self.old }
        ensures less { IsOneMore row column self.new self.old }
        ensures marked { AreMarked self.new }
        ensures rows { length self.new.marks.items ≡ length self.old.marks.items }
    {
        self.numbers[row * self.columns + column] -= 1;
        let left = self.at(row, column);
        self.mark(row, column, left > 0);
    }

    /// Marks a column of a row, or takes its mark away.
    fn mark(&mut self, row: usize, column: usize, there: bool)
        requires row { row < length self.old.marks.items }
        requires column { column < 78 }
        requires small { slice_index self.old.marks.items row < 2 ^ 78 }
        ensures { IsMark row column there self.old self.new }
    {
        self.marks[row] = marked(self.marks[row], column, there);
    }
}

/// The bits with the one of a column, which is or isn't to be set.
fn marked(bits: u128, column: usize, there: bool) -> u128
    requires column { column < 78 }
    requires small { bits < 2 ^ 78 }
    ensures small { result < 2 ^ 78 }
    ensures same { bit_at result column ≡ (if there then 1 else 0) }
    ensures others { (k : ℕ) → k < 78 → k ≢ column → bit_at result k ≡ bit_at bits k }
{
    if there {
        bits | (1 << column)
    } else {
        bits & !(1 << column)
    }
}
