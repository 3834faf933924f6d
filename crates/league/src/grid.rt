//! A table of counts.
ghost use Rattle.std.specs.Prelude.{◌≡◌, ℕ, ◌+◌, ◌*◌, ◌<◌, ◌&&◌, ◌==◌, if◌then◌else◌};
ghost use Rattle.league.specs.Grid.{entry};

use std::marker::Model;

/// A count for each of 40 rows and 78 columns, as many as a season of 40 teams has teams and slots: seen as the list of
/// the counts, row by row. It takes no memory beside itself.
#[derive(Drop)]
pub struct Grid {
    numbers: [u16; 3120],
}

impl Model for Grid {
    ghost use Rattle.std.specs.Prelude.{ℕ, List};

    ghost Value = { List ℕ };

    ghost view = { λ g. g.numbers };
}

impl Grid {
    /// All counts are 0.
    pub fn new() -> Grid
        ensures { (row column : ℕ) → entry result row column ≡ 0 }
    {
        Grid { numbers: [0; 3120] }
    }

    /// The count in a row below 40 and a column below 78.
    pub fn at(&self, row: u16, column: u16) -> u16
        requires row { row < 40 }
        requires column { column < 78 }
        ensures { result ≡ entry self.now row column }
    {
        self.numbers[place(row, column)]
    }

    /// Adds 1 to the count, which is below 65,535, in a row below 40 and a column below 78.
    pub fn add(&mut self, row: u16, column: u16)
        requires row { row < 40 }
        requires column { column < 78 }
        requires room { entry self.old row column < 65535 }
        ensures { (i k : ℕ) → entry self.new i k ≡ entry self.old i k + (if (row == i) && (column == k) then 1 else 0) }
    {
        self.numbers[place(row, column)] += 1;
    }
}

/// Where a grid keeps the count of a row and column.
fn place(row: u16, column: u16) -> usize
    ensures { result ≡ row * 78 + column }
{
    row as usize * 78 + column as usize
}
