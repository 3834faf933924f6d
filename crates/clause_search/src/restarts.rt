//! When a search begins again. The restarts go by Luby's sequence (Luby, Sinclair and Zuckerman 1993).
ghost use Rattle.std.specs.Prelude.{◌≡◌, ◌⊎◌};

/// How many conflicts come between two beginnings where the number of the sequence is 1.
const UNIT: u64 = 32;

/// Counts the conflicts until the search begins again from level 0. The numbers between two beginnings are those of
/// Luby's sequence 1 1 2 1 1 2 4 .., by the reluctant doubling of Knuth.
///
/// The count stands for a choice alone: no clause says when the search begins again.
#[derive(Drop)]
pub(crate) struct Restarts {
    /// How many numbers of the sequence ended with 1 so far, the present one counted.
    turn: u64,
    /// The present number of the sequence.
    number: u64,
    /// How many conflicts come before the next beginning.
    left: u64,
}

impl Restarts {
    /// Before all conflicts.
    pub(crate) fn new() -> Restarts {
        Restarts {
            turn: 1,
            number: 1,
            left: UNIT,
        }
    }

    /// The level to go back to after a conflict: 0 where the search begins again, else the one that is given.
    pub(crate) fn level(&mut self, back: u32) -> u32
        ensures { (result ≡ back) ⊎ (result ≡ 0) }
    {
        if self.left > 0 {
            self.left -= 1;
            return back;
        }
        self.advance();
        0
    }

    /// Goes on to the next number of the sequence.
    fn advance(&mut self) {
        if self.turn & self.turn.wrapping_neg() == self.number {
            self.turn = self.turn.wrapping_add(1);
            self.number = 1;
        } else {
            self.number = self.number.wrapping_mul(2);
        }
        self.left = UNIT.saturating_mul(self.number);
    }
}
