//! When a search begins again. The restarts go by Luby's sequence (Luby, Sinclair and Zuckerman 1993).

/// How many conflicts come between two beginnings where the number of the sequence is 1.
const UNIT: u64 = 100;

/// Counts the conflicts until the search begins again from level 0. The numbers between two beginnings are those of
/// Luby's sequence 1 1 2 1 1 2 4 .., by the reluctant doubling of Knuth.
#[derive(Drop)]
pub(crate) struct Restarts {
    /// How many numbers of the sequence ended with 1 so far, the present one counted.
    turn: u64,
    /// The present number of the sequence.
    number: u64,
    /// How many conflicts come before the next beginning.
    left: u64,
}

impl Restarts {
    /// Before all conflicts.
    pub(crate) fn new() -> Restarts {
        Restarts {
            turn: 1,
            number: 1,
            left: UNIT,
        }
    }

    /// Whether the search begins again behind one more conflict.
    pub(crate) fn is_due(&mut self) -> bool {
        if self.left > 0 {
            self.left -= 1;
            return false;
        }
        if self.turn & self.turn.wrapping_neg() == self.number {
            self.turn = self.turn.saturating_add(1);
            self.number = 1;
        } else {
            self.number = self.number.saturating_mul(2);
        }
        self.left = self.number.saturating_mul(UNIT);
        true
    }
}
