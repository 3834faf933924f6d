//! The numbers of the rows that let two teams meet no more than once in a window of slots, or pay a unit.
use break_counts::Frame;

/// The rows of a soft SE1 for two teams. For each number of slots that they may lack, from the least demanded down,
/// there is a row for each window so long that two games in it lack more.
#[derive(Clone, Copy)]
pub(crate) struct Windows {
    /// The number of the first of these rows.
    pub(crate) first: u64,
    /// How many slots the season has.
    pub(crate) slots: u64,
    /// How many slots are demanded between the two games.
    pub(crate) min: u64,
}

impl Windows {
    /// The number of the row of a window of so many slots, so many of which stand before the second half.
    pub(crate) fn row(self, frame: Frame, length: u16, before: u16) -> u64 {
        let start = frame.n.saturating_sub(1).saturating_sub(before);
        let longer = self.rows_above(u64::from(length));
        self.first
            .saturating_add(longer)
            .saturating_add(u64::from(start))
    }

    /// The rows of the next two teams.
    pub(crate) fn next(self) -> Windows {
        Windows {
            first: self.first.saturating_add(self.rows_above(1)),
            ..self
        }
    }

    /// How many of the rows have windows of more than so many slots. A window of all slots stands for each longer one.
    fn rows_above(self, length: u64) -> u64 {
        let longest = self.min.saturating_add(1);
        let whole = longest.saturating_add(1).saturating_sub(self.slots);
        let last = longest.min(self.slots.saturating_sub(1));
        let lengths = last.saturating_sub(length);
        let most = self.slots.saturating_sub(length);
        let least = self.slots.saturating_add(1).saturating_sub(last);
        whole.saturating_add(lengths.saturating_mul(most.saturating_add(least)) / 2)
    }
}
