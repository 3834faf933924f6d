//! A bar that shows how much of a budget is spent.

use std::fmt;

/// How many tenths of a budget are spent.
#[derive(Clone, Copy)]
pub(crate) struct Bar {
    tenths: u128,
}

impl Bar {
    /// The bar of a budget of which so much is spent, in whole tenths: none where the budget is nothing.
    pub(crate) fn of(spent: u128, budget: u128) -> Option<Bar> {
        let tenths = spent.saturating_mul(10).checked_div(budget)?;
        Some(Bar { tenths })
    }

    /// A sign for each tenth that is spent.
    fn spent(self) -> &'static str {
        match self.tenths {
            0 => "",
            1 => "#",
            2 => "##",
            3 => "###",
            4 => "####",
            5 => "#####",
            6 => "######",
            7 => "#######",
            8 => "########",
            9 => "#########",
            _ => "##########",
        }
    }
}

impl fmt::Display for Bar {
    fn fmt<W: fmt::Write>(&self, f: &mut fmt::Formatter<W>) -> fmt::Result {
        let spent = self.spent();
        write!(f, "[{spent:<10}]")
    }
}
