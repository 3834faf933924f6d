//! The rows that numbers name: the league's from 1 on, and behind them those of the steps.
ghost use Rattle.std.specs.Prelude.{◌≡◌, Some};
ghost use Rattle.refutation.specs.Following.{row_numbered};
ghost use Rattle.refutation_check.specs.Kept.{all_rows, judged_step};
ghost use Rattle.refutation_check.specs.Named as named;
ghost use Rattle.refutation_check.specs.Named.{IsNotTooWide};

use crate::kept::KeptStep;
use rows::{RowStore, Term, WideTerm};

/// The row that a number names.
#[derive(Clone, Copy)]
pub(crate) enum NamedRow<'a> {
    /// There is none.
    Unknown,
    /// A row of the league, of a clause, or of a sum whose numbers fit.
    Narrow { terms: &'a [Term], degree: u64 },
    /// A wide row.
    Wide { terms: &'a [WideTerm], degree: u128 },
}

/// The row with a number, from 1.
pub(crate) fn named_row<'a>(rows: &'a RowStore, steps: &'a [KeptStep], number: u64) -> NamedRow<'a>
    ensures row { named.named_row result ≡ row_numbered (all_rows rows.now steps.now) number }
    ensures wide { IsNotTooWide result }
{
    if number == 0 {
        return NamedRow::Unknown;
    }
    let place = number as usize - 1;
    let count = rows.len();
    if place < count {
        return NamedRow::Narrow {
            terms: rows.terms(place),
            degree: rows.degree(place),
        };
    }
    match steps.get(place - count) {
        None => NamedRow::Unknown,
        Some(step) => row_of_step(step),
    }
}

/// The row of a step.
fn row_of_step(step: &KeptStep) -> NamedRow<'_>
    ensures row { named.named_row result ≡ Some (judged_step step.now).row }
    ensures wide { IsNotTooWide result }
{
    match step {
        KeptStep::Tautology => NamedRow::Narrow {
            terms: &[],
            degree: 0,
        },
        KeptStep::Clause { terms } => NamedRow::Narrow { terms, degree: 1 },
        KeptStep::Narrow { terms, degree } => NamedRow::Narrow {
            terms,
            degree: *degree,
        },
        KeptStep::Wide { row } => NamedRow::Wide {
            terms: row.terms(),
            degree: row.degree(),
        },
    }
}
