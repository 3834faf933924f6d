//! The replay of hints: rows that come to a conflict. This is unit propagation by hints, as in checkers of LRAT.
ghost use Rattle.std.specs.Prelude.{◌≡◌, ◌≤◌, length, IfOk, Ok, Some};
ghost use Rattle.std.specs.List.{All};
ghost use Rattle.rows.specs.Trails.{IsListed};
ghost use Rattle.rows.specs.Values.{valued};
ghost use Rattle.rows.specs.Sums.{weight_of, widest};
ghost use Rattle.refutation.specs.Following as following;
ghost use Rattle.refutation.specs.Following.{row_numbered};
ghost use Rattle.refutation_check.specs.Kept.{all_rows, forced_at, turn_at};
ghost use Rattle.refutation_check.specs.Within.{AreWithin};

use crate::kept::KeptStep;
use crate::named::{NamedRow, named_row};
use refutation::Cause;
use rows::{Partial, RowStore, Term, WideTerm, force, reach, wide_force, wide_reach};
use std::alloc::AllocError;

/// What the row comes to that a hint names.
#[derive(Clone, Copy)]
pub(crate) enum Turn {
    /// The hint names no row.
    Unknown,
    /// The row is in conflict.
    Conflict,
    /// The literals that the row forces became true.
    Forced,
}

/// Follows hints up to the first row in conflict. It says why they don't come to one.
pub(crate) fn replay(
    rows: &RowStore,
    steps: &[KeptStep],
    hints: &[u64],
    partial: &mut Partial,
    trail: &mut Vec<u32>,
) -> Result<Option<Cause>, AllocError>
    requires within { AreWithin (length partial.old) (all_rows rows.now steps.now) }
    requires listed { IsListed partial.old trail.old.items }
    ensures cause { IfOk result (λ cause.
        cause ≡ following.replay (all_rows rows.now steps.now) hints.now (valued partial.old)) }

    // The next clauses also hold where memory ran out.
    ensures length { length partial.new ≡ length partial.old }
    ensures listed { IsListed partial.new trail.new.items }
{
    for hint in hints {
        match take_turn(rows, steps, *hint, partial, trail)? {
            Turn::Unknown => return Ok(Some(Cause::UnknownRow)),
            Turn::Conflict => return Ok(None),
            Turn::Forced => {}
        }
    }
    Ok(Some(Cause::NoConflict))
}

/// The turn of the row with a number.
fn take_turn(
    rows: &RowStore,
    steps: &[KeptStep],
    hint: u64,
    partial: &mut Partial,
    trail: &mut Vec<u32>,
) -> Result<Turn, AllocError>
    requires within { AreWithin (length partial.old) (all_rows rows.now steps.now) }
    requires listed { IsListed partial.old trail.old.items }
    ensures turn { IfOk result (λ turn.
        turn ≡ turn_at (row_numbered (all_rows rows.now steps.now) hint) (valued partial.old)) }
    ensures values { result ≡ Ok Turn.Forced → valued partial.new
        ≡ forced_at (row_numbered (all_rows rows.now steps.now) hint) (valued partial.old) }
    ensures length { length partial.new ≡ length partial.old }
    ensures listed { IsListed partial.new trail.new.items }
{
    match named_row(rows, steps, hint) {
        NamedRow::Unknown => Ok(Turn::Unknown),
        NamedRow::Narrow { terms, degree } => narrow_turn(terms, degree, partial, trail),
        NamedRow::Wide { terms, degree } => wide_turn(terms, degree, partial, trail),
    }
}

/// The turn of a narrow row.
fn narrow_turn(
    terms: &[Term],
    degree: u64,
    partial: &mut Partial,
    trail: &mut Vec<u32>,
) -> Result<Turn, AllocError>
    requires within { All (λ t. t.lit.var ≤ length partial.old) terms.now }
    requires listed { IsListed partial.old trail.old.items }
    ensures turn { IfOk result (λ turn.
        turn ≡ turn_at (Some (record { terms = terms.now; degree = degree })) (valued partial.old)) }
    ensures values { result ≡ Ok Turn.Forced → valued partial.new
        ≡ forced_at (Some (record { terms = terms.now; degree = degree })) (valued partial.old) }
    ensures length { length partial.new ≡ length partial.old }
    ensures listed { IsListed partial.new trail.new.items }
{
    let reached = reach(terms, partial);
    if reached < u128::from(degree) {
        return Ok(Turn::Conflict);
    }
    force(terms, degree, reached, partial, trail)?;
    Ok(Turn::Forced)
}

/// The turn of a wide row.
fn wide_turn(
    terms: &[WideTerm],
    degree: u128,
    partial: &mut Partial,
    trail: &mut Vec<u32>,
) -> Result<Turn, AllocError>
    requires within { All (λ t. t.lit.var ≤ length partial.old) terms.now }
    requires total { weight_of terms.now ≤ widest }
    requires listed { IsListed partial.old trail.old.items }
    ensures turn { IfOk result (λ turn.
        turn ≡ turn_at (Some (record { terms = terms.now; degree = degree })) (valued partial.old)) }
    ensures values { result ≡ Ok Turn.Forced → valued partial.new
        ≡ forced_at (Some (record { terms = terms.now; degree = degree })) (valued partial.old) }
    ensures length { length partial.new ≡ length partial.old }
    ensures listed { IsListed partial.new trail.new.items }
{
    let reached = wide_reach(terms, partial);
    if reached < degree {
        return Ok(Turn::Conflict);
    }
    wide_force(terms, degree, reached, partial, trail)?;
    Ok(Turn::Forced)
}
