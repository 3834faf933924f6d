//! The analysis of a conflict: down the trail, until the row that comes of it isn't quiet at the end of a lower level. It is
//! that of RoundingSat: each reason is divided by what it counts of the literal that it forces.
ghost use Rattle.std.specs.Prelude.{◌≡◌, IfOk};
ghost use Rattle.std.specs.Bool.{OnTrue};
ghost use Rattle.planes.specs.Small.{AreSmall, LeavesSmall};

use crate::desk::Tools;
use crate::numbers::divided;
use crate::order::Order;
use crate::reason::{Point, Scaled, open_rest};
use crate::stock::Stock;
use crate::trail::{Entry, Moment, Standing, Trail};
use rows::Lit;
use std::alloc::AllocError;

/// A row whose coefficients are too large is divided so that none is above this.
const LARGE: i64 = 1_000_000_000;

/// What an analysis came to.
#[derive(Clone, Copy)]
pub(crate) enum Outcome {
    /// A row that isn't quiet at the end of a level below the present one.
    Active,
    /// A row in conflict at level 0.
    Refuted,
    /// No such row.
    Nothing,
}

/// Works a row out from the row in conflict at a place. None of its coefficients is above the limit.
///
/// # Errors
/// Only where memory runs out.
pub(crate) fn cut(
    stock: &Stock,
    trail: &Trail,
    order: &mut Order,
    tools: &mut Tools,
    row: usize,
) -> Result<Outcome, AllocError>
    ensures { IfOk result (λ outcome. LeavesSmall outcome tools.new.plane.counts) }
{
    if !begin(stock, trail, order, tools, row)? {
        return Ok(Outcome::Nothing);
    }
    let len = trail.len();
    let mut level = trail.level();
    let mut is_fresh = true;
    for back in 0..len {
        if is_fresh {
            level = lowest_conflict(trail, tools, level);
            if level == 0 {
                return Ok(Outcome::Refuted);
            }
            if tools.plane.is_active(trail, level - 1) {
                return Ok(Outcome::Active);
            }
        }
        let place = len - 1 - back;
        let Some(entry) = trail.entry(place) else {
            return Ok(Outcome::Nothing);
        };
        is_fresh = entry.level <= level && tools.plane.counts.coef(entry.lit.negate()) > 0;
        if is_fresh && !resolve(stock, trail, order, tools, entry, place)? {
            return Ok(Outcome::Nothing);
        }
    }
    Ok(Outcome::Nothing)
}

/// Begins with the row at a place. It says whether its coefficients are small.
fn begin(
    stock: &Stock,
    trail: &Trail,
    order: &mut Order,
    tools: &mut Tools,
    row: usize,
) -> Result<bool, AllocError>
    ensures { IfOk result (λ done. OnTrue done (AreSmall tools.new.plane.counts)) }
{
    let Some(held) = stock.row(row) else {
        return Ok(false);
    };
    tools
        .plane
        .begin(trail, &held.terms, held.degree, held.number)?;
    for term in &held.terms {
        order.raise(term.lit);
    }
    make_small(trail, tools, trail.len())
}

/// The lowest level up to the given one at whose end the row is in conflict; 0 where it is so at the end of level 0.
fn lowest_conflict(trail: &Trail, tools: &mut Tools, level: usize) -> usize
    ensures { tools.new.plane.counts ≡ tools.old.plane.counts }
{
    for back in 0..level {
        let below = level - back - 1;
        if !tools.plane.is_in_conflict(trail, below) {
            return below + 1;
        }
    }
    0
}

/// Adds the reason of an entry so often that what the row counts of its negation cancels. It says whether it could.
fn resolve(
    stock: &Stock,
    trail: &Trail,
    order: &mut Order,
    tools: &mut Tools,
    entry: Entry,
    place: usize,
) -> Result<bool, AllocError>
    ensures { IfOk result (λ done. OnTrue done (AreSmall tools.new.plane.counts)) }
{
    let Some(row) = entry.reason else {
        return Ok(false);
    };
    let Some(held) = stock.row(row) else {
        return Ok(false);
    };
    let point = Point {
        lit: entry.lit,
        place,
    };
    tools.reason.load(held)?;
    tools
        .reason
        .divide(trail, &mut tools.draft, &mut tools.axioms, &point)?;
    let times = tools.plane.counts.coef(entry.lit.negate());
    tools.plane.add_reason(trail, times, &tools.reason)?;
    raise_false(trail, order, &tools.reason.terms, place);
    make_small(trail, tools, place)
}

/// Makes the variables more active whose literals in a reason were false before a place, above level 0.
fn raise_false(trail: &Trail, order: &mut Order, terms: &[Scaled], limit: usize) {
    for term in terms {
        if term.coef == 0 {
            continue;
        }
        if let Standing::False { level, place } = trail.standing(term.lit) {
            if level > 0 && place < limit {
                order.raise(term.lit);
            }
        }
    }
}

/// Divides the row if its coefficients are too large, so that they are small again, and says whether they are. Before that
/// all that wasn't false before a place is weakened to multiples.
fn make_small(trail: &Trail, tools: &mut Tools, place: usize) -> Result<bool, AllocError>
    ensures { IfOk result (λ done. OnTrue done (AreSmall tools.new.plane.counts)) }
{
    if !tools.plane.counts.is_too_large() {
        return Ok(true);
    }
    let divisor = divided(tools.plane.counts.greatest(), LARGE);
    weaken_open(trail, tools, Moment::Before { place }, divisor)?;
    tools.plane.divide(&mut tools.draft, divisor)?;
    Ok(!tools.plane.counts.is_too_large())
}

/// Weakens all of the row that wasn't false at a moment to multiples of the divisor.
///
/// # Errors
/// Only where memory runs out.
pub(crate) fn weaken_open(
    trail: &Trail,
    tools: &mut Tools,
    moment: Moment,
    divisor: i64,
) -> Result<(), AllocError> {
    for k in 0..tools.plane.counts.len() {
        if let Some((lit, coef)) = tools.plane.counts.term(k) {
            weaken(tools, lit, open_rest(trail, moment, lit, coef, divisor))?;
        }
    }
    Ok(())
}

/// Takes so much off what a literal counts, if any.
///
/// # Errors
/// Only where memory runs out.
pub(crate) fn weaken(tools: &mut Tools, lit: Lit, less: i64) -> Result<(), AllocError> {
    if less <= 0 {
        return Ok(());
    }
    let axiom = tools.axioms.number(&mut tools.draft, lit.negate())?;
    tools.plane.weaken(lit, less, axiom)
}
