//! What laws say that soft constraints cost at least.
ghost use Rattle.std.specs.Prelude.{◌+◌, ◌≤◌, IfOk, OnOk};
ghost use Rattle.league.specs.Counts as counts;
ghost use Rattle.break_counts.specs.Tables.{AreInSeason};

use bound_rows::is_paid;
use break_counts::{Stretch, covers};
use league::{Class, League, Side, SlotSet, TeamSet, slot_count};
use std::alloc::{AllocError, Global};

/// The sum of what laws say that the soft constraints of a league cost at least.
///
/// # Errors
/// Only where memory runs out.
pub(crate) fn least_cost(alloc: Global, league: &League) -> Result<u64, AllocError> {
    let mut cost = 0u64;
    for constraint in league.constraints() {
        if is_paid(constraint) {
            let units = least_units(alloc, league, &constraint.class)?;
            cost = cost.saturating_add(units.saturating_mul(u64::from(constraint.penalty)));
        }
    }
    Ok(cost)
}

/// By how many units a class is missed at least.
///
/// # Errors
/// Only where memory runs out.
pub(crate) fn least_units(
    alloc: Global,
    league: &League,
    class: &Class,
) -> Result<u64, AllocError> {
    match class {
        Class::Br1 {
            teams,
            intp,
            side: Side::Both,
            slots,
        } => {
            let count = teams.numbers().len() as u64;
            let allowed = count.saturating_mul(u64::from(*intp));
            missing_breaks(alloc, league, count, slots, allowed)
        }
        Class::Br2 { teams, intp, slots } => {
            let count = teams.numbers().len() as u64;
            missing_breaks(alloc, league, count, slots, u64::from(*intp))
        }
        Class::Se1 { teams, min } => Ok(missing_slots(league, teams, *min)),
        _ => Ok(0),
    }
}

/// By how many breaks more than are allowed at these slots so many teams have at least: in each stretch all but two
/// have one.
fn missing_breaks(
    alloc: Global,
    league: &League,
    teams: u64,
    slots: &SlotSet,
    allowed: u64,
) -> Result<u64, AllocError> {
    let stretches = counted_stretches(alloc, league, slots)?;
    let needed = teams
        .saturating_sub(2)
        .saturating_mul(stretches.len() as u64);
    Ok(needed.saturating_sub(allowed))
}

/// The stretches in which each two teams meet, and whose breaks these slots all count.
///
/// # Errors
/// Only where memory runs out.
pub(crate) fn counted_stretches(
    alloc: Global,
    league: &League,
    slots: &SlotSet,
) -> Result<Vec<Stretch>, AllocError>
    ensures { IfOk result (λ found. AreInSeason league.now.n found.items) }
{
    let n = league.n();
    let half = n - 1;
    let mut found = Vec::new(alloc);
    if !league.phased() {
        let season = Stretch {
            first: 0,
            count: slot_count(n),
        };
        add_if_counted(&mut found, n, slots, season)?;
        return Ok(found);
    }
    let first = Stretch {
        first: 0,
        count: half,
    };
    let second = Stretch {
        first: half,
        count: half,
    };
    add_if_counted(&mut found, n, slots, first)?;
    add_if_counted(&mut found, n, slots, second)?;
    Ok(found)
}

/// How many slots two teams lack at least, summed over all pairs: the gaps of all pairs have the mean n - 1.
fn missing_slots(league: &League, teams: &TeamSet, min: u32) -> u64 {
    let n = league.n();
    let others = n.saturating_sub(1);
    let all = teams.numbers().len() == usize::from(n);
    if league.phased() && n >= 4 && all && min >= u32::from(others) {
        u64::from(n) * u64::from(others) / 2
    } else {
        0
    }
}

/// Adds a stretch of a season of n teams, where these slots count all its breaks.
fn add_if_counted(
    found: &mut Vec<Stretch>,
    n: u16,
    slots: &SlotSet,
    stretch: Stretch,
) -> Result<(), AllocError>
    requires n { n ≤ 40 }
    requires some { 1 ≤ stretch.count }
    requires within { stretch.first + stretch.count ≤ counts.slot_count n }
    requires before { AreInSeason n found.old.items }
    ensures { OnOk result (AreInSeason n found.new.items) }
{
    if covers(slots.numbers(), &[stretch]) {
        found.push(stretch)?;
    }
    Ok(())
}
