//! In how many stretches hard constraints BR1 let each team have breaks.
ghost use Rattle.std.specs.Prelude.{◌≡◌, ℕ, ◌+◌, ◌<◌, ◌≤◌, min, length, IfOk, IsTrue, slice_index, if◌then◌else◌};
ghost use Rattle.std.specs.List.{All};
ghost use Rattle.league.specs.Instance.{class_fits};
ghost use Rattle.break_counts.specs.BreakCounts as counts;
ghost use Rattle.break_counts.specs.Tables.{AreLowered, IsTable, IsTableOn, IsUniform};

use crate::cover::covers;
use crate::stretch::Stretch;
use encoding::team_numbers;
use league::{Class, Constraint, League, Side};
use std::alloc::{AllocError, Global};

/// In how many of the stretches each team may have breaks: by bounds of both sides together, or of each.
///
/// # Errors
/// Only where memory runs out.
pub(crate) fn allowed_of(
    alloc: Global,
    league: &League,
    stretches: &[Stretch],
) -> Result<Vec<u32>, AllocError>
    requires few { length stretches.now ≤ 2 }
    requires within { All (λ t. t.first + t.count ≤ 78) stretches.now }
    ensures { IfOk result (λ table. IsTable league.now.n league.now.constraints stretches.now table.items) }
{
    let mut both = allowed_on(alloc, league, stretches, Side::Both)?;
    let home = allowed_on(alloc, league, stretches, Side::H)?;
    let away = allowed_on(alloc, league, stretches, Side::A)?;
    lower_to_sums(&mut both, &home, &away);
    Ok(both)
}

/// Lowers each team's number to at most the sum of its numbers at home and away.
fn lower_to_sums(table: &mut [u32], home: &[u32], away: &[u32])
    requires home { length home.now ≡ length table.old }
    requires away { length away.now ≡ length table.old }
    requires small { (i : ℕ) → i < length table.old → slice_index home.now i + slice_index away.now i ≤ 4 }
    ensures { (i : ℕ) → i < length table.old → slice_index table.new i
        ≡ min (slice_index table.old i) (slice_index home.now i + slice_index away.now i) }
{
    for team in 0..table.len() {
        let known = table[team];
        table[team] = known.min(home[team] + away[team]);
    }
}

/// In how many of the stretches each team may have breaks on a side. All constraints are gone through once.
fn allowed_on(
    alloc: Global,
    league: &League,
    stretches: &[Stretch],
    side: Side,
) -> Result<Vec<u32>, AllocError>
    requires few { length stretches.now ≤ 2 }
    requires within { All (λ t. t.first + t.count ≤ 78) stretches.now }
    ensures { IfOk result (λ table.
        IsTableOn league.now.n league.now.constraints stretches.now side table.items) }
{
    let teams = usize::from(league.n());
    let most = stretches.len() as u32;
    let mut table = vec![in alloc; most; teams]?;
    lower_by_all(&mut table, stretches, side, league.constraints());
    Ok(table)
}

/// Lowers what each team is allowed by all constraints.
fn lower_by_all(table: &mut [u32], stretches: &[Stretch], side: Side, constraints: &[Constraint])
    requires n { length table.old ≤ 40 }
    requires within { All (λ t. t.first + t.count ≤ 78) stretches.now }
    requires fit { All (λ c. IsTrue (class_fits (length table.old) c.class)) constraints.now }
    requires start { IsUniform (length stretches.now) table.old }
    ensures { IsTableOn (length table.old) constraints.now stretches.now side table.new }
{
    for k in 0..constraints.len() {
        lower(table, stretches, side, &constraints[k]);
    }
}

/// Lowers what the teams of a hard BR1 on this side are allowed to its bound, if it counts each break of the stretches.
fn lower(table: &mut [u32], stretches: &[Stretch], side: Side, constraint: &Constraint)
    requires n { length table.old ≤ 40 }
    requires within { All (λ t. t.first + t.count ≤ 78) stretches.now }
    requires fits { IsTrue (class_fits (length table.old) constraint.now.class) }
    ensures { (i : ℕ) → slice_index table.old i ≤ length stretches.now → slice_index table.new i
        ≡ (if constraint.now.hard
        then min (slice_index table.old i) (counts.allowed_by stretches.now side i constraint.now.class)
        else slice_index table.old i) }
{
    let n = table.len() as u16;
    let Class::Br1 {
        teams,
        intp,
        side: other,
        slots,
    } = &constraint.class
    else {
        return;
    };
    if constraint.hard && *other == side && covers(slots.numbers(), stretches) {
        lower_all(table, team_numbers(n, teams), *intp);
    }
}

/// Lowers the numbers of these teams to at most `most`.
fn lower_all(table: &mut [u32], teams: &[u16], most: u32)
    requires { All (λ i. i < length table.old) teams.now }
    ensures { AreLowered teams.now table.old most table.new }
{
    for team in teams {
        let place = usize::from(*team);
        let known = table[place];
        table[place] = known.min(most);
    }
}
