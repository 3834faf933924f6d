//! Reasons of FA2: two teams of which one has played many more home games than the other.
ghost use Rattle.std.specs.Prelude.{◌≡◌, ◌<◌, ◌++◌, ◌==◌, length, Some, OnOk, IfOk, IfSome};
ghost use Rattle.std.specs.List.{All, find};
ghost use Rattle.league.specs.Bounds.{largest};
ghost use Rattle.league.specs.Counts.{counts_of, slot_count};
ghost use Rattle.rule_core.specs.Table.{table_counts};
ghost use Rattle.season_misses.specs.Own.{IsSeason};
ghost use Rattle.season_misses.specs.Reasons as specs;
ghost use Rattle.season_misses.specs.Runs as runs;
ghost use Rattle.season_misses.specs.Runs.{runs_apart};

use crate::bounded::push_missed;
use crate::counted_games::home_games_to;
use crate::reason::{Cause, Reason};
use crate::season::Season;
use league::{SlotId, TeamId};
use rule_core::Cells;
use std::alloc::{AllocError, Global};

/// Two teams with the key of their entry.
#[derive(Clone, Copy)]
pub(crate) struct PairAt {
    pub(crate) key: usize,
    pub(crate) first: TeamId,
    pub(crate) second: TeamId,
}

/// How many home games a team has played after each slot of the season.
fn home_runs(alloc: Global, cells: &Cells, team: TeamId) -> Result<Vec<u32>, AllocError>
    requires { team.0 < cells.now.n }
    ensures { IfOk result (λ list. list.items ≡ runs.home_runs cells.now.n (table_counts cells.now) team.0) }
{
    let mut played = Vec::with_capacity(alloc, usize::from(cells.slots()))?;
    let mut games: u32 = 0;
    for slot in 0..cells.slots() {
        games += cells.home(team, SlotId(slot));
        played.push(games)?;
    }
    Ok(played)
}

/// How far the home games of two teams are apart after a slot.
fn apart(first: &[u32], second: &[u32], slot: u16) -> u32
    requires first { slot < length first.now }
    requires second { slot < length second.now }
    ensures { result ≡ runs_apart first.now second.now slot }
{
    first[usize::from(slot)].abs_diff(second[usize::from(slot)])
}

/// The largest such difference after one of these slots, or 0 where there are none.
fn largest_apart(first: &[u32], second: &[u32], slots: &[u16]) -> u32
    requires first { All (λ s. s < length first.now) slots.now }
    requires second { All (λ s. s < length second.now) slots.now }
    ensures { result ≡ largest (runs_apart first.now second.now) slots.now }
{
    let mut most: u32 = 0;
    for slot in slots {
        most = most.max(apart(first, second, *slot));
    }
    most
}

/// The first of these slots after which the home games of two teams are furthest apart.
fn furthest(first: &[u32], second: &[u32], slots: &[u16]) -> Option<u16>
    requires first { All (λ s. s < length first.now) slots.now }
    requires second { All (λ s. s < length second.now) slots.now }
    ensures slot { result ≡ find (λ s. runs_apart first.now second.now s
        == largest (runs_apart first.now second.now) slots.now) slots.now }
    ensures first { IfSome result (λ slot. slot < length first.now) }
    ensures second { IfSome result (λ slot. slot < length second.now) }
{
    let most = largest_apart(first, second, slots);
    for slot in slots {
        if apart(first, second, *slot) == most {
            return Some(*slot);
        }
    }
    None
}

/// Adds the reason of the entry of two teams, which are so far apart after a slot.
fn push_lead_at(
    season: &Season<'_>,
    pair: PairAt,
    intp: u32,
    slot: u16,
    far: u32,
    reasons: &mut Vec<Reason>,
) -> Result<(), AllocError>
    requires season { IsSeason season.now }
    requires first { pair.first.0 < season.now.cells.now.n }
    requires second { pair.second.0 < season.now.cells.now.n }
    requires far { far ≡ specs.apart season.now.cells.now.n (counts_of season.now.games.now)
        (pair.first.0, pair.second.0) slot }
    ensures { OnOk result (reasons.new.items ≡ reasons.old.items
        ++ specs.by_lead pair.key season.now.cells.now.n intp season.now.games.now (pair.first.0, pair.second.0)
        (Some slot)) }
{
    let amount = far.saturating_sub(intp);
    let alloc = *reasons.allocator();
    let cause = Cause::Lead {
        slot: SlotId(slot),
        first: home_games_to(alloc, season, pair.first, slot)?,
        second: home_games_to(alloc, season, pair.second, slot)?,
    };
    push_missed(pair.key, u64::from(amount), cause, reasons)?;
    Ok(())
}

/// Adds the reason of an entry of FA2, where there is a slot after which it is counted.
pub(crate) fn push_lead(
    season: &Season<'_>,
    pair: PairAt,
    intp: u32,
    slots: &[u16],
    reasons: &mut Vec<Reason>,
) -> Result<(), AllocError>
    requires season { IsSeason season.now }
    requires first { pair.first.0 < season.now.cells.now.n }
    requires second { pair.second.0 < season.now.cells.now.n }
    requires slots { All (λ s. s < slot_count season.now.cells.now.n) slots.now }
    ensures { OnOk result (reasons.new.items ≡ reasons.old.items
        ++ specs.by_lead pair.key season.now.cells.now.n intp season.now.games.now (pair.first.0, pair.second.0)
        (specs.furthest season.now.cells.now.n (counts_of season.now.games.now) slots.now
        (pair.first.0, pair.second.0))) }
{
    let alloc = *reasons.allocator();
    let first = home_runs(alloc, season.cells, pair.first)?;
    let second = home_runs(alloc, season.cells, pair.second)?;
    if let Some(slot) = furthest(&first, &second, slots) {
        let far = apart(&first, &second, slot);
        push_lead_at(season, pair, intp, slot, far, reasons)?;
    }
    Ok(())
}
