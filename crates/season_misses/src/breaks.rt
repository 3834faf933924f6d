//! Reasons of BR1 and BR2: more breaks than allowed.
ghost use Rattle.std.specs.Prelude.{◌≡◌, ◌<◌, ◌++◌, OnOk, IfOk};
ghost use Rattle.std.specs.List.{All, flat_map};
ghost use Rattle.league.specs.Breaks as breaks;
ghost use Rattle.league.specs.Counts.{slot_count};
ghost use Rattle.league.specs.declared.class.Side.TheVariants.{Both};
ghost use Rattle.rule_core.specs.Table.{table_counts};
ghost use Rattle.season_misses.specs.Own.{IsSeason};
ghost use Rattle.season_misses.specs.Reasons as specs;

use crate::bounded::push_missed;
use crate::counted_games::games_that_pass;
use crate::game_test::GameTest;
use crate::reason::{Break, BreakList, Cause, Reason};
use crate::season::Season;
use crate::tests_of_games::Player;
use league::{Game, Side, SlotId, TeamId};
use rule_core::Cells;
use std::alloc::{AllocError, Global};

/// Whether a team has a home break at a slot.
fn is_home_break(cells: &Cells, team: TeamId, slot: SlotId) -> bool
    requires team { team.0 < cells.now.n }
    requires slot { slot.0 < slot_count cells.now.n }
    ensures { result ≡ breaks.is_home_break cells.now.n (table_counts cells.now) team.0 slot.0 }
{
    slot.0 > 0 && cells.home(team, SlotId(slot.0 - 1)) > 0 && cells.home(team, slot) > 0
}

/// Whether a team has an away break at a slot.
fn is_away_break(cells: &Cells, team: TeamId, slot: SlotId) -> bool
    requires team { team.0 < cells.now.n }
    requires slot { slot.0 < slot_count cells.now.n }
    ensures { result ≡ breaks.is_away_break cells.now.n (table_counts cells.now) team.0 slot.0 }
{
    slot.0 > 0 && cells.away(team, SlotId(slot.0 - 1)) > 0 && cells.away(team, slot) > 0
}

/// A break with its games.
fn break_of(
    alloc: Global,
    games: &[Game],
    player: Player,
    slot: SlotId,
) -> Result<Break, AllocError>
    ensures { IfOk result (λ found. found ≡ specs.break_of games.now player.side player.team slot.0) }
{
    let test = GameTest::Break { player, slot };
    Ok(Break {
        team: TeamId(player.team),
        side: player.side,
        slot,
        games: games_that_pass(alloc, games, &test)?,
    })
}

/// Adds a team's home break at a slot, if it has one.
fn push_home_break(
    season: &Season<'_>,
    team: TeamId,
    slot: SlotId,
    found: &mut Vec<Break>,
) -> Result<(), AllocError>
    requires team { team.0 < season.now.cells.now.n }
    requires slot { slot.0 < slot_count season.now.cells.now.n }
    requires season { IsSeason season.now }
    ensures { OnOk result (found.new.items
        ≡ found.old.items ++ specs.home_break_at season.now.cells.now.n season.now.games.now team.0 slot.0) }
{
    if is_home_break(season.cells, team, slot) {
        let side = Side::H;
        let player = Player { team: team.0, side };
        let alloc = *found.allocator();
        found.push(break_of(alloc, season.games, player, slot)?)?;
    }
    Ok(())
}

/// Adds a team's away break at a slot, if it has one.
fn push_away_break(
    season: &Season<'_>,
    team: TeamId,
    slot: SlotId,
    found: &mut Vec<Break>,
) -> Result<(), AllocError>
    requires team { team.0 < season.now.cells.now.n }
    requires slot { slot.0 < slot_count season.now.cells.now.n }
    requires season { IsSeason season.now }
    ensures { OnOk result (found.new.items
        ≡ found.old.items ++ specs.away_break_at season.now.cells.now.n season.now.games.now team.0 slot.0) }
{
    if is_away_break(season.cells, team, slot) {
        let side = Side::A;
        let player = Player { team: team.0, side };
        let alloc = *found.allocator();
        found.push(break_of(alloc, season.games, player, slot)?)?;
    }
    Ok(())
}

/// Adds a team's breaks on a side at a slot.
fn push_breaks_at(
    season: &Season<'_>,
    player: Player,
    slot: SlotId,
    found: &mut Vec<Break>,
) -> Result<(), AllocError>
    requires team { player.team < season.now.cells.now.n }
    requires slot { slot.0 < slot_count season.now.cells.now.n }
    requires season { IsSeason season.now }
    ensures { OnOk result (found.new.items
        ≡ found.old.items ++ specs.breaks_at_slot season.now.cells.now.n season.now.games.now player.side player.team slot.0) }
{
    let team = TeamId(player.team);
    match player.side {
        Side::H => push_home_break(season, team, slot, found),
        Side::A => push_away_break(season, team, slot, found),
        Side::Both => {
            push_home_break(season, team, slot, found)?;
            push_away_break(season, team, slot, found)
        }
    }
}

/// Adds a team's breaks on a side at some slots.
pub(crate) fn push_breaks(
    season: &Season<'_>,
    player: Player,
    slots: &[u16],
    found: &mut Vec<Break>,
) -> Result<(), AllocError>
    requires team { player.team < season.now.cells.now.n }
    requires slots { All (λ s. s < slot_count season.now.cells.now.n) slots.now }
    requires season { IsSeason season.now }
    ensures { OnOk result (found.new.items
        ≡ found.old.items ++ specs.breaks_of season.now.cells.now.n season.now.games.now player.side slots.now player.team) }
{
    for slot in slots {
        push_breaks_at(season, player, SlotId(*slot), found)?;
    }
    Ok(())
}

/// Adds all breaks of some teams at some slots.
pub(crate) fn push_all_breaks(
    season: &Season<'_>,
    teams: &[u16],
    slots: &[u16],
    found: &mut Vec<Break>,
) -> Result<(), AllocError>
    requires teams { All (λ t. t < season.now.cells.now.n) teams.now }
    requires slots { All (λ s. s < slot_count season.now.cells.now.n) slots.now }
    requires season { IsSeason season.now }
    ensures { OnOk result (found.new.items
        ≡ found.old.items ++ flat_map (specs.breaks_of season.now.cells.now.n season.now.games.now Both slots.now) teams.now) }
{
    for team in teams {
        let side = Side::Both;
        let player = Player { team: *team, side };
        push_breaks(season, player, slots, found)?;
    }
    Ok(())
}

/// Adds the reason of an entry, by the breaks that are counted.
pub(crate) fn push_by_breaks(
    key: usize,
    intp: u32,
    found: Vec<Break>,
    reasons: &mut Vec<Reason>,
) -> Result<(), AllocError>
    ensures { OnOk result (reasons.new.items ≡ reasons.old.items ++ specs.by_breaks key intp found.items) }
{
    let amount = (found.len() as u64).saturating_sub(u64::from(intp));
    let breaks = BreakList { breaks: found };
    push_missed(key, amount, Cause::Breaks(breaks), reasons)
}
