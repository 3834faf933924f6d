//! What a team does in a slot.
ghost use Rattle.std.specs.Prelude.{◌≡◌, ◌<◌, ◌≤◌, IfOk, string_bytes};
ghost use Rattle.league.specs.Breaks as breaks;
ghost use Rattle.league.specs.declared.class.Side.TheVariants.{Both};
ghost use Rattle.league.specs.Counts.{slot_count};
ghost use Rattle.rule_core.specs.Table.{table_counts};
ghost use Rattle.command_show.specs.Cell as cell;

use league::{SlotId, TeamId};
use rule_core::Cells;
use std::alloc::{AllocError, Global};

/// The first team that a team is at home to in a slot, or n where there is none.
fn guest(cells: &Cells, team: TeamId, slot: SlotId) -> u16
    requires team { team.0 < cells.now.n }
    requires slot { slot.0 < slot_count cells.now.n }
    ensures { result ≡ cell.opponent cells.now.n (λ j. table_counts cells.now team.0 j slot.0) }
{
    let n = cells.n();
    for number in 0..n {
        if cells.at(team, TeamId(number), slot) > 0 {
            return number;
        }
    }
    n
}

/// The first team that a team is away at in a slot, or n where there is none.
fn host(cells: &Cells, team: TeamId, slot: SlotId) -> u16
    requires team { team.0 < cells.now.n }
    requires slot { slot.0 < slot_count cells.now.n }
    ensures { result ≡ cell.opponent cells.now.n (λ j. table_counts cells.now j team.0 slot.0) }
{
    let n = cells.n();
    for number in 0..n {
        if cells.at(TeamId(number), team, slot) > 0 {
            return number;
        }
    }
    n
}

/// How many games there are, if not one.
fn many_games(alloc: Global, games: u32) -> Result<String, AllocError>
    ensures { IfOk result (λ text. string_bytes text ≡ cell.many_games games) }
{
    match games {
        0 => String::from_str(alloc, "-"),
        1..=9 => format!(in alloc; "#{games}"),
        _ => String::from_str(alloc, "#+"),
    }
}

/// The games of a team in a slot.
pub(crate) fn games_text(
    alloc: Global,
    cells: &Cells,
    team: TeamId,
    slot: SlotId,
) -> Result<String, AllocError>
    requires team { team.0 < cells.now.n }
    requires slot { slot.0 < slot_count cells.now.n }
    ensures { IfOk result (λ text. string_bytes text
        ≡ cell.games_text cells.now.n (table_counts cells.now) team.0 slot.0) }
{
    let at_home = cells.home(team, slot);
    let games = at_home + cells.away(team, slot);
    if games != 1 {
        return many_games(alloc, games);
    }
    if at_home == 1 {
        let guest = guest(cells, team, slot);
        return format!(in alloc; "{guest}");
    }
    let host = host(cells, team, slot);
    format!(in alloc; "@{host}")
}

/// Whether a team is at home in a slot and in the slot before.
fn is_home_break(cells: &Cells, team: TeamId, slot: SlotId) -> bool
    requires team { team.0 < cells.now.n }
    requires slot { slot.0 < slot_count cells.now.n }
    ensures { result ≡ breaks.is_home_break cells.now.n (table_counts cells.now) team.0 slot.0 }
{
    slot.0 > 0 && cells.home(team, SlotId(slot.0 - 1)) > 0 && cells.home(team, slot) > 0
}

/// Whether a team is away in a slot and in the slot before.
fn is_away_break(cells: &Cells, team: TeamId, slot: SlotId) -> bool
    requires team { team.0 < cells.now.n }
    requires slot { slot.0 < slot_count cells.now.n }
    ensures { result ≡ breaks.is_away_break cells.now.n (table_counts cells.now) team.0 slot.0 }
{
    slot.0 > 0 && cells.away(team, SlotId(slot.0 - 1)) > 0 && cells.away(team, slot) > 0
}

/// The breaks of a team at a slot, at home and away.
pub(crate) fn breaks_at(cells: &Cells, team: TeamId, slot: SlotId) -> u32
    requires team { team.0 < cells.now.n }
    requires slot { slot.0 < slot_count cells.now.n }
    ensures value { result ≡ breaks.breaks_at cells.now.n (table_counts cells.now) Both team.0 slot.0 }
    ensures few { result ≤ 2 }
{
    u32::from(is_home_break(cells, team, slot)) + u32::from(is_away_break(cells, team, slot))
}

/// Whether a team has a break at a slot, at home or away.
pub(crate) fn has_break(cells: &Cells, team: TeamId, slot: SlotId) -> bool
    requires team { team.0 < cells.now.n }
    requires slot { slot.0 < slot_count cells.now.n }
    ensures { result ≡ cell.has_break cells.now.n (table_counts cells.now) team.0 slot.0 }
{
    is_home_break(cells, team, slot) || is_away_break(cells, team, slot)
}

/// How often two teams meet in the first half, at either venue.
fn early_meetings(cells: &Cells, first: TeamId, second: TeamId) -> u32
    requires first { first.0 < cells.now.n }
    requires second { second.0 < cells.now.n }
    ensures { result ≡ cell.early_meetings cells.now.n (table_counts cells.now) first.0 second.0 }
{
    let mut meetings = 0;
    for number in 0..cells.n() - 1 {
        meetings += cells.between(first, second, SlotId(number));
    }
    meetings
}

/// Whether a team plays a team in a slot that it doesn't meet just once in the first half.
pub(crate) fn is_misphased(cells: &Cells, team: TeamId, slot: SlotId) -> bool
    requires team { team.0 < cells.now.n }
    requires slot { slot.0 < slot_count cells.now.n }
    ensures { result ≡ cell.is_misphased cells.now.n (table_counts cells.now) team.0 slot.0 }
{
    for number in 0..cells.n() {
        let other = TeamId(number);
        if cells.between(team, other, slot) > 0 && early_meetings(cells, team, other) != 1 {
            return true;
        }
    }
    false
}

/// The mark of a cell, by whether there is a break, and whether a pair is in the wrong half.
pub(crate) fn mark(broken: bool, misphased: bool) -> &'static [u8]
    ensures { result.now ≡ cell.mark broken misphased }
{
    match (broken, misphased) {
        (true, true) => b"%",
        (true, false) => b"*",
        (false, true) => b"!",
        (false, false) => b" ",
    }
}
