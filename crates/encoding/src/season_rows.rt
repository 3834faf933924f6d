//! The rows that make a double round robin.
ghost use Rattle.std.specs.Prelude.{◌≡◌, ◌≢◌, ◌+◌, ◌*◌, ◌-◌, ◌^◌, ◌<◌, ◌≤◌, ◌++◌, [], ◌∷◌, length, map, OnOk};
ghost use Rattle.std.specs.List.{All, AllPairs, flat_map};
ghost use Rattle.league.specs.Capacity.{meetings_with};
ghost use Rattle.league.specs.Counts as counts;
ghost use Rattle.league.specs.Structure as structure;
ghost use Rattle.league.specs.declared.class.Side.TheVariants as side;
ghost use Rattle.rows.specs.Cardinality.{exactly};
ghost use Rattle.rows.specs.Literals.{yes};
ghost use Rattle.encoding.specs.Ascending.{AreMeetings, AreSlots};
ghost use Rattle.encoding.specs.Lists as lists;
ghost use Rattle.encoding.specs.Lists.{at_home_in, games_in};
ghost use Rattle.encoding.specs.Season as season_rows;
ghost use Rattle.encoding.specs.Variables.{h_var};

use crate::draft::Draft;
use crate::literals::{add_teams_at_home, add_venue};
use crate::meetings::{meetings_in_order, pairs_of};
use crate::season::Season;
use league::Side;
use std::alloc::{AllocError, Global};

/// Adds that each meeting takes place once.
pub(crate) fn add_meeting_rows(draft: &mut Draft, season: &Season) -> Result<(), AllocError>
    requires room { length draft.old.rows + 3120 < 2 ^ 32 }
    ensures rows { OnOk result (draft.new.rows ≡ draft.old.rows ++ season_rows.meeting_rows season.now) }
    ensures few { OnOk result (length draft.new.rows ≤ length draft.old.rows + 3120) }
{
    let meetings = season.meetings();
    let slots = season.slots();
    for meeting in meetings {
        push_one_game(draft, season, &[*meeting], slots)?;
    }
    Ok(())
}

/// Adds that one of the games of some meetings in some slots takes place.
fn push_one_game(
    draft: &mut Draft,
    season: &Season,
    meetings: &[(u16, u16)],
    slots: &[u16],
) -> Result<(), AllocError>
    requires meetings { AreMeetings season.now meetings.now }
    requires slots { AreSlots season.now slots.now }
    requires room { length draft.old.rows + 2 < 2 ^ 32 }
    ensures rows { OnOk result
        (draft.new.rows ≡ draft.old.rows ++ exactly 1 (games_in season.now meetings.now slots.now)) }
    ensures few { OnOk result (length draft.new.rows ≤ length draft.old.rows + 2) }
{
    draft.push_games_exactly(season.n(), meetings, slots, 1)?;
    Ok(())
}

/// Adds that each team has one game in each slot.
pub(crate) fn add_cell_rows(
    draft: &mut Draft,
    alloc: Global,
    season: &Season,
) -> Result<(), AllocError>
    requires room { length draft.old.rows + 6240 < 2 ^ 32 }
    ensures rows { OnOk result (draft.new.rows ≡ draft.old.rows ++ season_rows.cell_rows season.now) }
    ensures few { OnOk result (length draft.new.rows ≤ length draft.old.rows + 6240) }
{
    let teams = season.teams();
    for team in teams {
        let meetings = meetings_in_order(alloc, Side::Both, *team, teams)?;
        add_cell_rows_of(draft, season, *team, &meetings)?;
    }
    Ok(())
}

/// Adds that a team has one game in each slot, where its meetings are listed.
fn add_cell_rows_of(
    draft: &mut Draft,
    season: &Season,
    team: u16,
    meetings: &[(u16, u16)],
) -> Result<(), AllocError>
    requires team { team < season.now }
    requires meetings { meetings.now ≡ lists.meetings_in_order side.Both team (counts.teams_of season.now) }
    requires room { length draft.old.rows + 156 < 2 ^ 32 }
    ensures rows { OnOk result (draft.new.rows
        ≡ draft.old.rows ++ flat_map (season_rows.cell_rows_at season.now team) (counts.slots_of season.now)) }
    ensures few { OnOk result (length draft.new.rows ≤ length draft.old.rows + 156) }
{
    let slots = season.slots();
    for slot in slots {
        add_cell_row(draft, season, team, meetings, *slot)?;
    }
    Ok(())
}

/// Adds that a team has one game in a slot, where its meetings are listed.
fn add_cell_row(
    draft: &mut Draft,
    season: &Season,
    team: u16,
    meetings: &[(u16, u16)],
    slot: u16,
) -> Result<(), AllocError>
    requires team { team < season.now }
    requires meetings { meetings.now ≡ lists.meetings_in_order side.Both team (counts.teams_of season.now) }
    requires slot { slot < counts.slot_count season.now }
    requires room { length draft.old.rows + 2 < 2 ^ 32 }
    ensures rows { OnOk result
        (draft.new.rows ≡ draft.old.rows ++ season_rows.cell_rows_at season.now team slot) }
    ensures few { OnOk result (length draft.new.rows ≤ length draft.old.rows + 2) }
{
    push_one_game(draft, season, meetings, &[slot])?;
    Ok(())
}

/// Adds, in a phased league, that each two teams meet once in the first half of the season.
pub(crate) fn add_half_rows(
    draft: &mut Draft,
    alloc: Global,
    season: &Season,
    phased: bool,
) -> Result<(), AllocError>
    requires room { length draft.old.rows + 1560 < 2 ^ 32 }
    ensures rows { OnOk result (draft.new.rows ≡ draft.old.rows ++ season_rows.half_rows season.now phased) }
    ensures few { OnOk result (length draft.new.rows ≤ length draft.old.rows + 1560) }
{
    if phased {
        let pairs = pairs_of(alloc, season.teams())?;
        add_half_rows_of(draft, season, &pairs)?;
    }
    Ok(())
}

/// Adds that each two teams meet once in the first half of the season, where their pairs are listed.
fn add_half_rows_of(
    draft: &mut Draft,
    season: &Season,
    pairs: &[(u16, u16)],
) -> Result<(), AllocError>
    requires pairs { All (λ p. (p.0 < p.1) × (p.1 < season.now)) pairs.now }
    requires few { length pairs.now ≤ 780 }
    requires room { length draft.old.rows + 1560 < 2 ^ 32 }
    ensures rows { OnOk result (draft.new.rows ≡ draft.old.rows
        ++ flat_map (λ p. exactly 1 (games_in season.now (p ∷ (p.1, p.0) ∷ []) (structure.first_half season.now)))
        pairs.now) }
    ensures few { OnOk result (length draft.new.rows ≤ length draft.old.rows + 1560) }
{
    let half = season.run(0, season.n() - 1);
    for pair in pairs {
        push_one_game(draft, season, &[*pair, (pair.1, pair.0)], half)?;
    }
    Ok(())
}

/// Adds that in each slot half of the teams play at home.
pub(crate) fn add_slot_rows(draft: &mut Draft, season: &Season) -> Result<(), AllocError>
    requires room { length draft.old.rows + 156 < 2 ^ 32 }
    ensures rows { OnOk result (draft.new.rows ≡ draft.old.rows ++ season_rows.slot_rows season.now) }
    ensures few { OnOk result (length draft.new.rows ≤ length draft.old.rows + 156) }
{
    let half = u64::from(season.n() / 2);
    let slots = season.slots();
    for slot in slots {
        list_teams_at_home(draft, season, *slot)?;
        draft.push_exactly(half)?;
    }
    Ok(())
}

/// Lists which teams are at home in a slot.
fn list_teams_at_home(draft: &mut Draft, season: &Season, slot: u16) -> Result<(), AllocError>
    requires { slot < counts.slot_count season.now }
    ensures listed { OnOk result
        (draft.new.literals.items ≡ map (λ i. yes (h_var season.now i slot)) (counts.teams_of season.now)) }
    ensures variables { OnOk result (AllPairs (λ l m. l.var ≢ m.var) draft.new.literals.items) }
    ensures rows { draft.new.rows ≡ draft.old.rows }
{
    draft.literals.clear();
    add_teams_at_home(&mut draft.literals, season.n(), season.teams(), slot)?;
    Ok(())
}

/// Adds that each team plays at home in half of its games.
pub(crate) fn add_team_rows(draft: &mut Draft, season: &Season) -> Result<(), AllocError>
    requires room { length draft.old.rows + 80 < 2 ^ 32 }
    ensures rows { OnOk result (draft.new.rows ≡ draft.old.rows ++ season_rows.team_rows season.now) }
    ensures few { OnOk result (length draft.new.rows ≤ length draft.old.rows + 80) }
{
    let count = u64::from(season.n() - 1);
    let teams = season.teams();
    for team in teams {
        list_home_slots(draft, season, *team)?;
        draft.push_exactly(count)?;
    }
    Ok(())
}

/// Lists in which slots a team is at home.
fn list_home_slots(draft: &mut Draft, season: &Season, team: u16) -> Result<(), AllocError>
    requires { team < season.now }
    ensures listed { OnOk result
        (draft.new.literals.items ≡ at_home_in season.now team (counts.slots_of season.now)) }
    ensures variables { OnOk result (AllPairs (λ l m. l.var ≢ m.var) draft.new.literals.items) }
    ensures rows { draft.new.rows ≡ draft.old.rows }
{
    draft.literals.clear();
    add_venue(&mut draft.literals, season.n(), team, true, season.slots())?;
    Ok(())
}
