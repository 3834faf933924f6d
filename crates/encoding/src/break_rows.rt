//! The rows that tie breaks to venues.
ghost use Rattle.std.specs.Prelude.{◌≡◌, ◌+◌, ◌^◌, ◌<◌, ◌≤◌, ◌++◌, [], ◌∷◌, length, not, OnOk};
ghost use Rattle.std.specs.List.{flat_map};
ghost use Rattle.league.specs.Counts as counts;
ghost use Rattle.rows.specs.Cardinality.{at_least};
ghost use Rattle.rows.specs.Literals.{no, yes};
ghost use Rattle.rows.specs.Sums.{literal};
ghost use Rattle.encoding.specs.Lists.{after_first};
ghost use Rattle.encoding.specs.Season as season_rows;

use crate::draft::Draft;
use crate::season::Season;
use crate::variables::{ab_at, h_at, hb_at};
use rows::{Lit, RowStore};
use std::alloc::AllocError;

/// Adds, where breaks have variables, what says whether each team has a break at each slot from 1 on.
pub(crate) fn add_break_rows(
    draft: &mut Draft,
    season: &Season,
    breaks: bool,
) -> Result<(), AllocError>
    requires room { length draft.old.rows + 18720 < 2 ^ 32 }
    ensures rows { OnOk result (draft.new.rows ≡ draft.old.rows ++ season_rows.break_rows season.now breaks) }
    ensures few { OnOk result (length draft.new.rows ≤ length draft.old.rows + 18720) }
{
    if breaks {
        add_rows_of_teams(draft, season)?;
    }
    Ok(())
}

/// Adds the rows of each team's breaks.
fn add_rows_of_teams(draft: &mut Draft, season: &Season) -> Result<(), AllocError>
    requires room { length draft.old.rows + 18720 < 2 ^ 32 }
    ensures rows { OnOk result (draft.new.rows ≡ draft.old.rows
        ++ flat_map
        (λ i. flat_map (season_rows.break_rows_at season.now i) (after_first (counts.slots_of season.now)))
        (counts.teams_of season.now)) }
    ensures few { OnOk result (length draft.new.rows ≤ length draft.old.rows + 18720) }
{
    let teams = season.teams();
    for team in teams {
        add_rows_of_slots(draft, season, *team)?;
    }
    Ok(())
}

/// Adds the rows of a team's breaks.
fn add_rows_of_slots(draft: &mut Draft, season: &Season, team: u16) -> Result<(), AllocError>
    requires team { team < season.now }
    requires room { length draft.old.rows + 468 < 2 ^ 32 }
    ensures rows { OnOk result (draft.new.rows ≡ draft.old.rows
        ++ flat_map (season_rows.break_rows_at season.now team) (after_first (counts.slots_of season.now))) }
    ensures few { OnOk result (length draft.new.rows ≤ length draft.old.rows + 468) }
{
    let slots = season.slots();
    for slot in slots {
        if *slot > 0 {
            add_rows_at(draft, season, team, *slot)?;
        }
    }
    Ok(())
}

/// Adds the rows of a team's breaks at a slot.
fn add_rows_at(draft: &mut Draft, season: &Season, team: u16, slot: u16) -> Result<(), AllocError>
    requires team { team < season.now }
    requires later { 0 < slot }
    requires slot { slot < counts.slot_count season.now }
    requires room { length draft.old.rows + 6 < 2 ^ 32 }
    ensures rows { OnOk result
        (draft.new.rows ≡ draft.old.rows ++ season_rows.break_rows_at season.now team slot) }
    ensures few { OnOk result (length draft.new.rows ≤ length draft.old.rows + 6) }
{
    let n = season.n();
    let before = h_at(n, team, slot - 1);
    let now = h_at(n, team, slot);
    let home = hb_at(n, team, slot);
    let away = ab_at(n, team, slot);
    add_both(&mut draft.rows, before, now, home, true)?;
    add_both(&mut draft.rows, before, now, away, false)?;
    Ok(())
}

/// Adds that a variable is true exactly where two before it both have this value.
fn add_both(rows: &mut RowStore, p: u32, q: u32, both: u32, value: bool) -> Result<(), AllocError>
    requires at_least { 1 ≤ p }
    requires first { p < q }
    requires second { q < both }
    requires at_most { both ≤ 200000 }
    requires room { length rows.old + 3 < 2 ^ 32 }
    ensures rows { OnOk result (rows.new ≡ rows.old
        ++ at_least 1 (literal p value ∷ no both ∷ [])
        ∷ at_least 1 (literal q value ∷ no both ∷ [])
        ∷ at_least 1 (literal p (not value) ∷ literal q (not value) ∷ yes both ∷ [])
        ∷ []) }
    ensures few { OnOk result (length rows.new ≤ length rows.old + 3) }
{
    add_two(rows, Lit::new(p, value), Lit::new(both, false))?;
    add_two(rows, Lit::new(q, value), Lit::new(both, false))?;
    add_three(
        rows,
        Lit::new(p, !value),
        Lit::new(q, !value),
        Lit::new(both, true),
    )?;
    Ok(())
}

/// Adds that one of two literals is true.
fn add_two(rows: &mut RowStore, first: Lit, second: Lit) -> Result<(), AllocError>
    requires order { first.var < second.var }
    requires room { length rows.old + 1 < 2 ^ 32 }
    ensures rows { OnOk result (rows.new ≡ rows.old ++ at_least 1 (first ∷ second ∷ []) ∷ []) }
    ensures few { OnOk result (length rows.new ≤ length rows.old + 1) }
{
    rows.push_at_least(&[first, second], 1)?;
    Ok(())
}

/// Adds that one of three literals is true.
fn add_three(rows: &mut RowStore, first: Lit, second: Lit, third: Lit) -> Result<(), AllocError>
    requires start { first.var < second.var }
    requires order { second.var < third.var }
    requires room { length rows.old + 1 < 2 ^ 32 }
    ensures rows { OnOk result (rows.new ≡ rows.old ++ at_least 1 (first ∷ second ∷ third ∷ []) ∷ []) }
    ensures few { OnOk result (length rows.new ≤ length rows.old + 1) }
{
    rows.push_at_least(&[first, second, third], 1)?;
    Ok(())
}
