//! The rows that tie the venues to the games. One row with a coefficient of n - 1 stands in place of n - 1 clauses.
ghost use Rattle.std.specs.Prelude.{◌≡◌, ◌+◌, ◌-◌, ◌^◌, ◌<◌, ◌≤◌, ◌++◌, [], ◌∷◌, length, map, OnOk};
ghost use Rattle.std.specs.List.{flat_map};
ghost use Rattle.league.specs.Capacity.{meetings_with};
ghost use Rattle.league.specs.Counts as counts;
ghost use Rattle.league.specs.declared.class.Side.TheVariants as side;
ghost use Rattle.rows.specs.Cardinality.{unit};
ghost use Rattle.rows.specs.Literals.{negate, no};
ghost use Rattle.encoding.specs.Season.{game_needs_home, home_games_in, home_needs_game, venue_rows};
ghost use Rattle.encoding.specs.Variables.{h_var};

use crate::draft::Draft;
use crate::meetings::meetings_in_order;
use crate::season::Season;
use crate::variables::h_at;
use league::Side;
use rows::{Lit, Term};
use std::alloc::{AllocError, Global};

/// Adds, for each team and slot, that its venue says whether it has a home game.
pub(crate) fn add_venue_rows(
    draft: &mut Draft,
    alloc: Global,
    season: &Season,
) -> Result<(), AllocError>
    requires room { length draft.old.rows + 6240 < 2 ^ 32 }
    ensures rows { OnOk result (draft.new.rows ≡ draft.old.rows ++ venue_rows season.now) }
    ensures few { OnOk result (length draft.new.rows ≤ length draft.old.rows + 6240) }
{
    let teams = season.teams();
    for team in teams {
        let meetings = meetings_in_order(alloc, Side::H, *team, teams)?;
        add_venue_rows_of(draft, season, *team, &meetings)?;
    }
    Ok(())
}

/// Adds the rows of a team's venues. `meetings` are all its home meetings.
fn add_venue_rows_of(
    draft: &mut Draft,
    season: &Season,
    team: u16,
    meetings: &[(u16, u16)],
) -> Result<(), AllocError>
    requires team { team < season.now }
    requires meetings { meetings.now ≡ meetings_with side.H team (counts.teams_of season.now) }
    requires room { length draft.old.rows + 156 < 2 ^ 32 }
    ensures rows { OnOk result (draft.new.rows ≡ draft.old.rows
        ++ flat_map (λ s. home_needs_game season.now team s ∷ game_needs_home season.now team s ∷ [])
        (counts.slots_of season.now)) }
    ensures few { OnOk result (length draft.new.rows ≤ length draft.old.rows + 156) }
{
    let slots = season.slots();
    for slot in slots {
        tie(draft, season, team, meetings, *slot)?;
    }
    Ok(())
}

/// Adds the two rows of a team's venue in a slot. `meetings` are all its home meetings.
fn tie(
    draft: &mut Draft,
    season: &Season,
    team: u16,
    meetings: &[(u16, u16)],
    slot: u16,
) -> Result<(), AllocError>
    requires team { team < season.now }
    requires meetings { meetings.now ≡ meetings_with side.H team (counts.teams_of season.now) }
    requires slot { slot < counts.slot_count season.now }
    requires room { length draft.old.rows + 2 < 2 ^ 32 }
    ensures rows { OnOk result (draft.new.rows ≡ draft.old.rows
        ++ home_needs_game season.now team slot ∷ game_needs_home season.now team slot ∷ []) }
    ensures few { OnOk result (length draft.new.rows ≤ length draft.old.rows + 2) }
{
    list_tie(draft, season, team, meetings, slot)?;
    draft.rows.push_at_least(&draft.literals, 1)?;
    draft.rows.push(&draft.terms, u64::from(season.n() - 1))?;
    Ok(())
}

/// Lists the literals and the terms of which the two rows of a team and a slot are made.
fn list_tie(
    draft: &mut Draft,
    season: &Season,
    team: u16,
    meetings: &[(u16, u16)],
    slot: u16,
) -> Result<(), AllocError>
    requires team { team < season.now }
    requires meetings { meetings.now ≡ meetings_with side.H team (counts.teams_of season.now) }
    requires slot { slot < counts.slot_count season.now }
    ensures literals { OnOk result (draft.new.literals.items
        ≡ home_games_in season.now team slot ++ no (h_var season.now team slot) ∷ []) }
    ensures terms { OnOk result (draft.new.terms.items ≡ (game_needs_home season.now team slot).terms) }
    ensures rows { draft.new.rows ≡ draft.old.rows }
{
    let n = season.n();
    draft.list_games(n, meetings, &[slot])?;
    let home = Lit::new(h_at(n, team, slot), true);
    weigh(&mut draft.terms, &draft.literals, u32::from(n - 1), home)?;
    draft.literals.push(home.negate())?;
    Ok(())
}

/// Lists the negations of some literals, each with coefficient 1, and a last literal with a coefficient of its own.
fn weigh(terms: &mut Vec<Term>, literals: &[Lit], coef: u32, last: Lit) -> Result<(), AllocError>
    ensures { OnOk result
        (terms.new.items ≡ map unit (map negate literals.now) ++ record { coef = coef; lit = last } ∷ []) }
{
    terms.clear();
    for literal in literals {
        terms.push(Term {
            coef: 1,
            lit: literal.negate(),
        })?;
    }
    terms.push(Term { coef, lit: last })?;
    Ok(())
}
