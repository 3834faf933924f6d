//! From schedules to assignments.
ghost use Rattle.std.specs.Prelude.{◌≡◌, ◌+◌, ◌<◌, ◌≤◌, ◌||◌, ◌==◌, ℕ, true, length, nat_lt, IfOk, OnOk};
ghost use Rattle.std.specs.List.{All, list_any};
ghost use Rattle.league.specs.Accepted.{IsAccepted};
ghost use Rattle.league.specs.Breaks.{is_away_break, is_home_break};
ghost use Rattle.league.specs.Counts.{counts_of, slot_count};
ghost use Rattle.league.specs.Instance.{IsGame};
ghost use Rattle.league.specs.Venues.{away_games, home_games};
ghost use Rattle.rows.specs.Rows.{SatisfiesAll};
ghost use Rattle.rows.specs.Values.{assigned};
ghost use Rattle.encoding.specs.Encoding.{rows_of};
ghost use Rattle.encoding.specs.Shadow.{IsShadow};
ghost use Rattle.encoding.specs.Variables.{ab_var, h_count, h_var, has_breaks, hb_var, var_count, x_count};
ghost use Rattle.decoding.specs.Marks.{marks_away, marks_away_break, marks_game, marks_home, marks_home_break};

use encoding::Encoding;
use league::{Game, Schedule, SlotId};
use rows::Assignment;
use std::alloc::{AllocError, Global};

/// What a schedule makes true: x where the game is in it, h where the team has a home game, and, where breaks have
/// variables, hb and ab where the team has the break. Where the league accepts the schedule, every row is satisfied.
///
/// # Errors
/// Only where memory runs out.
pub fn shadow(
    alloc: Global,
    encoding: &Encoding,
    schedule: &Schedule,
) -> Result<Assignment, AllocError>
    requires fit { All (IsGame encoding.now.n) schedule.now }
    ensures length { IfOk result (λ values. length values ≡ var_count encoding.now) }
    ensures shadow { IfOk result (λ values. IsShadow encoding.now.n (has_breaks encoding.now.constraints)
        (counts_of schedule.now) (assigned values)) }
    ensures satisfies { IsAccepted encoding.now (counts_of schedule.now) →
        IfOk result (λ values. SatisfiesAll (assigned values) (rows_of encoding.now)) }
{
    let games = schedule.games();
    let mut values = Assignment::new(alloc, encoding.vars())?;
    mark_games(&mut values, encoding, games);
    mark_home_games(&mut values, encoding, games);
    mark_breaks(alloc, &mut values, encoding, games)?;
    Ok(values)
}

/// Where breaks have variables, makes those of the games' breaks true.
fn mark_breaks(
    alloc: Global,
    values: &mut Assignment,
    encoding: &Encoding,
    games: &[Game],
) -> Result<(), AllocError>
    requires made_for { length values.old ≡ var_count encoding.now }
    requires fit { All (IsGame encoding.now.n) games.now }
    ensures length { OnOk result (length values.new ≡ length values.old) }
    ensures kept { OnOk result ((v : ℕ) → 1 ≤ v → v ≤ x_count encoding.now.n + h_count encoding.now.n →
        assigned values.new v ≡ assigned values.old v) }
    ensures home { OnOk result (has_breaks encoding.now.constraints ≡ true →
        (i s : ℕ) → i < encoding.now.n → 0 < s → s < slot_count encoding.now.n →
        assigned values.new (hb_var encoding.now.n i s) ≡ (is_home_break encoding.now.n (counts_of games.now) i s
        || assigned values.old (hb_var encoding.now.n i s))) }
    ensures away { OnOk result (has_breaks encoding.now.constraints ≡ true →
        (i s : ℕ) → i < encoding.now.n → 0 < s → s < slot_count encoding.now.n →
        assigned values.new (ab_var encoding.now.n i s) ≡ (is_away_break encoding.now.n (counts_of games.now) i s
        || assigned values.old (ab_var encoding.now.n i s))) }
{
    if !encoding.has_breaks() {
        return Ok(());
    }
    let home = home_table(alloc, encoding, games)?;
    let away = away_table(alloc, encoding, games)?;
    mark_home_breaks(values, &home, encoding, games);
    mark_away_breaks(values, &away, encoding, games);
    Ok(())
}

/// Where the teams are at home: the variable of a team and slot is true where the team has a home game in the slot.
fn home_table(alloc: Global, encoding: &Encoding, games: &[Game]) -> Result<Assignment, AllocError>
    requires fit { All (IsGame encoding.now.n) games.now }
    ensures length { IfOk result (λ home. length home ≡ var_count encoding.now) }
    ensures told { IfOk result (λ home. (i s : ℕ) → s < slot_count encoding.now.n →
        assigned home (h_var encoding.now.n i s) ≡ nat_lt 0 (home_games encoding.now.n (counts_of games.now) i s)) }
{
    let mut home = Assignment::new(alloc, encoding.vars())?;
    mark_home_games(&mut home, encoding, games);
    Ok(home)
}

/// Where the teams are away: there the variable of a team and slot is true where the team has an away game in the slot.
fn away_table(alloc: Global, encoding: &Encoding, games: &[Game]) -> Result<Assignment, AllocError>
    requires fit { All (IsGame encoding.now.n) games.now }
    ensures length { IfOk result (λ away. length away ≡ var_count encoding.now) }
    ensures told { IfOk result (λ away. (i s : ℕ) → s < slot_count encoding.now.n →
        assigned away (h_var encoding.now.n i s) ≡ nat_lt 0 (away_games encoding.now.n (counts_of games.now) i s)) }
{
    let mut away = Assignment::new(alloc, encoding.vars())?;
    mark_away_games(&mut away, encoding, games);
    Ok(away)
}

/// Makes a variable true.
fn mark(values: &mut Assignment, var: u32)
    requires at_least { 1 ≤ var }
    requires at_most { var ≤ length values.old }
    ensures length { length values.new ≡ length values.old }
    ensures marked { (v : ℕ) → 1 ≤ v → assigned values.new v ≡ ((var == v) || assigned values.old v) }
{
    values.set(var, true);
}

/// Makes the games' variables true.
fn mark_games(values: &mut Assignment, encoding: &Encoding, games: &[Game])
    requires made_for { length values.old ≡ var_count encoding.now }
    requires fit { All (IsGame encoding.now.n) games.now }
    ensures length { length values.new ≡ length values.old }
    ensures marked { (v : ℕ) → 1 ≤ v → assigned values.new v
        ≡ (list_any (marks_game encoding.now.n v) games.now || assigned values.old v) }
{
    for game in games {
        mark(values, encoding.x(game.home, game.away, game.slot));
    }
}

/// Makes true that the home teams of these games are at home.
fn mark_home_games(values: &mut Assignment, encoding: &Encoding, games: &[Game])
    requires made_for { length values.old ≡ var_count encoding.now }
    requires fit { All (IsGame encoding.now.n) games.now }
    ensures length { length values.new ≡ length values.old }
    ensures marked { (v : ℕ) → 1 ≤ v → assigned values.new v
        ≡ (list_any (marks_home encoding.now.n v) games.now || assigned values.old v) }
{
    for game in games {
        mark(values, encoding.h(game.home, game.slot));
    }
}

/// Makes true, in a table of its own, that the away teams of these games are away.
fn mark_away_games(away: &mut Assignment, encoding: &Encoding, games: &[Game])
    requires made_for { length away.old ≡ var_count encoding.now }
    requires fit { All (IsGame encoding.now.n) games.now }
    ensures length { length away.new ≡ length away.old }
    ensures marked { (v : ℕ) → 1 ≤ v → assigned away.new v
        ≡ (list_any (marks_away encoding.now.n v) games.now || assigned away.old v) }
{
    for game in games {
        mark(away, encoding.h(game.away, game.slot));
    }
}

/// Makes the home breaks true: at the slot of a home game whose team is at home in the slot before, by the table.
fn mark_home_breaks(values: &mut Assignment, home: &Assignment, encoding: &Encoding, games: &[Game])
    requires made_for { length values.old ≡ var_count encoding.now }
    requires table { length home.now ≡ var_count encoding.now }
    requires breaks { has_breaks encoding.now.constraints ≡ true }
    requires fit { All (IsGame encoding.now.n) games.now }
    ensures length { length values.new ≡ length values.old }
    ensures marked { (v : ℕ) → 1 ≤ v → assigned values.new v
        ≡ (list_any (marks_home_break encoding.now.n (assigned home.now) v) games.now || assigned values.old v) }
{
    for game in games {
        mark_home_break(values, home, encoding, *game);
    }
}

/// Makes the home break of a game's home team at its slot true, if it has one.
fn mark_home_break(values: &mut Assignment, home: &Assignment, encoding: &Encoding, game: Game)
    requires made_for { length values.old ≡ var_count encoding.now }
    requires table { length home.now ≡ var_count encoding.now }
    requires breaks { has_breaks encoding.now.constraints ≡ true }
    requires fits { IsGame encoding.now.n game }
    ensures length { length values.new ≡ length values.old }
    ensures marked { (v : ℕ) → 1 ≤ v → assigned values.new v
        ≡ (marks_home_break encoding.now.n (assigned home.now) v game || assigned values.old v) }
{
    if let Some(var) = encoding.hb(game.home, game.slot) {
        if home.value(encoding.h(game.home, SlotId(game.slot.0 - 1))) {
            mark(values, var);
        }
    }
}

/// Makes the away breaks true: at the slot of an away game whose team is away in the slot before, by the table.
fn mark_away_breaks(values: &mut Assignment, away: &Assignment, encoding: &Encoding, games: &[Game])
    requires made_for { length values.old ≡ var_count encoding.now }
    requires table { length away.now ≡ var_count encoding.now }
    requires breaks { has_breaks encoding.now.constraints ≡ true }
    requires fit { All (IsGame encoding.now.n) games.now }
    ensures length { length values.new ≡ length values.old }
    ensures marked { (v : ℕ) → 1 ≤ v → assigned values.new v
        ≡ (list_any (marks_away_break encoding.now.n (assigned away.now) v) games.now || assigned values.old v) }
{
    for game in games {
        mark_away_break(values, away, encoding, *game);
    }
}

/// Makes the away break of a game's away team at its slot true, if it has one.
fn mark_away_break(values: &mut Assignment, away: &Assignment, encoding: &Encoding, game: Game)
    requires made_for { length values.old ≡ var_count encoding.now }
    requires table { length away.now ≡ var_count encoding.now }
    requires breaks { has_breaks encoding.now.constraints ≡ true }
    requires fits { IsGame encoding.now.n game }
    ensures length { length values.new ≡ length values.old }
    ensures marked { (v : ℕ) → 1 ≤ v → assigned values.new v
        ≡ (marks_away_break encoding.now.n (assigned away.now) v game || assigned values.old v) }
{
    if let Some(var) = encoding.ab(game.away, game.slot) {
        if away.value(encoding.h(game.away, SlotId(game.slot.0 - 1))) {
            mark(values, var);
        }
    }
}
