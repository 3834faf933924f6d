//! Sets of patterns, and the patterns of a schedule.
ghost use Rattle.std.specs.Prelude.{◌≡◌, ℕ, ◌-◌, ◌<◌, ◌≤◌, ◌++◌, ◌==◌, [], ◌∷◌, length, map, slice_get, Some, IsTrue};
ghost use Rattle.std.specs.Prelude.{IfOk, OnOk, OnErr};
ghost use Rattle.std.specs.List.{All, sum_by};
ghost use Rattle.circle_method.specs.Circle.{single_games};
ghost use Rattle.league.specs.Counts.{counts_of, slots_of, teams_of};
ghost use Rattle.league.specs.Grid.{entry};
ghost use Rattle.league.specs.Instance.{IsGame, IsTeamCount, is_one_side};
ghost use Rattle.league.specs.Structure.{IsRoundRobin, first_half};
ghost use Rattle.league.specs.Venues.{home_games};
ghost use Rattle.patterns.specs.HomeTable.{table_pattern};
ghost use Rattle.patterns.specs.Pattern.{breaks_in};
ghost use Rattle.patterns.specs.PatternSet.{canonical_patterns, patterns_of, side_with, team_breaks};

use crate::pattern::Pattern;
use circle_method::single;
use league::{Game, Grid, League, Schedule, Side, TeamId};
use std::alloc::{AllocError, Global};
use std::marker::Model;

/// The patterns of at most 40 teams, in order of team.
#[derive(Drop)]
pub struct PatternSet {
    patterns: Vec<Pattern>,
}

impl Model for PatternSet {
    ghost use Rattle.std.specs.Prelude.{◌≤◌, List, length};
    ghost use Rattle.league.specs.declared.class.Side.{Side};

    ghost Value = { List (List Side) };

    ghost view = { λ s. s.patterns.items };

    ghost invariant = { λ s. length s.patterns.items ≤ 40 };
}

impl PatternSet {
    /// The patterns of no team. It takes no memory.
    pub fn new(alloc: Global) -> PatternSet
        ensures { result ≡ [] }
    {
        PatternSet {
            patterns: Vec::new(alloc),
        }
    }

    /// Adds the next team's pattern.
    ///
    /// # Errors
    /// Only where memory runs out: then the pattern is given up, and the set is as it was.
    pub fn push(&mut self, pattern: Pattern) -> Result<(), AllocError>
        requires { length self.old < 40 }
        ensures ok { OnOk result (self.new ≡ self.old ++ pattern ∷ []) }
        ensures err { OnErr result (self.new ≡ self.old) }
    {
        self.patterns.push(pattern)?;
        Ok(())
    }

    /// The number of teams.
    pub fn len(&self) -> usize
        ensures len { result ≡ length self.now }
        ensures at_most { result ≤ 40 }
    {
        self.patterns.len()
    }

    /// Whether there is no team.
    pub fn is_empty(&self) -> bool
        ensures { result ≡ (length self.now == 0) }
    {
        self.patterns.is_empty()
    }

    /// The pattern of a team.
    pub fn pattern(&self, team: TeamId) -> &Pattern
        requires { team.0 < length self.now }
        ensures { slice_get self.now team.0 ≡ Some result.now }
    {
        &self.patterns[team.0 as usize]
    }
}

/// The patterns of a round robin of a league: in each slot each team has exactly one game, and its letter there says
/// whether that is at home or away.
///
/// # Errors
/// Only where memory runs out.
pub fn of_schedule(
    alloc: Global,
    league: &League,
    schedule: &Schedule,
) -> Result<PatternSet, AllocError>
    requires few { length schedule.now ≤ 10000 }
    requires fit { All (IsGame league.now.n) schedule.now }
    requires round_robin { IsRoundRobin league.now.n league.now.phased (counts_of schedule.now) }
    ensures patterns { IfOk result (λ patterns. patterns ≡ patterns_of league.now.n (counts_of schedule.now)) }

    // The breaks in each team's pattern are the team's breaks of the season.
    ensures breaks { IfOk result (λ patterns.
        map breaks_in patterns ≡ team_breaks league.now.n (counts_of schedule.now) (slots_of league.now.n)) }
{
    let n = league.n();
    let table = home_table(schedule.games());
    patterns_from(alloc, &table, n, league.slots())
}

/// The canonical pattern set of n teams, for an even n from 2 to 40: the patterns of the single circle schedule, in its
/// n - 1 slots. They have n - 2 breaks together, the fewest that the patterns of a single round robin can have (de
/// Werra).
///
/// # Errors
/// Only where memory runs out.
pub fn canonical(alloc: Global, n: u16) -> Result<PatternSet, AllocError>
    requires teams { IsTeamCount n }
    ensures patterns { IfOk result (λ patterns. patterns ≡ canonical_patterns n) }

    // The breaks in each team's pattern are the team's breaks of the single circle schedule.
    ensures breaks { IfOk result (λ patterns.
        map breaks_in patterns ≡ team_breaks n (counts_of (single_games n)) (first_half n)) }
    ensures fewest { IfOk result (λ patterns. sum_by breaks_in patterns ≡ n - 2) }
{
    let schedule = single(alloc, n)?;
    let table = home_table(schedule.games());
    patterns_from(alloc, &table, n, n - 1)
}

/// The patterns of n teams in the first slots, by the table of home games.
fn patterns_from(alloc: Global, table: &Grid, n: u16, slots: u16) -> Result<PatternSet, AllocError>
    requires teams { n ≤ 40 }
    requires slots { slots ≤ 78 }
    ensures { IfOk result (λ patterns. patterns ≡ map (table_pattern slots table.now) (teams_of n)) }
{
    let mut patterns = PatternSet::new(alloc);
    for team in 0..n {
        patterns.push(pattern_from(alloc, table, team, slots)?)?;
    }
    Ok(patterns)
}

/// How many home games each team has in each slot.
fn home_table(games: &[Game]) -> Grid
    requires few { length games.now ≤ 10000 }
    requires fit { All (IsGame 40) games.now }
    ensures { (n : ℕ) → All (IsGame n) games.now →
        (i s : ℕ) → entry result i s ≡ home_games n (counts_of games.now) i s }
{
    let mut table = Grid::new();
    for game in games {
        table.add(game.home.0, game.slot.0);
    }
    table
}

/// The pattern of a team in the first slots, by the table of home games.
fn pattern_from(alloc: Global, table: &Grid, team: u16, slots: u16) -> Result<Pattern, AllocError>
    requires team { team < 40 }
    requires slots { slots ≤ 78 }
    ensures { IfOk result (λ pattern. pattern ≡ table_pattern slots table.now team) }
{
    let mut pattern = Pattern::new(alloc);
    for slot in 0..slots {
        pattern.push(side_at(table.at(team, slot)))?;
    }
    Ok(pattern)
}

/// Where a team plays that has so many home games in a slot: at home where it has at least one.
fn side_at(at_home: u16) -> Side
    ensures side { result ≡ side_with at_home }
    ensures one_side { IsTrue (is_one_side result) }
{
    if at_home > 0 { Side::H } else { Side::A }
}
