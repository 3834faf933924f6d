//! The resume rows of a league.
ghost use Rattle.std.specs.Prelude.{◌≡◌, ◌≤◌, length, IfOk};
ghost use Rattle.std.specs.List.{All};
ghost use Rattle.league.specs.Counts as counts;
ghost use Rattle.league.specs.Counts.{counts_of};
ghost use Rattle.league.specs.Instance.{IsGame, IsInstance, IsTeamCount};
ghost use Rattle.league.specs.Meetings.{meetings_of};
ghost use Rattle.rule_core.specs.Table.{table_counts};
ghost use Rattle.encoding.specs.Ascending.{IsMeeting};
ghost use Rattle.encoding.specs.Known.{AreKnown};
ghost use Rattle.encoding.specs.Variables.{var_count};
ghost use Rattle.resume.specs.Kept as kept;
ghost use Rattle.resume.specs.Kept.{resume_rows};
ghost use Rattle.resume.specs.Systems.{rows_for};
ghost use Rattle.encoding.specs.Limit.{KeepsLimit};

use crate::kept::add_kept_rows;
use crate::size::resume_size;
use deviation::counted;
use encoding::{
    EncodeFault, MOST_TERMS, all_meetings, h_count, has_breaks, hb_count, write_rows_with, x_count,
};
use league::{Game, League, Schedule};
use rows::RowStore;
use rule_core::Cells;
use std::alloc::{AllocError, Global};
use std::marker::Model;

/// The resume rows of a league, of played games and of the number of slots that are played: seen as these three. It
/// keeps a copy of the league and of the games.
pub struct ResumeSystem {
    league: League,
    played: Schedule,
    k: u16,
    rows: RowStore,
    vars: u32,
}

impl Drop for ResumeSystem {
    fn drop(self) {
        let ResumeSystem {
            league: _,
            played: _,
            k: _,
            rows: _,
            vars: _,
        } = self;
    }
}

impl Model for ResumeSystem {
    ghost use Rattle.resume.specs.Systems.{IsSystem, PartlyPlayed};

    ghost Value = { PartlyPlayed };

    ghost view = { λ s. record { league = s.league; played = s.played; k = s.k } };

    ghost invariant = { λ s. IsSystem (record { league = s.league; played = s.played; k = s.k }) s.rows s.vars };
}

impl ResumeSystem {
    /// The resume rows: those of the league, and then, slot by slot, a clause for each meeting.
    pub fn rows(&self) -> &RowStore
        ensures { result.now ≡ rows_for self.now }
    {
        &self.rows
    }

    /// The number of variables, which are those of the league.
    pub fn vars(&self) -> u32
        ensures vars { result ≡ var_count self.now.league }
        ensures at_most { result ≤ 130960 }
        ensures instance { IsInstance self.now.league }

        // The rows speak of no other variables.
        ensures known { AreKnown (var_count self.now.league) (rows_for self.now) }
    {
        self.vars
    }
}

/// The resume rows of a league whose first k slots are played, where `played` has their games. Its games from slot k on
/// play no part, and one that it has twice is kept once. The terms are counted before any row is written, which takes
/// no memory: where there are too many, that is the answer.
///
/// # Errors
/// `TooLarge` exactly where the rows have more than 40,000,000 terms, with their number; else only where memory runs
/// out.
pub fn resume_system(
    alloc: Global,
    league: &League,
    played: &Schedule,
    k: u16,
) -> Result<ResumeSystem, EncodeFault>
    requires few { length played.now ≤ 10000 }
    requires fit { All (IsGame league.now.n) played.now }
    requires slots { k ≤ counts.slot_count league.now.n }
    ensures of { IfOk result (λ system.
        system ≡ record { league = league.now; played = played.now; k = k }) }
    ensures limit { KeepsLimit (kept.resume_size league.now k) result }
{
    let terms = resume_size(league, k);
    if terms > MOST_TERMS {
        return Err(EncodeFault::TooLarge { terms });
    }
    let system = written_system(alloc, league, played, k, terms)?;
    Ok(system)
}

/// The resume rows, which are few enough.
///
/// # Errors
/// Only where memory runs out.
fn written_system(
    alloc: Global,
    league: &League,
    played: &Schedule,
    k: u16,
    terms: u64,
) -> Result<ResumeSystem, AllocError>
    requires few { length played.now ≤ 10000 }
    requires fit { All (IsGame league.now.n) played.now }
    requires slots { k ≤ counts.slot_count league.now.n }
    ensures { IfOk result (λ system.
        system ≡ record { league = league.now; played = played.now; k = k }) }
{
    let cells = counted(alloc, league.n(), played.games())?;
    let rows = written_rows(alloc, league, &cells, k, terms)?;
    let vars = variables(league);
    let played = copied(alloc, played.games())?;
    let league = league.copy()?;
    Ok(ResumeSystem {
        league,
        played,
        k,
        rows,
        vars,
    })
}

/// A schedule of these games.
///
/// # Errors
/// Only where memory runs out.
pub fn copied(alloc: Global, games: &[Game]) -> Result<Schedule, AllocError>
    ensures { IfOk result (λ copy. copy ≡ games.now) }
{
    let mut copy = Schedule::new(alloc);
    for game in games {
        copy.push(*game)?;
    }
    Ok(copy)
}

/// The rows of a league, and the clauses that keep the games of a table. Room is made for so many terms at first.
///
/// # Errors
/// Only where memory runs out.
fn written_rows(
    alloc: Global,
    league: &League,
    cells: &Cells,
    k: u16,
    terms: u64,
) -> Result<RowStore, AllocError>
    requires teams { cells.now.n ≡ league.now.n }
    requires slots { k ≤ counts.slot_count league.now.n }
    ensures { IfOk result (λ rows. rows ≡ resume_rows league.now (table_counts cells.now) k) }
{
    let meetings = season_meetings(alloc, league.n())?;
    let mut rows = write_rows_with(alloc, league, has_breaks(league.constraints()), terms)?;
    add_kept_rows(&mut rows, cells, &meetings, k)?;
    Ok(rows)
}

/// All meetings of a season of n teams, by home team, then away team.
///
/// # Errors
/// Only where memory runs out.
pub fn season_meetings(alloc: Global, n: u16) -> Result<Vec<(u16, u16)>, AllocError>
    requires { IsTeamCount n }
    ensures meetings { IfOk result (λ meetings. meetings.items ≡ meetings_of n) }
    ensures fit { IfOk result (λ meetings. All (IsMeeting n) meetings.items) }
    ensures few { IfOk result (λ meetings. length meetings.items ≤ 1560) }
{
    let teams = all_teams(alloc, n)?;
    let meetings = all_meetings(alloc, &teams)?;
    Ok(meetings)
}

/// The teams of a league of n teams, by their numbers.
///
/// # Errors
/// Only where memory runs out.
fn all_teams(alloc: Global, n: u16) -> Result<Vec<u16>, AllocError>
    ensures { IfOk result (λ teams. teams.items ≡ counts.teams_of n) }
{
    let mut teams = Vec::with_capacity(alloc, n as usize)?;
    for team in 0..n {
        teams.push(team)?;
    }
    Ok(teams)
}

/// How many variables a league has.
fn variables(league: &League) -> u32
    ensures vars { result ≡ var_count league.now }
    ensures at_most { result ≤ 130960 }
{
    let n = league.n();
    let breaks = if has_breaks(league.constraints()) {
        2 * hb_count(n)
    } else {
        0
    };
    x_count(n) + h_count(n) + breaks
}
