//! The best games so far.
ghost use Rattle.std.specs.Prelude.{◌≡◌, ◌*◌, ◌≤◌, length, vec_capacity, IfOk};
ghost use Rattle.league.specs.Counts.{Counts};
ghost use Rattle.league.specs.Instance.{Instance};
ghost use Rattle.moves.specs.Round.{round_counts};
ghost use Rattle.descent.specs.Score.{IsNoWorse};
ghost use Rattle.descent.specs.declared.score.Score.{Score};
ghost use Rattle.walk.specs.Standing.{IsKept};
ghost use Rattle.walk.specs.Walked.{IsSeasonOf, league_score};

use crate::copies::{copy_games, room_for_games};
use crate::walker::cost_of;
use descent::Score;
use league::{Game, League, Schedule};
use moves::Board;
use std::alloc::{AllocError, Global};

/// The games of a double round robin in order, and what a league's constraints cost on them.
#[derive(Drop)]
pub struct Best {
    pub games: Schedule,
    pub score: Score,
}

/// The best games so far with their score, in room that is reserved once.
#[derive(Drop)]
pub(crate) struct Kept {
    games: Vec<Game>,
    score: Score,
}

impl Kept {
    /// The games of a board, with what they cost in a league.
    ///
    /// # Errors
    /// Only where memory runs out.
    pub(crate) fn of(alloc: Global, league: &League, board: &Board) -> Result<Kept, AllocError>
        requires teams { board.now.n ≡ league.now.n }
        ensures kept { IfOk result (IsKept board.now.n board.now.phased (league_score league.now)) }
        ensures score { IfOk result (λ kept. kept.score ≡ league_score league.now (round_counts board.now)) }
    {
        let mut games = room_for_games(alloc, board.n())?;
        copy_games(board, &mut games);
        let score = cost_of(alloc, league, &games)?;
        Ok(Kept { games, score })
    }

    /// Becomes the games of a board, which have this score, where it is lower. It takes no memory.
    pub(crate) fn keep(&mut self, board: &Board, score: Score)
        requires room { board.now.n * board.now.n ≤ vec_capacity self.old.games }
        ensures kept { (cost : Counts → Score) → score ≡ cost (round_counts board.now)
            → IsKept board.now.n board.now.phased cost self.old
            → IsKept board.now.n board.now.phased cost self.new }
        ensures no_worse { IsNoWorse self.new.score self.old.score }
        ensures beside { IsNoWorse self.new.score score }
    {
        if score.is_lower(self.score) {
            copy_games(board, &mut self.games);
            self.score = score;
        }
    }

    /// The games.
    pub(crate) fn games(&self) -> &[Game]
        ensures { result.now ≡ self.now.games.items }
    {
        &self.games
    }

    /// The games as a schedule.
    ///
    /// # Errors
    /// Only where memory runs out.
    pub(crate) fn schedule(&self, alloc: Global) -> Result<Schedule, AllocError>
        ensures { IfOk result (λ schedule. schedule ≡ self.now.games.items) }
    {
        listed(alloc, &self.games)
    }

    /// What the games cost.
    pub(crate) fn score(&self) -> Score
        ensures { result ≡ self.now.score }
    {
        self.score
    }

    /// The games in order, with their score.
    ///
    /// # Errors
    /// Only where memory runs out.
    pub(crate) fn in_order(&self, alloc: Global) -> Result<Best, AllocError>
        ensures season { (league : Instance) → IsKept league.n league.phased (league_score league) self.now
            → IfOk result (IsSeasonOf league) }
        ensures few { IfOk result (λ best. length best.games ≡ length self.now.games.items) }
        ensures score { IfOk result (λ best. best.score ≡ self.now.score) }
    {
        let mut games = listed(alloc, &self.games)?;
        games.put_in_order();
        Ok(Best {
            games,
            score: self.score,
        })
    }
}

/// A schedule of these games.
///
/// # Errors
/// Only where memory runs out.
fn listed(alloc: Global, games: &[Game]) -> Result<Schedule, AllocError>
    ensures { IfOk result (λ schedule. schedule ≡ games.now) }
{
    let mut schedule = Schedule::new(alloc);
    for game in games {
        schedule.push(*game)?;
    }
    Ok(schedule)
}
