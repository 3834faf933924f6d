//! Where a walk stands, and how it goes on from there.
ghost use Rattle.std.specs.Prelude.{◌≡◌, ℕ, ◌<◌, ◌≤◌, IfOk, IfSome};
ghost use Rattle.std.specs.List.{All};
ghost use Rattle.league.specs.Counts.{counts_of, slot_count};
ghost use Rattle.league.specs.Instance.{IsGame, IsTeamCount};
ghost use Rattle.league.specs.Structure.{IsRoundRobin};
ghost use Rattle.rule_core.specs.Table.{table_counts};
ghost use Rattle.moves.specs.Moves.{IsOfLeague};
ghost use Rattle.moves.specs.Round.{round_counts};
ghost use Rattle.descent.specs.Tallies.{OnlyTallied};
ghost use Rattle.descent.specs.Score.{IsNoWorse, score_on};
ghost use Rattle.walk.specs.Standing.{IsKept, IsStandingOn};

use crate::aims::{Aim, aim_at};
use crate::best::Kept;
use crate::chains::is_long;
use crate::draws::{
    Mix, PARTS, PARTS_ALONE, WHOLES, aimed_move, below, drawn_move, teams_exchanged, venues_turned,
};
use crate::threshold::{Cooling, drawn_threshold};
use crate::trades::{Trade, Traded, drawn_trade};
use crate::weighed::WeighedParts;
use descent::{Score, Sums, Tally};
use league::{Schedule, TeamId};
use moves::{Board, Edit, Swap, edit_of};
use rand_core::SeedableRng;
use rand_pcg::Pcg32;
use robin_watch::Watch;
use rule_core::{Plain, Rule, Steps};
use std::alloc::{AllocError, Global};

/// How many moves are drawn, legal or not, for each that may be tried.
const DRAWS: u64 = 8;

/// The heat of the thresholds of moves that are to meet hard constraints: two units of their weights, in 256ths.
const HARD_HEAT: u64 = 512;

/// A move that is to meet hard constraints is aimed at an unmet one if the number drawn for it, below 256, is below
/// this one.
const AIMED: u16 = 64;

/// A move of a walk that cools slowly is a trade if the number drawn for it, below 256, is below this one.
const TRADES: u16 = 48;

/// A stretch of a walk has at most so many moves tried.
pub(crate) const STRETCH: u64 = 2000;

/// Moves that are to lower what parts weigh: at most how many are tried, the heat of their thresholds, how often each
/// kind is drawn, how many of 256 are trades, and how many of 256 are aimed at unmet parts.
#[derive(Clone, Copy)]
pub(crate) struct Stage {
    limit: u64,
    heat: u64,
    mix: Mix,
    trades: u16,
    aimed: u16,
}

impl Stage {
    /// So many moves that are to meet hard constraints.
    pub(crate) fn meeting(limit: u64) -> Stage
        ensures { result.limit ≡ limit }
    {
        Stage {
            limit,
            heat: HARD_HEAT,
            mix: PARTS,
            trades: 0,
            aimed: AIMED,
        }
    }

    /// So many moves, at a heat, that are to lower what all constraints weigh together.
    pub(crate) fn together(limit: u64, heat: u64) -> Stage
        ensures { result.limit ≡ limit }
    {
        Stage {
            limit,
            heat,
            mix: WHOLES,
            trades: 0,
            aimed: 0,
        }
    }

    /// So many moves, at a heat, that are to meet hard constraints slowly.
    pub(crate) fn cooling(limit: u64, heat: u64) -> Stage
        ensures { result.limit ≡ limit }
    {
        Stage {
            limit,
            heat,
            mix: PARTS_ALONE,
            trades: TRADES,
            aimed: AIMED,
        }
    }

    /// Where a move of a board is aimed, if it is.
    fn aim(self, random: &mut Pcg32, board: &Board, parts: &WeighedParts) -> Option<Aim>
        ensures team { IfSome result (λ aim. aim.team < board.now.n) }
        ensures slot { IfSome result (λ aim. aim.slot < slot_count board.now.n) }
    {
        if below(random, 256) < self.aimed {
            aim_at(random, board, parts)
        } else {
            None
        }
    }

    /// A move of a board that is drawn.
    fn step(self, random: &mut Pcg32, board: &Board, parts: &WeighedParts) -> Swap
        ensures { IsOfLeague board.now.n result }
    {
        match self.aim(random, board, parts) {
            Some(aim) => aimed_move(random, board, aim),
            None => drawn_move(random, board.n(), board.phased(), self.mix),
        }
    }

    /// Whether a trade is drawn.
    fn is_trade(self, random: &mut Pcg32) -> bool {
        self.trades > 0 && below(random, 256) < self.trades
    }
}

/// A double round robin on a board, room for the games of a move, and the numbers that are drawn.
pub(crate) struct Standing {
    pub(crate) board: Board,
    edit: Edit,
    traded: Traded,
    pub(crate) random: Pcg32,
}

impl Drop for Standing {
    fn drop(self) {
        let Standing {
            board: _,
            edit: _,
            traded: _,
            random: _,
        } = self;
    }
}

impl Standing {
    /// A walk that stands on the games of a double round robin, and draws the numbers of a seed.
    ///
    /// # Errors
    /// Only where memory runs out.
    pub(crate) fn new(
        alloc: Global,
        n: u16,
        phased: bool,
        first: &Schedule,
        seed: u64,
    ) -> Result<Standing, AllocError>
        requires teams { IsTeamCount n }
        requires fit { All (IsGame n) first.now }
        requires round_robin { IsRoundRobin n phased (counts_of first.now) }
        ensures standing { IfOk result (IsStandingOn n phased (counts_of first.now)) }
    {
        Ok(Standing {
            board: Board::new(alloc, n, phased, first)?,
            edit: Edit::new(alloc, n)?,
            traded: Traded::none(alloc)?,
            random: Pcg32::seed_from_u64(seed),
        })
    }

    /// Tries moves of a stage until so many were legal, the parts are at their goal, or the watch ends the walk: each is
    /// made where they weigh no more after it than a drawn threshold allows. The parts follow the games. Says how many
    /// were tried.
    pub(crate) fn meet<W: Watch>(
        &mut self,
        stage: Stage,
        parts: &mut WeighedParts,
        watch: &W,
    ) -> u64
        requires standing { IsStandingOn self.old.board.n self.old.board.phased (round_counts self.old.board) self.old }
        ensures standing { IsStandingOn self.old.board.n self.old.board.phased (round_counts self.new.board) self.new }
        ensures tried { result ≤ stage.limit }
    {
        let limit = stage.limit;
        let mut tried = 0;
        'draws: for _drawn in 0..limit.saturating_mul(DRAWS) {
            if tried == limit || parts.are_at_goal() || watch.is_over(tried) {
                return tried;
            }
            let legal = self.attempt_drawn(stage, parts);
            tried = with_move(tried, limit, legal);
        }
        tried
    }

    /// Tries moves until a stretch of them was legal, the soft rules cost nothing, or the watch ends the walk: each is
    /// made where the hard rules cost no more, and the soft ones no more than a drawn threshold allows, which cools
    /// down. The tally and the parts follow the games, of which the best on the way are kept. Says how many moves were
    /// tried.
    pub(crate) fn improve<R: Rule<Plain>, W: Watch>(
        &mut self,
        cooling: Cooling,
        best: &mut Kept,
        tally: &mut Tally<R>,
        parts: &mut WeighedParts,
        watch: &W,
    ) -> u64
        requires standing { IsStandingOn tally.old.table.n self.old.board.phased (table_counts tally.old.table)
            self.old }
        requires best { IsKept tally.old.table.n self.old.board.phased (score_on R.Entries tally.old.weights) best.old }
        requires seen { IsNoWorse best.old.score (score_on R.Entries tally.old.weights (table_counts tally.old.table)) }
        ensures standing { IsStandingOn tally.old.table.n self.old.board.phased (round_counts self.new.board)
            self.new }
        ensures best { IsKept tally.old.table.n self.old.board.phased (score_on R.Entries tally.old.weights) best.new }
        ensures weights { tally.new.weights ≡ tally.old.weights }
        ensures teams { tally.new.table.n ≡ tally.old.table.n }
        ensures counts { table_counts tally.new.table ≡ round_counts self.new.board }
        ensures no_worse { IsNoWorse best.new.score best.old.score }

        // The best isn't worse than the games on which the walk stands.
        ensures seen { IsNoWorse best.new.score (score_on R.Entries tally.old.weights (table_counts tally.new.table)) }
        ensures tried { result ≤ cooling.left }
    {
        let n = self.board.n();
        let phased = self.board.phased();
        let limit = cooling.left.min(STRETCH);
        let mut steps = Steps::<Plain>::start();
        let mut tried = 0;
        'draws: for _drawn in 0..limit.saturating_mul(DRAWS) {
            if tried == limit || tally.objective() == 0 || watch.is_over(tried) {
                return tried;
            }
            let step = drawn_move(&mut self.random, n, phased, PARTS);
            let left = cooling.left - tried;
            let most = cooling.most(&mut self.random, left, Score::of(tally));
            let legal = self.attempt(step, most, tally, parts, &mut steps);
            tried = with_move(tried, limit, legal);
            best.keep(&self.board, Score::of(tally));
        }
        tried
    }

    /// Tries a move of a stage that is drawn: makes it where it is legal and the parts weigh no more after it than a drawn
    /// threshold allows. Says whether it is legal and not too long.
    fn attempt_drawn(&mut self, stage: Stage, parts: &mut WeighedParts) -> bool
        requires standing { IsStandingOn self.old.board.n self.old.board.phased (round_counts self.old.board) self.old }
        ensures standing { IsStandingOn self.old.board.n self.old.board.phased (round_counts self.new.board) self.new }
    {
        if stage.is_trade(&mut self.random) {
            let aim = stage.aim(&mut self.random, &self.board, parts);
            let trade = drawn_trade(&mut self.random, &self.board, aim);
            let more = drawn_threshold(&mut self.random, stage.heat);
            return self.attempt_trade(trade, more, parts);
        }
        let step = stage.step(&mut self.random, &self.board, parts);
        let more = drawn_threshold(&mut self.random, stage.heat);
        self.attempt_weighed(step, more, parts)
    }

    /// Tries a trade: makes it where the parts weigh at most so much more after it. Says whether it isn't too long.
    fn attempt_trade(&mut self, trade: Trade, more: u64, parts: &mut WeighedParts) -> bool
        requires one { trade.one.0 < self.old.board.n }
        requires other { trade.other.0 < self.old.board.n }
        requires slot { trade.slot.0 < slot_count self.old.board.n }
        requires standing { IsStandingOn self.old.board.n self.old.board.phased (round_counts self.old.board) self.old }
        ensures standing { IsStandingOn self.old.board.n self.old.board.phased (round_counts self.new.board) self.new }
    {
        if !self.traded.find(&self.board, trade) {
            return false;
        }
        if parts.follow_games(self.traded.out(), self.traded.into_games(), more) {
            self.turn_meetings(trade.other);
            self.make_if_legal(teams_exchanged(trade.one, trade.other, trade.slot));
            self.turn_meetings(trade.other);
        }
        true
    }

    /// Turns the meetings of a team that a trade turns.
    fn turn_meetings(&mut self, team: TeamId)
        requires team { team.0 < self.old.board.n }
        requires standing { IsStandingOn self.old.board.n self.old.board.phased (round_counts self.old.board) self.old }
        ensures standing { IsStandingOn self.old.board.n self.old.board.phased (round_counts self.new.board) self.new }
    {
        for opponent in 0..self.board.n() {
            if self.traded.is_turned(opponent) {
                self.make_if_legal(venues_turned(team, TeamId(opponent)));
            }
        }
    }

    /// Tries a move: makes it where it is legal and the parts weigh at most so much more after it. Says whether it is
    /// legal and not too long.
    fn attempt_weighed(&mut self, step: Swap, more: u64, parts: &mut WeighedParts) -> bool
        requires league { IsOfLeague self.old.board.n step }
        requires standing { IsStandingOn self.old.board.n self.old.board.phased (round_counts self.old.board) self.old }
        ensures standing { IsStandingOn self.old.board.n self.old.board.phased (round_counts self.new.board) self.new }
    {
        if is_long(&self.board, &step) {
            return false;
        }
        if !edit_of(&step, &self.board, &mut self.edit) {
            return false;
        }
        if parts.follow(&self.edit, more) {
            self.board.apply(&self.edit);
        }
        true
    }

    /// Tries a move on a tally's games: makes it where it is legal and the rules cost at most so much after it. Says
    /// whether it is legal and not too long.
    fn attempt<R: Rule<L>, L>(
        &mut self,
        step: Swap,
        most: Sums,
        tally: &mut Tally<R>,
        parts: &mut WeighedParts,
        steps: &mut Steps<L>,
    ) -> bool
        requires league { IsOfLeague self.old.board.n step }
        requires standing { IsStandingOn tally.old.table.n self.old.board.phased (table_counts tally.old.table)
            self.old }
        ensures weights { tally.new.weights ≡ tally.old.weights }
        ensures teams { tally.new.table.n ≡ tally.old.table.n }
        ensures standing { IsStandingOn tally.old.table.n self.old.board.phased (table_counts tally.new.table)
            self.new }
    {
        if is_long(&self.board, &step) {
            return false;
        }
        if !edit_of(&step, &self.board, &mut self.edit) {
            return false;
        }
        if !is_within(&self.edit, most, tally, parts, steps) {
            return true;
        }
        tally.apply(&self.edit, steps);
        self.board.apply(&self.edit);
        true
    }

    /// Puts the teams in a random order, by moves of two teams.
    pub(crate) fn shuffle(&mut self)
        requires standing { IsStandingOn self.old.board.n self.old.board.phased (round_counts self.old.board) self.old }
        ensures standing { IsStandingOn self.old.board.n self.old.board.phased (round_counts self.new.board) self.new }
    {
        let n = self.board.n();
        for later in 1..n {
            let earlier = below(&mut self.random, later + 1);
            if earlier < later {
                self.make_if_legal(Swap::TeamSwap {
                    i: TeamId(earlier),
                    j: TeamId(later),
                });
            }
        }
    }

    /// Puts the teams in a random order, each with all its games, so that there are as many breaks as before.
    pub(crate) fn relabel(&mut self)
        requires standing { IsStandingOn self.old.board.n self.old.board.phased (round_counts self.old.board) self.old }
        ensures standing { IsStandingOn self.old.board.n self.old.board.phased (round_counts self.new.board) self.new }
    {
        let n = self.board.n();
        for later in 1..n {
            let earlier = below(&mut self.random, later + 1);
            if earlier < later {
                // Each team gets the other's games, also the two between them.
                let i = TeamId(earlier);
                let j = TeamId(later);
                self.make_if_legal(Swap::TeamSwap { i, j });
                self.make_if_legal(Swap::HomeSwap { i, j });
            }
        }
    }

    /// Makes a move where it is legal.
    fn make_if_legal(&mut self, step: Swap)
        requires league { IsOfLeague self.old.board.n step }
        requires standing { IsStandingOn self.old.board.n self.old.board.phased (round_counts self.old.board) self.old }
        ensures standing { IsStandingOn self.old.board.n self.old.board.phased (round_counts self.new.board) self.new }
    {
        if edit_of(&step, &self.board, &mut self.edit) {
            self.board.apply(&self.edit);
        }
    }
}

/// Whether the rules cost at most so much after an edit. The parts say so and follow it then, where no constraint was left
/// out of them, and else the tally says so.
fn is_within<R: Rule<L>, L>(
    edit: &Edit,
    most: Sums,
    tally: &mut Tally<R>,
    parts: &mut WeighedParts,
    steps: &mut Steps<L>,
) -> bool
    requires out_fit { All (IsGame tally.old.table.n) edit.now.out }
    requires into_fit { All (IsGame tally.old.table.n) edit.now.into }
    requires there { (i j s : ℕ) → counts_of edit.now.out i j s ≤ table_counts tally.old.table i j s }
    ensures { OnlyTallied tally.old tally.new }
{
    if parts.are_all() {
        return parts.follow_within(edit, most.objective);
    }
    tally.weigh_within(edit, most, steps).is_some()
}

/// The number of moves tried, with one more where it is legal.
fn with_move(tried: u64, limit: u64, legal: bool) -> u64
    requires { tried < limit }
    ensures { result ≤ limit }
{
    if legal { tried + 1 } else { tried }
}
