//! A walk in a league: searches one after another, of which the best games are kept.
ghost use Rattle.std.specs.Prelude.{◌≡◌, ◌≤◌, length, IfOk, OnOk};
ghost use Rattle.std.specs.List.{All};
ghost use Rattle.league.specs.Counts.{counts_of};
ghost use Rattle.league.specs.Instance.{Instance, IsGame};
ghost use Rattle.league.specs.Structure.{IsRoundRobin};
ghost use Rattle.rule_core.specs.Table.{table_counts};
ghost use Rattle.moves.specs.Round.{round_counts};
ghost use Rattle.descent.specs.League.{AreRulesOf};
ghost use Rattle.walk.specs.Standing.{HasKeptHere, IsElsewhere, IsFurther, IsStandingOn, IsWalkerIn};
ghost use Rattle.walk.specs.Walked.{league_score};

use crate::afresh::random_start;
use crate::best::Kept;
use crate::copies::{copy_games, room_for_games};
use crate::standing::{STRETCH, Stage, Standing};
use crate::threshold::{Cooling, soft_heat};
use crate::weighed::WeighedParts;
use crate::weights::Weighing;
use descent::{Score, Tally, league_tally};
use deviation::AnyRule;
use league::{Game, League, Schedule};
use moves::Board;
use robin_watch::{Listener, News};
use rule_core::{Entries, Plain, Steps};
use std::alloc::{AllocError, Global};

/// A search ends after so many moves tried that didn't lower what the hard constraints cost.
const PATIENCE: u64 = 1_600_000;

/// The first search, from the games where the walk starts, ends after so many, and so does a search from where a walk on
/// all constraints ends.
const SHORT_PATIENCE: u64 = 30_000;

/// How long a search has been in vain, and how long it may be.
#[derive(Clone, Copy)]
pub(crate) struct Patience {
    lowest: u128,
    vain: u64,
    most: u64,
}

impl Patience {
    /// The patience of the search with this number, from 0, of which nothing was searched yet.
    fn of(search: u64) -> Patience {
        Patience {
            lowest: u128::MAX,
            vain: 0,
            most: if search == 0 {
                SHORT_PATIENCE
            } else {
                PATIENCE
            },
        }
    }

    /// The least patience of a search, of which nothing was searched yet.
    pub(crate) fn short() -> Patience {
        Patience {
            lowest: u128::MAX,
            vain: 0,
            most: SHORT_PATIENCE,
        }
    }

    /// Whether the search ends after one more stretch, behind which the hard constraints cost so much.
    fn ends(&mut self, sum: u128) -> bool {
        if sum < self.lowest {
            self.lowest = sum;
            self.vain = 0;
        } else {
            self.vain = self.vain.saturating_add(STRETCH);
        }
        self.vain >= self.most
    }
}

/// Where a walk stands, room for a copy of its games, the best games so far, how many moves it may try in all, and how
/// many of them may still be tried.
#[derive(Drop)]
pub(crate) struct Walker {
    pub(crate) standing: Standing,
    pub(crate) games: Vec<Game>,
    pub(crate) best: Kept,
    pub(crate) budget: u64,
    pub(crate) left: u64,
}

impl Walker {
    /// A walk from the games of a double round robin.
    ///
    /// # Errors
    /// Only where memory runs out.
    pub(crate) fn new(
        alloc: Global,
        league: &League,
        start: &Schedule,
        seed: u64,
        budget: u64,
    ) -> Result<Walker, AllocError>
        requires fit { All (IsGame league.now.n) start.now }
        requires round_robin { IsRoundRobin league.now.n league.now.phased (counts_of start.now) }
        ensures walker { IfOk result (IsWalkerIn league.now) }
        ensures score { IfOk result (λ walker. walker.best.score ≡ league_score league.now (counts_of start.now)) }
        ensures seen { IfOk result (HasKeptHere league.now) }
        ensures left { IfOk result (λ walker. walker.left ≡ budget) }
    {
        let n = league.n();
        let standing = Standing::new(alloc, n, league.phased(), start, seed)?;
        let best = Kept::of(alloc, league, &standing.board)?;
        let games = room_for_games(alloc, n)?;
        Ok(Walker {
            standing,
            games,
            best,
            budget,
            left: budget,
        })
    }

    /// Searches, from the games where it stands and then each time from a new double round robin, one after another
    /// until no move may be tried any more, nothing is left to lower, or the watch ends the walk.
    ///
    /// # Errors
    /// Only where memory runs out.
    pub(crate) fn search<W: Listener>(
        &mut self,
        alloc: Global,
        league: &League,
        watch: &W,
    ) -> Result<(), AllocError>
        requires walker { IsWalkerIn league.now self.old }
        requires seen { HasKeptHere league.now self.old }
        ensures further { OnOk result (IsFurther league.now self.old.best.score self.old.left self.new) }
        ensures seen { OnOk result (HasKeptHere league.now self.new) }
    {
        'searches: for search in 0..self.left / PATIENCE + 2 {
            self.search_once(alloc, league, search, watch)?;
            if self.is_over(watch) {
                return Ok(());
            }
        }
        Ok(())
    }

    /// Whether no move may be tried any more, or the best games cost nothing.
    pub(crate) fn is_done(&self) -> bool {
        let score = self.best.score();
        self.left == 0 || (score.infeasibility == 0 && score.objective == 0)
    }

    /// Whether the walk has come to its end, or the watch ends it.
    pub(crate) fn is_over<W: Listener>(&self, watch: &W) -> bool {
        self.is_done() || watch.is_over(self.tried())
    }

    /// Whether no move may be tried any more, or the watch ends the walk.
    fn is_spent<W: Listener>(&self, watch: &W) -> bool {
        self.left == 0 || watch.is_over(self.tried())
    }

    /// How many moves were tried.
    pub(crate) fn tried(&self) -> u64 {
        self.budget.saturating_sub(self.left)
    }

    /// Looks for games that meet the hard constraints, then also from the circle method's season, and from the best for
    /// better ones: the search with this number.
    ///
    /// # Errors
    /// Only where memory runs out.
    fn search_once<W: Listener>(
        &mut self,
        alloc: Global,
        league: &League,
        search: u64,
        watch: &W,
    ) -> Result<(), AllocError>
        requires walker { IsWalkerIn league.now self.old }
        ensures further { OnOk result (IsFurther league.now self.old.best.score self.old.left self.new) }
        ensures seen { OnOk result (HasKeptHere league.now self.new) }
    {
        self.place(alloc, league, search)?;
        self.cool(alloc, league, search, watch)?;
        self.meet_hard(alloc, league, Patience::of(search), watch)?;
        let few_breaks = self.walk_circles(alloc, league, watch)?;
        self.lower_soft(alloc, league, few_breaks, watch)?;
        Ok(())
    }

    /// Goes to where the search with this number begins. The first one stays, and the others begin at a random double
    /// round robin, or where none is found at the same games, with the teams in a random order.
    ///
    /// # Errors
    /// Only where memory runs out.
    fn place(&mut self, alloc: Global, league: &League, search: u64) -> Result<(), AllocError>
        requires walker { IsWalkerIn league.now self.old }
        ensures { OnOk result (IsElsewhere league.now self.old.best self.old.left self.new) }
    {
        if search == 0 {
            return Ok(());
        }
        self.restart(alloc, league)?;
        self.standing.shuffle();
        Ok(())
    }

    /// Goes to a random double round robin, where one is found.
    ///
    /// # Errors
    /// Only where memory runs out.
    fn restart(&mut self, alloc: Global, league: &League) -> Result<(), AllocError>
        requires walker { IsWalkerIn league.now self.old }
        ensures { OnOk result (IsElsewhere league.now self.old.best self.old.left self.new) }
    {
        let Some(start) = random_start(alloc, league, &mut self.standing.random)? else {
            return Ok(());
        };
        self.stand_at(alloc, league, &start)
    }

    /// Goes to the games of a double round robin.
    ///
    /// # Errors
    /// Only where memory runs out.
    pub(crate) fn stand_at(
        &mut self,
        alloc: Global,
        league: &League,
        start: &Schedule,
    ) -> Result<(), AllocError>
        requires walker { IsWalkerIn league.now self.old }
        requires fit { All (IsGame league.now.n) start.now }
        requires round_robin { IsRoundRobin league.now.n league.now.phased (counts_of start.now) }
        ensures { OnOk result (IsElsewhere league.now self.old.best self.old.left self.new) }
    {
        self.standing.board = Board::new(alloc, league.n(), league.phased(), start)?;
        Ok(())
    }

    /// Looks for games that meet the hard constraints, in stretches after each of which the weights are adapted, until
    /// the search has been in vain for long, or the watch ends the walk. The best games at the end of a stretch are
    /// kept. Says what the hard constraints cost in the end.
    ///
    /// # Errors
    /// Only where memory runs out.
    pub(crate) fn meet_hard<W: Listener>(
        &mut self,
        alloc: Global,
        league: &League,
        patience: Patience,
        watch: &W,
    ) -> Result<u128, AllocError>
        requires walker { IsWalkerIn league.now self.old }
        ensures { OnOk result (IsFurther league.now self.old.best.score self.old.left self.new) }
    {
        let mut hard = WeighedParts::new(alloc, league, Weighing::Hard)?;
        self.meet_parts(alloc, league, &mut hard, patience, watch)
    }

    /// Looks so for games that meet the parts of the hard constraints.
    ///
    /// # Errors
    /// Only where memory runs out.
    fn meet_parts<W: Listener>(
        &mut self,
        alloc: Global,
        league: &League,
        hard: &mut WeighedParts,
        patience: Patience,
        watch: &W,
    ) -> Result<u128, AllocError>
        requires walker { IsWalkerIn league.now self.old }
        ensures { OnOk result (IsFurther league.now self.old.best.score self.old.left self.new) }
    {
        let mut patience = patience;
        'stretches: for _stretch in 0..self.left / STRETCH + 1 {
            let stage = Stage::meeting(self.left.min(STRETCH));
            let sum = self.stretch(alloc, league, hard, stage, watch)?;
            if sum == 0 || patience.ends(sum) || self.is_spent(watch) {
                return Ok(sum);
            }
        }
        Ok(u128::MAX)
    }

    /// One stretch of the moves of a stage, at whose end the games are kept where they are better than the best so far.
    /// Says what the hard constraints cost then.
    ///
    /// # Errors
    /// Only where memory runs out.
    pub(crate) fn stretch<W: Listener>(
        &mut self,
        alloc: Global,
        league: &League,
        parts: &mut WeighedParts,
        stage: Stage,
        watch: &W,
    ) -> Result<u128, AllocError>
        requires walker { IsWalkerIn league.now self.old }
        requires limit { stage.limit ≤ self.old.left }
        ensures { OnOk result (IsFurther league.now self.old.best.score self.old.left self.new) }
    {
        self.move_on(parts, stage, watch);
        let said = parts.score();
        self.keep_lower(alloc, league, said)?;
        self.tell(league, watch);
        Ok(said.infeasibility)
    }

    /// Tries the moves of a stage, by the weights as they are, which are adapted then.
    fn move_on<W: Listener>(&mut self, parts: &mut WeighedParts, stage: Stage, watch: &W)
        requires standing { IsStandingOn self.old.standing.board.n self.old.standing.board.phased
            (round_counts self.old.standing.board) self.old.standing }
        requires limit { stage.limit ≤ self.old.left }
        ensures walker { (league : Instance) → IsWalkerIn league self.old → IsWalkerIn league self.new }
        ensures best { self.new.best ≡ self.old.best }
        ensures left { self.new.left ≤ self.old.left }
    {
        parts.count(&self.standing.board);
        let tried = self.standing.meet(stage, parts, watch);
        self.left -= tried;
        parts.adapt();
    }

    /// Keeps the games where they are better than the best so far, if they are said to be.
    ///
    /// # Errors
    /// Only where memory runs out.
    pub(crate) fn keep_lower(
        &mut self,
        alloc: Global,
        league: &League,
        said: Score,
    ) -> Result<(), AllocError>
        requires walker { IsWalkerIn league.now self.old }
        ensures { OnOk result (IsFurther league.now self.old.best.score self.old.left self.new) }
    {
        if !said.is_lower(self.best.score()) {
            return Ok(());
        }
        copy_games(&self.standing.board, &mut self.games);
        let score = cost_of(alloc, league, &self.games)?;
        self.best.keep(&self.standing.board, score);
        Ok(())
    }

    /// Keeps the games where they are better than the best so far, and where they meet the hard constraints goes on to
    /// better ones: at less heat where they have few breaks, since a walk that brings more of them takes none away.
    ///
    /// # Errors
    /// Only where memory runs out.
    fn lower_soft<W: Listener>(
        &mut self,
        alloc: Global,
        league: &League,
        few_breaks: bool,
        watch: &W,
    ) -> Result<(), AllocError>
        requires walker { IsWalkerIn league.now self.old }
        ensures further { OnOk result (IsFurther league.now self.old.best.score self.old.left self.new) }
        ensures seen { OnOk result (HasKeptHere league.now self.new) }
    {
        let heat = soft_heat(alloc, league, few_breaks)?;
        copy_games(&self.standing.board, &mut self.games);
        let mut steps = Steps::<Plain>::start();
        let mut tally = league_tally(alloc, league, 1, &self.games, &mut steps)?;
        self.lower_from(alloc, league, heat, &mut tally, watch)
    }

    /// Keeps the games, of which the tally is, where they are better than the best so far, and where they meet the hard
    /// constraints goes on to better ones.
    ///
    /// # Errors
    /// Only where memory runs out.
    fn lower_from<W: Listener>(
        &mut self,
        alloc: Global,
        league: &League,
        heat: u64,
        tally: &mut Tally<AnyRule>,
        watch: &W,
    ) -> Result<(), AllocError>
        requires walker { IsWalkerIn league.now self.old }
        requires rules { AreRulesOf ⟦<AnyRule as Entries>⟧ 1 league.now tally.old.weights }
        requires teams { tally.old.table.n ≡ league.now.n }
        requires counts { table_counts tally.old.table ≡ round_counts self.old.standing.board }
        ensures further { OnOk result (IsFurther league.now self.old.best.score self.old.left self.new) }
        ensures seen { OnOk result (HasKeptHere league.now self.new) }
    {
        self.best.keep(&self.standing.board, Score::of(tally));
        if tally.infeasibility() > 0 {
            return Ok(());
        }
        self.soften(alloc, league, heat, tally, watch)?;
        Ok(())
    }

    /// From games that meet the hard constraints, of which the tally is, goes on to better ones, in stretches, until no
    /// move may be tried any more, nothing is left to lower, or the watch ends the walk. Thresholds cool down from this
    /// heat.
    ///
    /// # Errors
    /// Only where memory runs out.
    fn soften<W: Listener>(
        &mut self,
        alloc: Global,
        league: &League,
        heat: u64,
        tally: &mut Tally<AnyRule>,
        watch: &W,
    ) -> Result<(), AllocError>
        requires walker { IsWalkerIn league.now self.old }
        requires rules { AreRulesOf ⟦<AnyRule as Entries>⟧ 1 league.now tally.old.weights }
        requires teams { tally.old.table.n ≡ league.now.n }
        requires counts { table_counts tally.old.table ≡ round_counts self.old.standing.board }
        requires seen { HasKeptHere league.now self.old }
        ensures further { OnOk result (IsFurther league.now self.old.best.score self.old.left self.new) }
        ensures seen { OnOk result (HasKeptHere league.now self.new) }
    {
        let mut parts = WeighedParts::on(alloc, league, Weighing::STRICT, &self.standing.board)?;
        self.soften_parts(league, heat, tally, &mut parts, watch);
        Ok(())
    }

    /// Goes on so to better games, which the parts follow, too.
    fn soften_parts<W: Listener>(
        &mut self,
        league: &League,
        heat: u64,
        tally: &mut Tally<AnyRule>,
        parts: &mut WeighedParts,
        watch: &W,
    )
        requires walker { IsWalkerIn league.now self.old }
        requires rules { AreRulesOf ⟦<AnyRule as Entries>⟧ 1 league.now tally.old.weights }
        requires teams { tally.old.table.n ≡ league.now.n }
        requires counts { table_counts tally.old.table ≡ round_counts self.old.standing.board }
        requires seen { HasKeptHere league.now self.old }
        ensures further { IsFurther league.now self.old.best.score self.old.left self.new }
        ensures seen { HasKeptHere league.now self.new }
    {
        let cooling = Cooling::new(heat, self.left);
        'stretches: for _stretch in 0..self.left / STRETCH + 1 {
            let tried = self
                .standing
                .improve(cooling.at(self.left), &mut self.best, tally, parts, watch);
            self.left -= tried;
            self.tell(league, watch);
            if tally.objective() == 0 || self.is_spent(watch) {
                return;
            }
        }
    }

    /// Tells how far the walk has come.
    pub(crate) fn tell<W: Listener>(&self, league: &League, watch: &W)
        requires { IsWalkerIn league.now self.now }
    {
        let Score {
            infeasibility: cost,
            objective,
        } = self.best.score();
        let tried = self.tried();
        if cost > 0 {
            watch.tell(News::Hard { tried, cost });
        } else {
            watch.tell_season(league, self.best.games(), objective, tried);
        }
    }

    /// How many moves may still be tried.
    pub(crate) fn left(&self) -> u64
        ensures { result ≡ self.now.left }
    {
        self.left
    }
}

/// What games cost in a league.
///
/// # Errors
/// Only where memory runs out.
pub(crate) fn cost_of(alloc: Global, league: &League, games: &[Game]) -> Result<Score, AllocError>
    requires fit { All (IsGame league.now.n) games.now }
    requires few { length games.now ≤ 1600 }
    ensures { IfOk result (λ score. score ≡ league_score league.now (counts_of games.now)) }
{
    let mut steps = Steps::<Plain>::start();
    let tally = league_tally(alloc, league, 1, games, &mut steps)?;
    Ok(Score::of(&tally))
}
