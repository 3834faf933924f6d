//! A walk over all moves that leaves the first slots alone, and goes on from where it stands.
ghost use Rattle.std.specs.Prelude.{◌≡◌, ◌+◌, ◌<◌, ◌≤◌, ◌⊎◌, true, false, length, MatchOption, IfOk, IfSome, OnErr, slice_index_or};
ghost use Rattle.std.specs.List.{All, AllWithin};
ghost use Rattle.rule_core.specs.Table.{table_counts};
ghost use Rattle.league.specs.Accepted.{IsAccepted};
ghost use Rattle.league.specs.Counts.{counts_of};
ghost use Rattle.league.specs.Instance.{IsGame};
ghost use Rattle.league.specs.Structure.{IsRoundRobin};
ghost use Rattle.descent.specs.Walks.{IsFullEdit, KeepsGames};
ghost use Rattle.moves.specs.Moves.{moved};
ghost use Rattle.moves.specs.declared.swap.Swap.{Swap};
ghost use Rattle.resume.specs.Nearing.{IsNearest};
ghost use Rattle.resume.specs.Walks.{IsBetter, IsDown, IsFoundAt, IsWalkFrom, IsWalkOn};

use crate::better::{is_better, is_least};
use crate::ground::Ground;
use crate::old_plan::OldPlan;
use descent::{Ended, Tally, all_moves, is_asked_at};
use deviation::counted;
use league::Schedule;
use moves::{Board, Edit, Swap};
use robin_watch::{News, Phase, Watch};
use rule_core::{Rule, Steps};
use std::alloc::{AllocError, Global};

/// The most moves of a descent (own limit): as many as `solve` makes where nothing is said.
const MOST_MOVES: u64 = 10_000;

/// A season on its ground, all moves with the place of the next one to try, the edit of the one that was tried last,
/// and how many moves are made.
pub(crate) struct Walk<'a> {
    ground: Ground<'a>,
    moves: Vec<Swap>,
    next: usize,
    edit: Edit,
    made: u64,
}

impl Drop for Walk<'_> {
    fn drop(self) {
        let Walk {
            ground: _,
            moves: _,
            next: _,
            edit: _,
            made: _,
        } = self;
    }
}

impl<'a> Walk<'a> {
    /// A walk from the games of a season, that begins at the first move.
    ///
    /// # Errors
    /// Only where memory runs out.
    pub(crate) fn new(
        alloc: Global,
        plan: OldPlan<'a>,
        start: &Schedule,
    ) -> Result<Walk<'a>, AllocError>
        requires few { length plan.games.now ≤ 10000 }
        requires plan_fit { All (IsGame plan.league.now.n) plan.games.now }
        requires fit { All (IsGame plan.league.now.n) start.now }
        requires round_robin { IsRoundRobin plan.league.now.n plan.league.now.phased (counts_of start.now) }
        ensures { IfOk result (IsWalkFrom plan.entry (counts_of start.now)) }
    {
        let n = plan.league.n();
        Ok(Walk {
            ground: Ground {
                plan,
                old: counted(alloc, n, plan.games)?,
                board: Board::new(alloc, n, plan.league.phased(), start)?,
            },
            moves: all_moves(alloc, n)?,
            next: 0,
            edit: Edit::new(alloc, n)?,
            made: 0,
        })
    }

    /// Makes moves that better the season of a tally's games, at most 10,000, until the watch ends it, and says whether
    /// it is known that no further one does. The watch hears of each.
    pub(crate) fn go_down<R: Rule<L>, L, W: Watch>(
        &mut self,
        tally: &mut Tally<R>,
        steps: &mut Steps<L>,
        watch: &W,
    ) -> bool
        requires walk { IsWalkOn R.Entries self.old tally.old }
        requires accepted { IsAccepted self.old.ground.plan.league.now (table_counts tally.old.table) }
        ensures down { IsDown R.Entries self.old.ground.plan (table_counts tally.old.table) self.new tally.new }
        ensures settled { result ≡ true → IsNearest self.old.ground.plan.league.now self.old.ground.plan.k
            self.old.ground.plan.games.now (table_counts tally.new.table) }
        ensures open_yet { result ≡ false → W.may_stop watch.now ⊎ (IsNearest self.old.ground.plan.league.now
            self.old.ground.plan.k self.old.ground.plan.games.now (table_counts tally.new.table) → ⊥) }
    {
        watch.tell(News::Phase(Phase::Descent { moves: MOST_MOVES }));
        'down: for made in 0..MOST_MOVES {
            watch.tell(News::Down { made });
            self.made = made;
            match self.find(tally, steps, watch) {
                Err(Ended) => return false,
                Ok(None) => return true,
                Ok(Some(step)) => self.make(step, tally, steps),
            }
        }
        self.made = MOST_MOVES;
        self.is_settled(tally, steps, watch)
    }

    /// Whether it is known that no move betters the season. The tally has the same games as before.
    pub(crate) fn is_settled<R: Rule<L>, L, W: Watch>(
        &mut self,
        tally: &mut Tally<R>,
        steps: &mut Steps<L>,
        watch: &W,
    ) -> bool
        requires walk { IsWalkOn R.Entries self.old tally.old }
        ensures keeps { KeepsGames tally.old tally.new }
        ensures walk { IsWalkOn R.Entries self.new tally.new }
        ensures ground { self.new.ground ≡ self.old.ground }
        ensures settled { result ≡ true → IsNearest self.old.ground.plan.league.now self.old.ground.plan.k
            self.old.ground.plan.games.now (table_counts tally.old.table) }
        ensures open_yet { result ≡ false → W.may_stop watch.now ⊎ (IsNearest self.old.ground.plan.league.now
            self.old.ground.plan.k self.old.ground.plan.games.now (table_counts tally.old.table) → ⊥) }
    {
        match self.find(tally, steps, watch) {
            Ok(None) => true,
            Ok(Some(_step)) => false,
            Err(Ended) => false,
        }
    }

    /// The next move of one round of all moves, from where the walk stands, that betters the season. Then the edit is
    /// that of the move. Where no game is changed at no cost, no move is tried. The tally has the same games as before.
    pub(crate) fn find<R: Rule<L>, L, W: Watch>(
        &mut self,
        tally: &mut Tally<R>,
        steps: &mut Steps<L>,
        watch: &W,
    ) -> Result<Option<Swap>, Ended>
        requires walk { IsWalkOn R.Entries self.old tally.old }
        ensures keeps { KeepsGames tally.old tally.new }
        ensures walk { IsWalkOn R.Entries self.new tally.new }
        ensures ground { self.new.ground ≡ self.old.ground }
        ensures found { IfOk result (λ found. MatchOption found
            (IsNearest self.old.ground.plan.league.now self.old.ground.plan.k self.old.ground.plan.games.now
            (table_counts tally.old.table))
            (IsBetter self.old.ground.plan (table_counts tally.old.table))) }
        ensures edit { IfOk result (λ found. IfSome found (λ step.
            IsFullEdit self.old.ground.plan.league.now.n (table_counts tally.old.table) step self.new.edit)) }
        ensures ended { OnErr result (W.may_stop watch.now) }
    {
        if is_least(&self.ground, tally) {
            return Ok(None);
        }
        let found = self.find_place(tally, steps, watch)?;
        match found {
            Some(place) => Ok(Some(self.take(place))),
            None => Ok(None),
        }
    }

    /// The place of the next move of one round of all moves, from where the walk stands, that betters the season. Then
    /// the edit is that of the move. The tally has the same games as before.
    fn find_place<R: Rule<L>, L, W: Watch>(
        &mut self,
        tally: &mut Tally<R>,
        steps: &mut Steps<L>,
        watch: &W,
    ) -> Result<Option<usize>, Ended>
        requires walk { IsWalkOn R.Entries self.old tally.old }
        ensures keeps { KeepsGames tally.old tally.new }
        ensures same { self.new ≡ record self.old { edit = self.new.edit } }
        ensures edit_for { self.new.edit.n ≡ self.old.edit.n }
        ensures found { IfOk result (λ found. MatchOption found
            (All (λ step. IsBetter self.old.ground.plan (table_counts tally.old.table) step → ⊥) self.old.moves.items)
            (IsFoundAt self.old.ground.plan (table_counts tally.old.table) self.old.moves.items self.new.edit)) }
        ensures ended { OnErr result (W.may_stop watch.now) }
    {
        let next = self.next;
        let end = self.moves.len();
        let behind = self.find_between(next, end, tally, steps, watch)?;
        match behind {
            Some(place) => Ok(Some(place)),
            None => {
                let before = self.find_between(0, next, tally, steps, watch)?;
                Ok(before)
            }
        }
    }

    /// The move at a place, behind which the next round begins.
    fn take(&mut self, place: usize) -> Swap
        requires { place < length self.old.moves.items }
        ensures step { (d : Swap) → result ≡ slice_index_or self.old.moves.items place d }
        ensures next { self.new ≡ record self.old { next = place + 1 } }
    {
        self.next = place + 1;
        self.moves[place]
    }

    /// The place of the first of the moves from one place up to another that betters the season. Then the edit is that
    /// of the move. The tally has the same games as before.
    fn find_between<R: Rule<L>, L, W: Watch>(
        &mut self,
        start: usize,
        end: usize,
        tally: &mut Tally<R>,
        steps: &mut Steps<L>,
        watch: &W,
    ) -> Result<Option<usize>, Ended>
        requires walk { IsWalkOn R.Entries self.old tally.old }
        requires end { end ≤ length self.old.moves.items }
        ensures keeps { KeepsGames tally.old tally.new }
        ensures same { self.new ≡ record self.old { edit = self.new.edit } }
        ensures edit_for { self.new.edit.n ≡ self.old.edit.n }
        ensures found { IfOk result (λ found. MatchOption found
            (AllWithin (λ step. IsBetter self.old.ground.plan (table_counts tally.old.table) step → ⊥)
            self.old.moves.items start end)
            (IsFoundAt self.old.ground.plan (table_counts tally.old.table) self.old.moves.items self.new.edit)) }
        ensures ended { OnErr result (W.may_stop watch.now) }
    {
        for place in start..end {
            if is_asked_at(place) && watch.is_over_now(self.made) {
                return Err(Ended);
            }
            if is_better(
                self.moves[place],
                &self.ground,
                &mut self.edit,
                tally,
                steps,
            ) {
                return Ok(Some(place));
            }
        }
        Ok(None)
    }

    /// Makes a move that betters the season, whose edit is at hand.
    fn make<R: Rule<L>, L>(&mut self, step: Swap, tally: &mut Tally<R>, steps: &mut Steps<L>)
        requires walk { IsWalkOn R.Entries self.old tally.old }
        requires better { IsBetter self.old.ground.plan (table_counts tally.old.table) step }
        requires edit { IsFullEdit self.old.ground.plan.league.now.n (table_counts tally.old.table) step
            self.old.edit }
        ensures counts { table_counts tally.new.table
            ≡ moved self.old.ground.plan.league.now.n (table_counts tally.old.table) step }
        ensures walk { IsWalkOn R.Entries self.new tally.new }
        ensures plan { self.new.ground.plan ≡ self.old.ground.plan }
    {
        tally.apply(&self.edit, steps);
        self.ground.board.apply(&self.edit);
    }
}
