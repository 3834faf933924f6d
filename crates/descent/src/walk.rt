//! A walk over all moves, which goes on from where it stands. It is hill climbing by first improvement.
ghost use Rattle.std.specs.Prelude.{◌≡◌, ◌<◌, ◌≤◌, ◌⊎◌, ◌+◌, ◌++◌, [], ◌∷◌, false, length, MatchOption, IfOk, IfSome, OnErr, Some, slice_index_or};
ghost use Rattle.std.specs.List.{All, AllWithin};
ghost use Rattle.league.specs.Counts.{counts_of};
ghost use Rattle.league.specs.Instance.{IsGame, IsTeamCount};
ghost use Rattle.league.specs.Structure.{IsRoundRobin};
ghost use Rattle.rule_core.specs.Table.{table_counts};
ghost use Rattle.moves.specs.Moves.{IsLegal, moved};
ghost use Rattle.descent.specs.Score.{IsCostly, score_on};
ghost use Rattle.descent.specs.Settled.{IsLowering, IsSettled};
ghost use Rattle.descent.specs.Trail.{IsTrail};
ghost use Rattle.descent.specs.Walks.{IsFoundAt, IsFullEdit, IsWalkOn, KeepsGames, Knows};
ghost use Rattle.moves.specs.declared.swap.Swap.{Swap};
ghost use Rattle.robin_watch.specs.Limits.{IsKeptTo};

use crate::find::{all_moves, is_lowering};
use crate::look::{Ended, is_asked_at};
use crate::score::Score;
use crate::tally::Tally;
use league::Schedule;
use moves::{Board, Edit, MoveList, Swap};
use robin_watch::{News, Watch};
use rule_core::{Rule, Steps};
use std::alloc::{AllocError, Global};

/// A double round robin on a board, all moves with the place of the next one to try, and the moves made so far.
#[derive(Drop)]
pub(crate) struct Walk {
    moves: Vec<Swap>,
    next: usize,
    board: Board,
    edit: Edit,
    trail: MoveList,
}

impl Walk {
    /// A walk from the games of a double round robin, that begins at the first move.
    ///
    /// # Errors
    /// Only where memory runs out.
    pub(crate) fn new(
        alloc: Global,
        n: u16,
        phased: bool,
        first: &Schedule,
    ) -> Result<Walk, AllocError>
        requires teams { IsTeamCount n }
        requires fit { All (IsGame n) first.now }
        requires round_robin { IsRoundRobin n phased (counts_of first.now) }
        ensures walk { IfOk result (IsWalkOn n (counts_of first.now)) }
        ensures phased { IfOk result (λ walk. walk.board.phased ≡ phased) }
        ensures trail { IfOk result (λ walk. walk.trail.list ≡ []) }
    {
        Ok(Walk {
            moves: all_moves(alloc, n)?,
            next: 0,
            board: Board::new(alloc, n, phased, first)?,
            edit: Edit::new(alloc, n)?,
            trail: MoveList::new(alloc),
        })
    }

    /// Makes moves that lower the score of a tally's games, at most so many, until the watch ends it, and says whether
    /// it is known that no further one does. The watch hears of each.
    ///
    /// # Errors
    /// Only where memory runs out: the moves made so far stay made.
    pub(crate) fn go_down<R: Rule<L>, L, W: Watch>(
        &mut self,
        tally: &mut Tally<R>,
        limit: u64,
        steps: &mut Steps<L>,
        watch: &W,
    ) -> Result<bool, AllocError>
        requires walk { IsWalkOn tally.old.table.n (table_counts tally.old.table) self.old }
        requires start { self.old.trail.list ≡ [] }
        ensures weights { tally.new.weights ≡ tally.old.weights }
        ensures teams { tally.new.table.n ≡ tally.old.table.n }
        ensures trail { IsTrail tally.old.table.n self.old.board.phased (score_on R.Entries tally.old.weights)
            (table_counts tally.old.table) self.new.trail.list (table_counts tally.new.table) }
        ensures few { length self.new.trail.list ≤ limit }
        ensures known { IfOk result (Knows tally.old.table.n self.old.board.phased
            (score_on R.Entries tally.old.weights) (table_counts tally.new.table) (W.may_stop watch.now)) }
        ensures spent { IfOk result (λ settled. settled ≡ false
            → IsKeptTo (Some limit) (W.may_stop watch.now) (Some (length self.new.trail.list))) }
        ensures begun { 1 ≤ limit → IfOk result (λ settled. settled ≡ false
            → W.may_stop watch.now ⊎ (1 ≤ length self.new.trail.list)) }
    {
        'down: for made in 0..limit {
            watch.tell(News::Down { made });
            match self.find(tally, steps, watch) {
                Err(Ended) => return Ok(false),
                Ok(None) => return Ok(true),
                Ok(Some(step)) => {
                    self.trail.reserve(1)?;
                    self.make(step, tally, steps);
                }
            }
        }
        match self.find(tally, steps, watch) {
            Ok(None) => Ok(true),
            Ok(Some(_step)) => Ok(false),
            Err(Ended) => Ok(false),
        }
    }

    /// The next move of one round of all moves, from where the walk stands, that is legal and lowers the score. Then the
    /// edit is that of the move. Where the score is the least of all, no move is tried.
    fn find<R: Rule<L>, L, W: Watch>(
        &mut self,
        tally: &mut Tally<R>,
        steps: &mut Steps<L>,
        watch: &W,
    ) -> Result<Option<Swap>, Ended>
        requires walk { IsWalkOn tally.old.table.n (table_counts tally.old.table) self.old }
        ensures keeps { KeepsGames tally.old tally.new }
        ensures walk { IsWalkOn tally.old.table.n (table_counts tally.old.table) self.new }
        ensures phased { self.new.board.phased ≡ self.old.board.phased }
        ensures trail { self.new.trail ≡ self.old.trail }
        ensures found { IfOk result (λ found. MatchOption found
            (IsSettled tally.old.table.n self.old.board.phased (score_on R.Entries tally.old.weights)
            (table_counts tally.old.table))
            (IsLowering tally.old.table.n self.old.board.phased (score_on R.Entries tally.old.weights)
            (table_counts tally.old.table))) }
        ensures edit { IfOk result (λ found. IfSome found (λ step.
            IsFullEdit tally.old.table.n (table_counts tally.old.table) step self.new.edit)) }
        ensures ended { OnErr result (W.may_stop watch.now) }
        ensures costly { OnErr result (IsCostly (score_on R.Entries tally.old.weights (table_counts tally.old.table))) }
    {
        if Score::of(tally).is_least() {
            return Ok(None);
        }
        let found = self.find_place(tally, steps, watch)?;
        match found {
            Some(place) => Ok(Some(self.take(place))),
            None => Ok(None),
        }
    }

    /// The place of the next move of one round of all moves, from where the walk stands, that is legal and lowers the
    /// score. Then the edit is that of the move. The tally has the same games as before.
    fn find_place<R: Rule<L>, L, W: Watch>(
        &mut self,
        tally: &mut Tally<R>,
        steps: &mut Steps<L>,
        watch: &W,
    ) -> Result<Option<usize>, Ended>
        requires walk { IsWalkOn tally.old.table.n (table_counts tally.old.table) self.old }
        ensures keeps { KeepsGames tally.old tally.new }
        ensures same { self.new ≡ record self.old { edit = self.new.edit } }
        ensures edit_for { self.new.edit.n ≡ self.old.edit.n }
        ensures found { IfOk result (λ found. MatchOption found
            (All (λ step. IsLowering tally.old.table.n self.old.board.phased
            (score_on R.Entries tally.old.weights) (table_counts tally.old.table) step → ⊥) self.old.moves.items)
            (IsFoundAt tally.old.table.n self.old.board.phased (score_on R.Entries tally.old.weights)
            (table_counts tally.old.table) self.old.moves.items self.new.edit)) }
        ensures ended { OnErr result (W.may_stop watch.now) }
    {
        let next = self.next;
        let end = self.moves.len();
        let behind = self.find_between(next, end, tally, steps, watch)?;
        match behind {
            Some(place) => Ok(Some(place)),
            None => {
                let before = self.find_between(0, next, tally, steps, watch)?;
                Ok(before)
            }
        }
    }

    /// The move at a place, behind which the next round begins.
    fn take(&mut self, place: usize) -> Swap
        requires { place < length self.old.moves.items }
        ensures step { (d : Swap) → result ≡ slice_index_or self.old.moves.items place d }
        ensures next { self.new ≡ record self.old { next = place + 1 } }
    {
        self.next = place + 1;
        self.moves[place]
    }

    /// The place of the first of the moves from one place up to another that is legal and lowers the score. Then the
    /// edit is that of the move. The tally has the same games as before.
    fn find_between<R: Rule<L>, L, W: Watch>(
        &mut self,
        start: usize,
        end: usize,
        tally: &mut Tally<R>,
        steps: &mut Steps<L>,
        watch: &W,
    ) -> Result<Option<usize>, Ended>
        requires walk { IsWalkOn tally.old.table.n (table_counts tally.old.table) self.old }
        requires end { end ≤ length self.old.moves.items }
        ensures keeps { KeepsGames tally.old tally.new }
        ensures same { self.new ≡ record self.old { edit = self.new.edit } }
        ensures edit_for { self.new.edit.n ≡ self.old.edit.n }
        ensures found { IfOk result (λ found. MatchOption found
            (AllWithin (λ step. IsLowering tally.old.table.n self.old.board.phased
            (score_on R.Entries tally.old.weights) (table_counts tally.old.table) step → ⊥)
            self.old.moves.items start end)
            (IsFoundAt tally.old.table.n self.old.board.phased (score_on R.Entries tally.old.weights)
            (table_counts tally.old.table) self.old.moves.items self.new.edit)) }
        ensures ended { OnErr result (W.may_stop watch.now) }
    {
        for place in start..end {
            if is_asked_at(place) && watch.is_over_now(self.trail.len() as u64) {
                return Err(Ended);
            }
            if is_lowering(self.moves[place], &self.board, &mut self.edit, tally, steps) {
                return Ok(Some(place));
            }
        }
        Ok(None)
    }

    /// Makes a legal move whose edit is at hand.
    fn make<R: Rule<L>, L>(&mut self, step: Swap, tally: &mut Tally<R>, steps: &mut Steps<L>)
        requires walk { IsWalkOn tally.old.table.n (table_counts tally.old.table) self.old }
        requires legal { IsLegal tally.old.table.n self.old.board.phased (table_counts tally.old.table) step }
        requires edit { IsFullEdit tally.old.table.n (table_counts tally.old.table) step self.old.edit }
        requires spare { 1 ≤ self.old.trail.spare }
        ensures weights { tally.new.weights ≡ tally.old.weights }
        ensures teams { tally.new.table.n ≡ tally.old.table.n }
        ensures counts { table_counts tally.new.table ≡ moved tally.old.table.n (table_counts tally.old.table) step }
        ensures walk { IsWalkOn tally.old.table.n (table_counts tally.new.table) self.new }
        ensures phased { self.new.board.phased ≡ self.old.board.phased }
        ensures trail { self.new.trail.list ≡ self.old.trail.list ++ step ∷ [] }
    {
        tally.apply(&self.edit, steps);
        self.board.apply(&self.edit);
        self.trail.push(step);
    }

    /// The moves made.
    pub(crate) fn into_trail(self) -> MoveList
        ensures { result ≡ self.trail }
    {
        self.trail
    }
}
