//! A descent from the games of a tally.
ghost use Rattle.std.specs.Prelude.{◌≡◌, ◌≤◌, ◌↔◌, ◌⊎◌, true, false, length, IfOk, IsTrue, Some};
ghost use Rattle.std.specs.List.{All};
ghost use Rattle.league.specs.Counts.{counts_of};
ghost use Rattle.league.specs.Instance.{IsGame};
ghost use Rattle.league.specs.Order.{IsInOrder};
ghost use Rattle.league.specs.Structure.{IsRoundRobin};
ghost use Rattle.rule_core.specs.Table.{table_counts};
ghost use Rattle.descent.specs.Score.{IsCostly, IsNoWorse, score_on};
ghost use Rattle.descent.specs.Settled.{IsSettled};
ghost use Rattle.descent.specs.Trail.{IsTrail};
ghost use Rattle.robin_watch.specs.Limits.{IsKeptTo};

use crate::season::season_of;
use crate::tally::Tally;
use crate::walk::Walk;
use league::Schedule;
use moves::MoveList;
use robin_watch::{Unwatched, Watch};
use rule_core::{Rule, Steps};
use std::alloc::{AllocError, Global};
use std::marker::Model;

/// What a descent did: the games at its start in order, its moves, and whether the games at its end are settled. It is
/// `descend` alone that makes one.
#[derive(Drop)]
pub struct Descent {
    first: Schedule,
    trail: MoveList,
    settled: bool,
}

impl Model for Descent {
    ghost use Rattle.descent.specs.Descended.{Descended};

    ghost Value = { Descended };

    ghost view = { λ d. record { first = d.first; trail = d.trail.list; settled = d.settled } };
}

impl Descent {
    /// The games at the start, in order.
    pub fn first(&self) -> &Schedule
        ensures { result.now ≡ self.now.first }
    {
        &self.first
    }

    /// The moves, from those games on.
    pub fn trail(&self) -> &MoveList
        ensures { result.now.list ≡ self.now.trail }
    {
        &self.trail
    }

    /// Whether no legal move lowers the score of the games at the end.
    pub fn settled(&self) -> bool
        ensures { result ≡ self.now.settled }
    {
        self.settled
    }
}

/// Makes moves on a tally's games, a double round robin, each of which is legal and lowers the score by the tally's
/// rules, at most `limit` of them. After a move it goes on with the move behind it, and it ends after one whole round
/// of all moves of which none lowers the score, or at the limit. Games that cost nothing are settled without a round.
///
/// - `weights`, `teams`, `round_robin` and `no_worse`: the rules stay, and the games are a double round robin of the
///   same league that isn't worse, after an error too.
/// - `first`, `fit` and `in_order`: the first games are those at the start, in order.
/// - `trail` and `few`: the moves lead from there to the games at the end, and are at most `limit`.
/// - `settled` and `spent`: the descent is settled exactly where no legal move of any kind lowers the score, and not
///   settled only at the limit.
///
/// # Errors
/// Only where memory runs out. Then the moves made so far stay made: the tally has a double round robin that isn't
/// worse than at the start.
pub fn descend<R: Rule<L>, L>(
    alloc: Global,
    phased: bool,
    tally: &mut Tally<R>,
    limit: u64,
    steps: &mut Steps<L>,
) -> Result<Descent, AllocError>
    requires round_robin { IsRoundRobin tally.old.table.n phased (table_counts tally.old.table) }
    ensures weights { tally.new.weights ≡ tally.old.weights }
    ensures teams { tally.new.table.n ≡ tally.old.table.n }
    ensures round_robin { IsRoundRobin tally.old.table.n phased (table_counts tally.new.table) }
    ensures no_worse { IsNoWorse (score_on R.Entries tally.old.weights (table_counts tally.new.table))
        (score_on R.Entries tally.old.weights (table_counts tally.old.table)) }
    ensures first { IfOk result (λ descent. counts_of descent.first ≡ table_counts tally.old.table) }
    ensures fit { IfOk result (λ descent. All (IsGame tally.old.table.n) descent.first) }
    ensures in_order { IfOk result (λ descent. IsInOrder descent.first) }
    ensures trail { IfOk result (λ descent. IsTrail tally.old.table.n phased (score_on R.Entries tally.old.weights)
        (table_counts tally.old.table) descent.trail (table_counts tally.new.table)) }
    ensures few { IfOk result (λ descent. length descent.trail ≤ limit) }
    ensures settled { IfOk result (λ descent. IsTrue descent.settled ↔ IsSettled tally.old.table.n phased
        (score_on R.Entries tally.old.weights) (table_counts tally.new.table)) }
    ensures spent { IfOk result (λ descent. descent.settled ≡ false → length descent.trail ≡ limit) }
{
    descend_watched(alloc, phased, tally, limit, steps, &Unwatched)
}

/// Makes moves as `descend` does, until the watch ends it. The watch is asked before every 16th of all moves is tried.
///
/// The clauses `weights` to `few` are those of `descend`.
///
/// - `settled`, `costly` and `lowers`: where the descent is said to be settled, no legal move of any kind lowers the
///   score. Else the games cost something, and a move lowers the score, unless the watch may end the descent.
/// - `spent`: it isn't settled only at the limit, or, where the watch may end it, at a lower one.
/// - `begun`: where it may make a move and a move lowers the score, it makes one, unless the watch may end it.
///
/// # Errors
/// Only where memory runs out. Then the moves made so far stay made: the tally has a double round robin that isn't
/// worse than at the start.
pub fn descend_watched<R: Rule<L>, L, W: Watch>(
    alloc: Global,
    phased: bool,
    tally: &mut Tally<R>,
    limit: u64,
    steps: &mut Steps<L>,
    watch: &W,
) -> Result<Descent, AllocError>
    requires round_robin { IsRoundRobin tally.old.table.n phased (table_counts tally.old.table) }
    ensures weights { tally.new.weights ≡ tally.old.weights }
    ensures teams { tally.new.table.n ≡ tally.old.table.n }
    ensures round_robin { IsRoundRobin tally.old.table.n phased (table_counts tally.new.table) }
    ensures no_worse { IsNoWorse (score_on R.Entries tally.old.weights (table_counts tally.new.table))
        (score_on R.Entries tally.old.weights (table_counts tally.old.table)) }
    ensures first { IfOk result (λ descent. counts_of descent.first ≡ table_counts tally.old.table) }
    ensures fit { IfOk result (λ descent. All (IsGame tally.old.table.n) descent.first) }
    ensures in_order { IfOk result (λ descent. IsInOrder descent.first) }
    ensures trail { IfOk result (λ descent. IsTrail tally.old.table.n phased (score_on R.Entries tally.old.weights)
        (table_counts tally.old.table) descent.trail (table_counts tally.new.table)) }
    ensures few { IfOk result (λ descent. length descent.trail ≤ limit) }
    ensures settled { IfOk result (λ descent. descent.settled ≡ true → IsSettled tally.old.table.n phased
        (score_on R.Entries tally.old.weights) (table_counts tally.new.table)) }
    ensures costly { IfOk result (λ descent. descent.settled ≡ false
        → IsCostly (score_on R.Entries tally.old.weights (table_counts tally.new.table))) }
    ensures lowers { IfOk result (λ descent. descent.settled ≡ false → W.may_stop watch.now
        ⊎ (IsSettled tally.old.table.n phased (score_on R.Entries tally.old.weights) (table_counts tally.new.table)
        → ⊥)) }
    ensures spent { IfOk result (λ descent. descent.settled ≡ false
        → IsKeptTo (Some limit) (W.may_stop watch.now) (Some (length descent.trail))) }
    ensures begun { 1 ≤ limit → IfOk result (λ descent. descent.settled ≡ false
        → W.may_stop watch.now ⊎ (1 ≤ length descent.trail)) }
{
    let first = season_of(alloc, phased, tally.cells())?;
    let mut walk = Walk::new(alloc, tally.cells().n(), phased, &first)?;
    let settled = walk.go_down(tally, limit, steps, watch)?;
    Ok(Descent {
        first,
        trail: walk.into_trail(),
        settled,
    })
}
