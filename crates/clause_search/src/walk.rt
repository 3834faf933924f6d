//! The search.
ghost use Rattle.std.specs.Prelude.{◌≡◌, ◌⊎◌, ℕ, ◌^◌, ◌<◌, ◌≤◌, [], length, Option, Some, None, true, false};
ghost use Rattle.std.specs.Prelude.{IfOk, IfSome};
ghost use Rattle.std.specs.List.{All};
ghost use Rattle.rows.specs.Partials.{IsQuiet};
ghost use Rattle.propagate.specs.Trails.{IsQuietBelow, IsSettled, KnowsVariables, NamesConflict, values_of};
ghost use Rattle.robin_watch.specs.Limits.{EndsAt, IsKeptTo, lower_limit};
ghost use Rattle.clause_search.specs.Answers.{IsAnswer, IsAnswerBy};
ghost use Rattle.clause_search.specs.Turns.{IsLeft, IsTurn, Turned};

use crate::desk::Desk;
use crate::forget::lighten;
use crate::found::Found;
use crate::learn::{learn, refute};
use crate::levels::last_decision;
use crate::order::Order;
use crate::pick::{decide, filled, pick};
use crate::turn::Turn;
use propagate::{Conflict, Trail};
use refutation::Log;
use robin_watch::{News, Unwatched, Watch, kept_limit};
use rows::{Lit, RowStore};
use std::alloc::{AllocError, Global};

/// The watch hears once of each so many clauses that are learnt.
const TOLD_EACH: u64 = 64;

/// Searches for values of so many variables that satisfy every row, or a log that refutes them. With a limit it learns
/// at most so many clauses. Nothing stops it: `search_watched` says how it goes.
///
/// # Errors
/// Only where memory runs out.
pub fn search(
    alloc: Global,
    rows: &RowStore,
    vars: u32,
    prefer: &[Lit],
    limit: Option<u64>,
) -> Result<Found, AllocError>
    requires few { vars ≤ 2147483647 }
    requires known { All (KnowsVariables vars) rows.now }
    requires preferred { All (λ l. l.var ≤ vars) prefer.now }
    ensures { IfOk result (IsAnswer rows.now vars limit) }
{
    search_watched(alloc, rows, vars, prefer, limit, &Unwatched)
}

/// Searches for values of so many variables that satisfy every row, or a log that refutes them. With a limit it learns
/// at most so many clauses. The watch is asked at each conflict, and where it ends the search, the clauses that are
/// learnt by then are the limit.
///
/// The log has all clauses that are learnt. The trail keeps the more useful ones of them, more and more as the search
/// goes on.
///
/// The search decides the most active free variable, with the sign that it had last: at first the preferred literals,
/// in their order, then all other variables, to be false. From each conflict above level 0 it learns the clause of the
/// first unique implication point, and goes back to where this clause forces a literal, or at times to level 0. A
/// conflict at level 0 refutes the rows, whatever the limit. Without a limit, and where nothing may stop it, it is
/// never spent.
///
/// # Errors
/// Only where memory runs out.
pub fn search_watched<W: Watch>(
    alloc: Global,
    rows: &RowStore,
    vars: u32,
    prefer: &[Lit],
    limit: Option<u64>,
    watch: &W,
) -> Result<Found, AllocError>
    requires few { vars ≤ 2147483647 }
    requires known { All (KnowsVariables vars) rows.now }
    requires preferred { All (λ l. l.var ≤ vars) prefer.now }
    ensures answer { IfOk result (IsAnswerBy rows.now vars limit (W.may_stop watch.now)) }

    // Where it is known beforehand at which turn the watch ends a run, so is the limit.
    ensures planned { (first : Option ℕ) → EndsAt (W.stops_at watch.now) first
        → IfOk result (IsAnswer rows.now vars (lower_limit limit first)) }
{
    let mut trail = Trail::new(alloc, rows, vars)?;
    let given = rows.len();
    let mut desk = Desk::new(alloc, given as u64, vars, prefer)?;
    take_turns(alloc, rows, &mut trail, &mut desk, limit, watch)
}

/// Takes turns until one ends the search. It begins with a trail over these rows on which no literal was made true.
fn take_turns<'a, W: Watch>(
    alloc: Global,
    rows: &'a RowStore,
    trail: &mut Trail<'a>,
    desk: &mut Desk,
    limit: Option<u64>,
    watch: &W,
) -> Result<Found, AllocError>
    requires known { All (KnowsVariables trail.old.vars) rows.now }
    requires trail { trail.old ≡ record { vars = trail.old.vars; rows = rows.now; entries = [] } }
    requires given { desk.old.given ≡ length rows.now }
    requires vars { desk.old.order.vars ≡ trail.old.vars }
    requires kept { desk.old.kept.places.items ≡ [] }
    ensures answer { IfOk result (IsAnswerBy rows.now trail.old.vars limit (W.may_stop watch.now)) }
    ensures planned { (first : Option ℕ) → EndsAt (W.stops_at watch.now) first
        → IfOk result (IsAnswer rows.now trail.old.vars (lower_limit limit first)) }
{
    let mut log = Log::new(alloc);
    'turns: loop {
        let found = trail.run();
        let kept = limit_here(&found, limit, log.len() as u64, watch);
        let turn = take_turn(alloc, trail, &mut log, desk, found, kept)?;
        match turn {
            Turn::Again => lighten(alloc, rows, trail, &log, desk)?,
            Turn::Satisfied(values) => return Ok(Found::Sat(values)),
            Turn::Refuted => return Ok(Found::Refuted(log)),
            Turn::Spent => return Ok(Found::Spent(log)),
        }
    }
}

/// The limit of clauses that counts where propagation has come to an end. At a conflict the watch is asked, and hears
/// at times how many clauses are learnt.
fn limit_here<W: Watch>(
    found: &Option<Conflict>,
    limit: Option<u64>,
    learnt: u64,
    watch: &W,
) -> Option<u64>
    requires { IfSome limit (λ most. learnt ≤ most) }
    ensures kept { IsKeptTo limit (W.may_stop watch.now) result }
    ensures within { IfSome result (λ most. learnt ≤ most) }
    ensures room { IfSome result (λ most. learnt < most) → IfSome limit (λ most. learnt < most) }
    ensures ended { W.stops_at watch.now learnt ≡ Some true → (found.now ≡ None) ⊎ (result ≡ Some learnt) }
    ensures not_ended { W.stops_at watch.now learnt ≡ Some false → result ≡ limit }
{
    if found.is_none() {
        return limit;
    }
    if learnt % TOLD_EACH == 0 {
        watch.tell(News::Search { learnt, limit });
    }
    kept_limit(limit, learnt, watch)
}

/// What is done where propagation has come to an end.
fn take_turn(
    alloc: Global,
    trail: &mut Trail,
    log: &mut Log,
    desk: &mut Desk,
    found: Option<Conflict>,
    limit: Option<u64>,
) -> Result<Turn, AllocError>
    requires vars { desk.old.order.vars ≡ trail.old.vars }
    requires found { IsSettled trail.old.rows (values_of trail.old.entries) found }
    requires below { IsQuietBelow trail.old.rows trail.old.entries }
    requires within { IfSome limit (λ most. length log.old ≤ most) }
    ensures turn { IfOk result (IsTurn (record {
      given = desk.old.given;
      steps = log.old;
      more = log.new;
      kept = desk.old.kept.places.items;
      now = desk.new.kept.places.items;
      room = desk.old.kept.room;
      room_now = desk.new.kept.room;
    }) trail.old trail.new limit) }
    ensures given { desk.new.given ≡ desk.old.given }
    ensures vars { desk.new.order.vars ≡ desk.old.order.vars }
    ensures nothing_learnt { found ≡ None → log.new ≡ log.old }
{
    match found {
        Some(conflict) => meet(trail, log, desk, conflict, limit),
        None => go_on(alloc, trail, &mut desk.order),
    }
}

/// What is done at a conflict.
fn meet(
    trail: &mut Trail,
    log: &mut Log,
    desk: &mut Desk,
    conflict: Conflict,
    limit: Option<u64>,
) -> Result<Turn, AllocError>
    requires vars { desk.old.order.vars ≡ trail.old.vars }
    requires conflict { NamesConflict trail.old.rows (values_of trail.old.entries) conflict }
    requires below { IsQuietBelow trail.old.rows trail.old.entries }
    requires within { IfSome limit (λ most. length log.old ≤ most) }
    ensures turn { IfOk result (IsTurn (record {
      given = desk.old.given;
      steps = log.old;
      more = log.new;
      kept = desk.old.kept.places.items;
      now = desk.new.kept.places.items;
      room = desk.old.kept.room;
      room_now = desk.new.kept.room;
    }) trail.old trail.new limit) }
    ensures given { desk.new.given ≡ desk.old.given }
    ensures vars { desk.new.order.vars ≡ desk.old.order.vars }
{
    match last_decision(trail) {
        None => {
            refute(trail, log, desk, conflict)?;
            Ok(Turn::Refuted)
        }
        Some(start) => {
            if is_reached(limit, log.len()) {
                return Ok(Turn::Spent);
            }
            learn(trail, log, desk, conflict, start)?;
            Ok(Turn::Again)
        }
    }
}

/// Whether there are as many steps as the limit allows.
fn is_reached(limit: Option<u64>, steps: usize) -> bool
    requires { IfSome limit (λ most. steps ≤ most) }
    ensures reached { result ≡ true → limit ≡ Some steps }
    ensures early { result ≡ false → IfSome limit (λ most. steps < most) }
    ensures small { steps < 2 ^ 64 }
{
    match limit {
        Some(most) => steps as u64 == most,
        None => false,
    }
}

/// What is done where propagation stands still.
fn go_on(alloc: Global, trail: &mut Trail, order: &mut Order) -> Result<Turn, AllocError>
    requires vars { order.old.vars ≡ trail.old.vars }
    requires quiet { IsQuiet (values_of trail.old.entries) trail.old.rows }
    requires below { IsQuietBelow trail.old.rows trail.old.entries }
    ensures turn { (turned : Turned) (limit : Option ℕ) → IsLeft turned
        → IfOk result (IsTurn turned trail.old trail.new limit) }
    ensures vars { order.new.vars ≡ order.old.vars }
{
    let _len = trail.len();
    match pick(trail, order) {
        Some(lit) => {
            decide(trail, lit);
            Ok(Turn::Again)
        }
        None => {
            let values = filled(alloc, trail, order.vars)?;
            Ok(Turn::Satisfied(values))
        }
    }
}
