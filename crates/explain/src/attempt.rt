//! One try: a league, or that of some hard constraints alone, is solved. Nothing else of the crate knows of the solver.
ghost use Rattle.std.specs.Prelude.{◌≡◌, ◌≤◌, true, IfOk};
ghost use Rattle.std.specs.List.{All};
ghost use Rattle.std.specs.Ordering.{nat_cmp};
ghost use Rattle.league.specs.Accepted.{IsAccepted};
ghost use Rattle.league.specs.Counts.{counts_of};
ghost use Rattle.league.specs.Sets.{IsAscending};
ghost use Rattle.circle_method.specs.Circle.{double_games};
ghost use Rattle.encoding.specs.Encoding.{encoding_size};
ghost use Rattle.explain.specs.Parts.{is_hard_number, part_of};
ghost use Rattle.venue_counts.specs.VenueCounts.{are_crowded, are_short};
ghost use Rattle.break_counts.specs.BreakCounts.{are_few};
ghost use Rattle.explain.specs.Attempts.{IsAttempt, IsMet, IsRefuted};
ghost use Rattle.encoding.specs.Limit.{KeepsLimit, most_terms};

use crate::{PartFault, part};
use encoding::EncodeFault;
use league::{League, Schedule};
use refutation::Log;
use robin_watch::{Budgets, Listener};
use solve::{Solved, solve};
use std::alloc::{AllocError, Global};

/// What a try came to.
#[derive(Drop)]
pub(crate) enum Attempt {
    /// A schedule that the league accepts, in order, with its objective.
    Met { schedule: Schedule, objective: u128 },
    /// A log that refutes the league.
    Refuted(Log),
    /// A log that is spent over its rows.
    Spent(Log),
}

/// How many clauses a search for patterns learns at most.
const MOST_FOR_PATTERNS: u64 = 500;

/// What a try may do: one search, which learns at most so many clauses, and before it a search for patterns, which
/// learns at most as many, and at most 500; no move.
fn budgets_of(conflicts: Option<u64>) -> Budgets
    ensures conflicts { result.conflicts ≡ conflicts }
    ensures moves { result.moves ≡ 0 }
{
    let patterns = match conflicts {
        Some(limit) => limit.min(MOST_FOR_PATTERNS),
        None => MOST_FOR_PATTERNS,
    };
    Budgets {
        conflicts,
        moves: 0,
        tries: 1,
        patterns,
        seed: 0,
    }
}

/// What is found of a league. The watch may end the search.
///
/// # Errors
/// `TooLarge` exactly where its rows have more than 40,000,000 terms, with their number; else only where memory runs
/// out.
pub(crate) fn searched<W: Listener>(
    alloc: Global,
    league: &League,
    conflicts: Option<u64>,
    watch: &W,
) -> Result<Attempt, EncodeFault>
    ensures limit { KeepsLimit (encoding_size league.now) result }
    ensures attempt { IfOk result (IsAttempt league.now conflicts (W.may_stop watch.now)) }
    ensures circle { IsAccepted league.now (counts_of (double_games league.now.n)) → IfOk result IsMet }
    ensures short { are_short league.now ≡ true → IfOk result IsRefuted }
    ensures crowded { are_crowded league.now ≡ true → IfOk result IsRefuted }
    ensures few { are_few league.now ≡ true → IfOk result IsRefuted }
{
    match solve(alloc, league, budgets_of(conflicts), watch)? {
        Solved::Schedule {
            schedule,
            objective,
            descent: _descent,
        } => Ok(Attempt::Met {
            schedule,
            objective,
        }),
        Solved::Refuted(log) => Ok(Attempt::Refuted(log)),
        Solved::Spent {
            log,
            patterns: _patterns,
        } => Ok(Attempt::Spent(log)),
    }
}

/// The league of some hard constraints.
///
/// # Errors
/// Only where memory runs out.
pub(crate) fn known_part(
    alloc: Global,
    league: &League,
    members: &[u32],
) -> Result<League, AllocError>
    requires ascending { IsAscending nat_cmp members.now }
    requires hard { All (λ k. is_hard_number league.now.constraints k ≡ true) members.now }
    ensures { IfOk result (λ part. part ≡ part_of league.now members.now) }
{
    match part(alloc, league, members) {
        Ok(part) => Ok(part),
        Err(PartFault::UnknownConstraint { .. }) => unreachable!(),
        Err(PartFault::Mem) => Err(AllocError),
    }
}

/// What is found of the league of some hard constraints, whose rows aren't too many. The watch may end the search.
///
/// # Errors
/// Only where memory runs out.
pub(crate) fn try_part<W: Listener>(
    alloc: Global,
    league: &League,
    members: &[u32],
    conflicts: Option<u64>,
    watch: &W,
) -> Result<Attempt, AllocError>
    requires ascending { IsAscending nat_cmp members.now }
    requires hard { All (λ k. is_hard_number league.now.constraints k ≡ true) members.now }
    requires small { encoding_size (part_of league.now members.now) ≤ most_terms }
    ensures { IfOk result (IsAttempt (part_of league.now members.now) conflicts (W.may_stop watch.now)) }
{
    let part = known_part(alloc, league, members)?;
    match searched(alloc, &part, conflicts, watch) {
        Ok(attempt) => Ok(attempt),
        Err(EncodeFault::TooLarge { .. }) => unreachable!(),
        Err(EncodeFault::Mem) => Err(AllocError),
    }
}
