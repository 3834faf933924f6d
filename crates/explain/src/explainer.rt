//! The explanation of a league.
ghost use Rattle.std.specs.Prelude.{◌≡◌, ◌≤◌, true, IfOk};
ghost use Rattle.league.specs.Accepted.{IsAccepted};
ghost use Rattle.league.specs.Counts.{counts_of};
ghost use Rattle.circle_method.specs.Circle.{double_games};
ghost use Rattle.encoding.specs.Encoding.{encoding_size};
ghost use Rattle.encoding.specs.Variables.{var_count};
ghost use Rattle.solve.specs.Solutions.{RefutesLeague};
ghost use Rattle.venue_counts.specs.VenueCounts.{are_crowded, are_short};
ghost use Rattle.break_counts.specs.BreakCounts.{are_few};
ghost use Rattle.explain.specs.Conflicts.{HasConflict, HasSchedule, IsAmple, IsDecided, IsExplanation};
ghost use Rattle.explain.specs.Conflicts.{IsIrreducibleIfDecided};
ghost use Rattle.explain.specs.Standings.{said_of};
ghost use Rattle.encoding.specs.Limit.{KeepsLimit, most_terms};

use crate::attempt::{Attempt, searched};
use crate::cases::Cases;
use crate::cores::narrow;
use crate::explained::Explained;
use crate::member::{Contradiction, all_open, cases_of, numbers_of};
use crate::members::Members;
use crate::smaller::minimise;
use encoding::EncodeFault;
use league::League;
use refutation::Log;
use robin_watch::{Listener, News};
use std::alloc::{AllocError, Global};

/// Finds hard constraints that contradict each other, or a schedule that the league accepts.
///
/// The members of a conflict are found by leaving out one after another: one without which the others still contradict
/// each other is dropped, and then the members that were undecided are tried again. After each refutation those
/// constraints whose rows its log uses are searched alone, and where that is refuted too, the others are dropped. Each
/// search learns at most `conflicts` clauses, or goes on to the end; the search for patterns before it learns at most
/// as many, and at most 500. The watch may end each search, and then the members that are still to be tried stay
/// undecided.
///
/// # Errors
/// `TooLarge` exactly where the league's rows have more than 40,000,000 terms, with their number, before anything
/// else; else only where memory runs out.
pub fn explain<W: Listener>(
    alloc: Global,
    league: &League,
    conflicts: Option<u64>,
    watch: &W,
) -> Result<Explained, EncodeFault>
    ensures limit { KeepsLimit (encoding_size league.now) result }
    ensures explanation { IfOk result (IsExplanation league.now conflicts (W.may_stop watch.now)) }

    // Where each case of a conflict is a schedule, the conflict is irreducible.
    ensures irreducible { IfOk result (IsIrreducibleIfDecided league.now) }

    // Without a limit, or with an ample one, nothing is left open where nothing may stop the run.
    ensures decided { (W.may_stop watch.now → ⊥) → IsAmple (var_count league.now) conflicts
        → IfOk result IsDecided }

    // Where the league accepts the schedule of the circle method, the answer is a schedule; where its venue counts are
    // short, or crowded, or it allows its teams too few breaks, it is a conflict whatever the limit.
    ensures circle { IsAccepted league.now (counts_of (double_games league.now.n)) → IfOk result HasSchedule }
    ensures short { are_short league.now ≡ true → IfOk result HasConflict }
    ensures crowded { are_crowded league.now ≡ true → IfOk result HasConflict }
    ensures few { are_few league.now ≡ true → IfOk result HasConflict }
{
    match searched(alloc, league, conflicts, watch)? {
        Attempt::Met {
            schedule,
            objective,
        } => Ok(Explained::Met {
            schedule,
            objective,
        }),
        Attempt::Refuted(log) => Ok(conflict(alloc, league, log, conflicts, watch)?),
        Attempt::Spent(log) => Ok(Explained::Spent { log }),
    }
}

/// The conflict of a league that a log refutes. The watch hears that each hard constraint is still to be tried.
///
/// # Errors
/// Only where memory runs out.
fn conflict<W: Listener>(
    alloc: Global,
    league: &League,
    log: Log,
    conflicts: Option<u64>,
    watch: &W,
) -> Result<Explained, AllocError>
    requires small { encoding_size league.now ≤ most_terms }
    requires refuted { RefutesLeague league.now log }
    ensures explanation { IfOk result (IsExplanation league.now conflicts (W.may_stop watch.now)) }
    ensures irreducible { IfOk result (IsIrreducibleIfDecided league.now) }
    ensures decided { (W.may_stop watch.now → ⊥) → IsAmple (var_count league.now) conflicts
        → IfOk result IsDecided }
    ensures conflict { IfOk result HasConflict }
{
    let members = all_open(alloc, league)?;
    watch.tell(News::Members {
        left: members.len() as u64,
    });
    let whole = Contradiction { members, log };
    let near = narrow(alloc, league, whole, conflicts, watch)?;
    let least = minimise(alloc, league, near, conflicts, watch)?;
    said(alloc, least)
}

/// What a contradiction of closed members says, as an answer.
///
/// # Errors
/// Only where memory runs out.
fn said(alloc: Global, least: Contradiction) -> Result<Explained, AllocError>
    ensures { IfOk result (λ explained. explained ≡ said_of least) }
{
    let Contradiction { members, log } = least;
    let numbers = numbers_of(alloc, &members)?;
    let cases = cases_of(alloc, members)?;
    Ok(Explained::Conflict {
        members: Members { numbers },
        log,
        cases: Cases { cases },
    })
}
