//! A contradiction made as small as tries show it. Its members are left out one after another: the deletion filter
//! (Chinneck and Dravnieks 1991).
ghost use Rattle.std.specs.Prelude.{◌≡◌, ◌==◌, ◌<◌, not, IfOk};
ghost use Rattle.explain.specs.Parts.{part_of, without};
ghost use Rattle.explain.specs.Attempts.{IsAttempt};
ghost use Rattle.explain.specs.Standings.{AreClosed, IsExplained, IsOpenAt, kept, numbers_of, work};

use crate::attempt::{Attempt, try_part};
use crate::cases::Case;
use crate::cores::narrow;
use crate::member::{Contradiction, first_open, open_count, others, settle, shrunk};
use league::League;
use refutation::Log;
use robin_watch::{Listener, News};
use std::alloc::{AllocError, Global};

/// A contradiction of which each member was tried: without it there is a schedule, or a search was spent, or the watch
/// ended the run before it was tried.
///
/// # Errors
/// Only where memory runs out.
pub(crate) fn minimise<W: Listener>(
    alloc: Global,
    league: &League,
    contradiction: Contradiction,
    conflicts: Option<u64>,
    watch: &W,
) -> Result<Contradiction, AllocError>
    requires explained { IsExplained league.now conflicts (W.may_stop watch.now) contradiction.members.items
        contradiction.log }
    ensures explained { IfOk result (λ least. IsExplained league.now conflicts (W.may_stop watch.now)
        least.members.items least.log) }
    ensures closed { IfOk result (λ least. AreClosed least.members.items) }
{
    let mut least = contradiction;
    'tries: while let Some(place) = first_open(&least.members) {
        least = tried(alloc, league, least, place, conflicts, watch)?;
    }
    Ok(least)
}

/// What is known after a try of the open member at a place: there is less to do. The watch hears how many members are
/// still to be tried. Where the run is to end the member is left undecided, with a log of no step.
///
/// # Errors
/// Only where memory runs out.
fn tried<W: Listener>(
    alloc: Global,
    league: &League,
    contradiction: Contradiction,
    place: usize,
    conflicts: Option<u64>,
    watch: &W,
) -> Result<Contradiction, AllocError>
    requires explained { IsExplained league.now conflicts (W.may_stop watch.now) contradiction.members.items
        contradiction.log }
    requires untried { IsOpenAt contradiction.members.items place }
    ensures explained { IfOk result (λ later. IsExplained league.now conflicts (W.may_stop watch.now)
        later.members.items later.log) }
    ensures less { IfOk result (λ later. work later.members.items < work contradiction.members.items) }
{
    let number = contradiction.members[place].number;
    if watch.is_over_now(place as u64) {
        let log = Log::new(alloc);
        return Ok(settle(contradiction, place, number, Case::Undecided { log }));
    }
    let left = open_count(&contradiction.members);
    watch.tell(News::Members { left });
    match try_without(alloc, league, &contradiction, number, conflicts, watch)? {
        Attempt::Met {
            schedule,
            objective: _objective,
        } => Ok(settle(contradiction, place, number, Case::Without { schedule })),
        Attempt::Spent(log) => Ok(settle(contradiction, place, number, Case::Undecided { log })),
        Attempt::Refuted(log) => {
            let smaller = dropped(alloc, contradiction, number, log)?;
            narrow(alloc, league, smaller, conflicts, watch)
        }
    }
}

/// What is found of the league of the other members alone. The watch may end the search.
///
/// # Errors
/// Only where memory runs out.
fn try_without<W: Listener>(
    alloc: Global,
    league: &League,
    contradiction: &Contradiction,
    number: u32,
    conflicts: Option<u64>,
    watch: &W,
) -> Result<Attempt, AllocError>
    requires { IsExplained league.now conflicts (W.may_stop watch.now) contradiction.now.members.items
        contradiction.now.log }
    ensures { IfOk result (IsAttempt (part_of league.now (without number (numbers_of contradiction.now.members.items)))
        conflicts (W.may_stop watch.now)) }
{
    let others = others(alloc, &contradiction.members, number)?;
    try_part(alloc, league, &others, conflicts, watch)
}

/// The contradiction of the other members alone, with a log that refutes these.
///
/// # Errors
/// Only where memory runs out.
fn dropped(
    alloc: Global,
    contradiction: Contradiction,
    number: u32,
    log: Log,
) -> Result<Contradiction, AllocError>
    ensures members { IfOk result (λ smaller.
        smaller.members.items ≡ kept (λ k. not (k == number)) contradiction.members.items) }
    ensures log { IfOk result (λ smaller. smaller.log ≡ log) }
{
    let Contradiction { members, log: _log } = contradiction;
    let members = shrunk(alloc, members, number)?;
    Ok(Contradiction { members, log })
}
