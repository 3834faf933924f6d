//! A contradiction made smaller at one go: the constraints whose rows its log uses, if they contradict each other too.
//! Zhang and Malik (2003) search a core of clauses again in this way.
ghost use Rattle.std.specs.Prelude.{◌≡◌, ◌<◌, ◌≤◌, length, IfOk, IfSome};
ghost use Rattle.league.specs.Sets.{is_in};
ghost use Rattle.explain.specs.Standings.{IsExplained, kept};
ghost use Rattle.explain.specs.Cores.{IsCore};

use crate::attempt::{Attempt, try_part};
use crate::member::{Contradiction, listed_members, listed_numbers, numbers_of};
use crate::names::named;
use league::League;
use refutation::Log;
use robin_watch::Listener;
use std::alloc::{AllocError, Global};

/// Which of the members of a contradiction a log names, and a log of their own that refutes these.
#[derive(Drop)]
pub(crate) struct Core {
    pub(crate) named: Vec<u32>,
    pub(crate) log: Log,
}

/// A contradiction of no more members, each of which the log of the last one names, as far as a search over these alone
/// refutes them, and until the watch ends the run.
///
/// # Errors
/// Only where memory runs out.
pub(crate) fn narrow<W: Listener>(
    alloc: Global,
    league: &League,
    contradiction: Contradiction,
    conflicts: Option<u64>,
    watch: &W,
) -> Result<Contradiction, AllocError>
    requires explained { IsExplained league.now conflicts (W.may_stop watch.now) contradiction.members.items
        contradiction.log }
    ensures explained { IfOk result (λ smaller. IsExplained league.now conflicts (W.may_stop watch.now)
        smaller.members.items smaller.log) }
    ensures no_longer { IfOk result (λ smaller.
        length smaller.members.items ≤ length contradiction.members.items) }
{
    let mut least = contradiction;
    'cores: while let Some(core) = core_of(alloc, league, &least, conflicts, watch)? {
        least = reduced(alloc, least, core)?;
    }
    Ok(least)
}

/// The members that the log of a contradiction names, where they are fewer and a search over these alone refutes them.
/// Where the run is to end nothing is searched.
///
/// # Errors
/// Only where memory runs out.
fn core_of<W: Listener>(
    alloc: Global,
    league: &League,
    contradiction: &Contradiction,
    conflicts: Option<u64>,
    watch: &W,
) -> Result<Option<Core>, AllocError>
    requires { IsExplained league.now conflicts (W.may_stop watch.now) contradiction.now.members.items
        contradiction.now.log }
    ensures { IfOk result (λ found. IfSome found (IsCore league.now contradiction.now.members.items)) }
{
    if watch.is_over_now(0) {
        return Ok(None);
    }
    let numbers = numbers_of(alloc, &contradiction.members)?;
    let named = named(alloc, league, &numbers, &contradiction.log)?;
    let listed = listed_numbers(alloc, &contradiction.members, &named)?;
    if listed.len() >= numbers.len() {
        return Ok(None);
    }
    match try_part(alloc, league, &listed, conflicts, watch)? {
        Attempt::Refuted(log) => Ok(Some(Core { named, log })),
        _ => Ok(None),
    }
}

/// The contradiction of these members.
///
/// # Errors
/// Only where memory runs out.
fn reduced(
    alloc: Global,
    contradiction: Contradiction,
    core: Core,
) -> Result<Contradiction, AllocError>
    ensures members { IfOk result (λ smaller.
        smaller.members.items ≡ kept (λ k. is_in k core.named.items) contradiction.members.items) }
    ensures log { IfOk result (λ smaller. smaller.log ≡ core.log) }
{
    let Contradiction { members, log: _log } = contradiction;
    let members = listed_members(alloc, members, &core.named)?;
    Ok(Contradiction {
        members,
        log: core.log,
    })
}
