//! The repair of an old plan: few of its slots are freed, and the others keep their games.
ghost use Rattle.std.specs.Prelude.{◌≡◌, ◌≤◌, length, IfOk, IfSome};
ghost use Rattle.std.specs.List.{All};
ghost use Rattle.league.specs.Counts.{counts_of};
ghost use Rattle.league.specs.Instance.{IsGame};
ghost use Rattle.league.specs.Structure.{IsRoundRobin};
ghost use Rattle.resume.specs.Answers.{IsResumedSeason};

use crate::freed::freed_season;
use crate::judged::Season;
use crate::near::PartSeason;
use deviation::{Vectors, assess, total};
use encoding::check_size;
use league::{Class, Constraint, League, SlotId, SlotSet};
use robin_watch::{Budgets, News, Phase, Watch};
use std::alloc::{AllocError, Global};

/// How often a repair searches at most (own choice).
const MOST_SEARCHES: u64 = 12;

/// How many clauses each search of a repair may learn (own choice).
const MOST_CONFLICTS: u64 = 2000;

/// The most terms of the rows of a league that is repaired (own choice): each search writes these rows again.
const MOST_TERMS: u64 = 2_000_000;

/// How many more slots each search of a repair frees (own choice).
const STEP: usize = 2;

/// A season that the league accepts and that keeps the played games, where a repair finds one: a large neighbourhood
/// search, that is a search by clauses over the rows of a league in which most slots keep the games of the old plan. It
/// frees the slots from slot k on that are named by hard constraints which the old plan misses, then two more, and so on
/// until a season is found, no slot is left, or the watch ends it. A large league isn't repaired.
///
/// # Errors
/// Only where memory runs out.
pub(crate) fn repaired_season<W: Watch>(
    alloc: Global,
    season: PartSeason<'_>,
    budgets: Budgets,
    watch: &W,
) -> Result<Option<Season>, AllocError>
    requires few { length season.played.now ≤ 10000 }
    requires fit { All (IsGame season.league.now.n) season.played.now }
    requires round_robin { IsRoundRobin season.league.now.n season.league.now.phased (counts_of season.played.now) }
    ensures { IfOk result (λ found. IfSome found (λ repaired. IsResumedSeason season.entry.league.now
        season.entry.played.now season.entry.k repaired.schedule repaired.objective)) }
{
    if !is_small(season.league) {
        return Ok(None);
    }
    let mut free = SlotSet::new(alloc);
    free_missed(alloc, season, &mut free)?;
    searched(alloc, season, &mut free, short(budgets), watch)
}

/// A season that the league accepts and that keeps the played games, where a search finds one with few slots free, or
/// with more of them.
///
/// # Errors
/// Only where memory runs out.
fn searched<W: Watch>(
    alloc: Global,
    season: PartSeason<'_>,
    free: &mut SlotSet,
    budgets: Budgets,
    watch: &W,
) -> Result<Option<Season>, AllocError>
    requires few { length season.played.now ≤ 10000 }
    requires fit { All (IsGame season.league.now.n) season.played.now }
    requires round_robin { IsRoundRobin season.league.now.n season.league.now.phased (counts_of season.played.now) }
    ensures { IfOk result (λ found. IfSome found (λ repaired. IsResumedSeason season.entry.league.now
        season.entry.played.now season.entry.k repaired.schedule repaired.objective)) }
{
    for searches in 0..MOST_SEARCHES {
        if watch.is_over_now(searches) {
            return Ok(None);
        }
        watch.tell(News::Phase(Phase::Search));
        if let Some(found) = freed_season(alloc, season, free, budgets, watch)? {
            return Ok(Some(found));
        }
        if !free_more(alloc, season, free)? {
            return Ok(None);
        }
    }
    Ok(None)
}

/// Whether the rows of a league have few enough terms.
fn is_small(league: &League) -> bool {
    match check_size(league) {
        Ok(terms) => terms <= MOST_TERMS,
        Err(_) => false,
    }
}

/// The budgets of one search of a repair, of those of the run: it doesn't walk, and learns few clauses.
fn short(budgets: Budgets) -> Budgets {
    let conflicts = budgets.conflicts.unwrap_or(MOST_CONFLICTS);
    Budgets {
        conflicts: Some(conflicts.min(MOST_CONFLICTS)),
        moves: 0,
        tries: 1,
        patterns: 0,
        seed: budgets.seed,
    }
}

/// Frees the slots that a repair frees first: those from slot k on that are named by hard constraints which the old plan
/// misses, or where there is none slot k.
///
/// # Errors
/// Only where memory runs out.
fn free_missed(alloc: Global, season: PartSeason<'_>, free: &mut SlotSet) -> Result<(), AllocError>
    requires few { length season.played.now ≤ 10000 }
    requires fit { All (IsGame season.league.now.n) season.played.now }
{
    let assessment = assess(alloc, season.league, season.played)?;
    let constraints = season.league.constraints();
    add_missed(free, constraints, &assessment.vectors, season.k)?;
    if free.is_empty() {
        let _new = free.insert(SlotId(season.k))?;
    }
    Ok(())
}

/// Adds the slots from slot k on that are named by the hard constraints which their vectors say are missed.
///
/// # Errors
/// Only where memory runs out.
fn add_missed(
    free: &mut SlotSet,
    constraints: &[Constraint],
    vectors: &Vectors,
    k: u16,
) -> Result<(), AllocError>
    requires { length vectors.now ≡ length constraints.now }
{
    for (place, constraint) in constraints.iter().enumerate() {
        if constraint.hard && total(vectors.vector(place)) > 0 {
            add_from(free, named_slots(&constraint.class), k)?;
        }
    }
    Ok(())
}

/// The slots that a class names: none of one that speaks of the whole season.
fn named_slots(class: &Class) -> &[u16] {
    match class {
        Class::Ca1 { slots, .. }
        | Class::Ca2 { slots, .. }
        | Class::Ca4 { slots, .. }
        | Class::Ga1 { slots, .. }
        | Class::Br1 { slots, .. }
        | Class::Br2 { slots, .. }
        | Class::Fa2 { slots, .. } => slots.numbers(),
        Class::Ca3 { .. } | Class::Se1 { .. } => &[],
    }
}

/// Adds the ones of some slots that aren't before slot k.
///
/// # Errors
/// Only where memory runs out.
fn add_from(free: &mut SlotSet, slots: &[u16], k: u16) -> Result<(), AllocError> {
    for slot in slots {
        if *slot >= k {
            let _new = free.insert(SlotId(*slot))?;
        }
    }
    Ok(())
}

/// Frees the slots that a repair frees next, and says whether there is one: the lowest ones from slot k on that are next
/// to free ones, and then the lowest ones that aren't free.
///
/// # Errors
/// Only where memory runs out.
fn free_more(
    alloc: Global,
    season: PartSeason<'_>,
    free: &mut SlotSet,
) -> Result<bool, AllocError> {
    let mut next = SlotSet::new(alloc);
    choose_next(season, free, &mut next)?;
    add_from(free, next.numbers(), season.k)?;
    Ok(!next.is_empty())
}

/// Chooses the slots that a repair frees next.
///
/// # Errors
/// Only where memory runs out.
fn choose_next(
    season: PartSeason<'_>,
    free: &SlotSet,
    next: &mut SlotSet,
) -> Result<(), AllocError> {
    for slot in season.k..season.league.slots() {
        if is_beside(free, slot) {
            add_shut(next, free, slot)?;
        }
    }
    for slot in season.k..season.league.slots() {
        add_shut(next, free, slot)?;
    }
    Ok(())
}

/// Whether the slot before or behind a slot is free.
fn is_beside(free: &SlotSet, slot: u16) -> bool {
    free.contains(SlotId(slot.saturating_sub(1))) || free.contains(SlotId(slot.saturating_add(1)))
}

/// Adds a slot to those that are freed next, where it isn't free and they aren't enough.
///
/// # Errors
/// Only where memory runs out.
fn add_shut(next: &mut SlotSet, free: &SlotSet, slot: u16) -> Result<(), AllocError> {
    if next.len() < STEP && !free.contains(SlotId(slot)) {
        let _new = next.insert(SlotId(slot))?;
    }
    Ok(())
}
