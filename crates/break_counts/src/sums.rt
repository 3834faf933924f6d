//! Bounds of breaks that are added up: hard constraints BR1 and BR2 that count, one beside another, each break of some
//! teams.
ghost use Rattle.std.specs.Prelude.{◌≡◌, ◌+◌, ◌≤◌, true, length, IfOk, IfSome, IsTrue};
ghost use Rattle.std.specs.List.{All};
ghost use Rattle.league.specs.Instance.{IsInstance};
ghost use Rattle.break_counts.specs.Sums.{are_few_together, is_few_together};
ghost use Rattle.break_counts.specs.Tables.{AreInSeason};

use crate::allowed::allowed_of;
use crate::cover::has;
use crate::stretch::{Stretch, copy_of};
use crate::together::{Summand, allowed_together, counted_teams};
use league::{Class, League, Side, slot_count};
use std::alloc::{AllocError, Global};

/// A bound that may be added up. Of the slots at which a break counts it counts those of these bits.
#[derive(Clone, Copy)]
struct Candidate {
    summand: Summand,
    together: bool,
    slots: u128,
    intp: u32,
}

impl Candidate {
    /// Whether it counts breaks of a team.
    fn counts(self, league: &League, team: u16) -> bool {
        if !self.together {
            return self.summand.team == team;
        }
        match league.constraints().get(self.summand.place) {
            Some(constraint) => has(teams_of(&constraint.class), team),
            None => false,
        }
    }
}

/// Stretches in which bounds allow too few breaks together, and the teams of which they count each break.
#[derive(Drop)]
pub(crate) struct Sum {
    pub(crate) stretches: Vec<Stretch>,
    pub(crate) summands: Vec<Summand>,
    pub(crate) counted: Vec<u16>,
}

/// Bounds that allow too few breaks together, where such are found.
///
/// # Errors
/// Only where memory runs out.
pub(crate) fn find_sum(alloc: Global, league: &League) -> Result<Option<Sum>, AllocError>
    ensures few { IfOk result (λ found. IfSome found (λ s. are_few_together league.now s.summands.items ≡ true)) }
    ensures stretches { IfOk result (λ found. IfSome found (λ s. AreInSeason league.now.n s.stretches.items)) }
    ensures instance { IsInstance league.now }
{
    let n = league.n();
    if !league.phased() {
        let season = Stretch {
            first: 0,
            count: slot_count(n),
        };
        return sum_in(alloc, league, &[season]);
    }
    let first = Stretch {
        first: 0,
        count: n - 1,
    };
    let second = Stretch {
        first: n - 1,
        count: n - 1,
    };
    match sum_in(alloc, league, &[first])? {
        Some(found) => Ok(Some(found)),
        None => match sum_in(alloc, league, &[second])? {
            Some(found) => Ok(Some(found)),
            None => sum_in(alloc, league, &[first, second]),
        },
    }
}

/// Bounds that allow too few breaks together in these stretches, where such are found.
///
/// # Errors
/// Only where memory runs out.
fn sum_in(alloc: Global, league: &League, stretches: &[Stretch]) -> Result<Option<Sum>, AllocError>
    requires few { length stretches.now ≤ 2 }
    requires within { All (λ t. t.first + t.count ≤ 78) stretches.now }
    requires season { AreInSeason league.now.n stretches.now }
    ensures few { IfOk result (λ found. IfSome found (λ s.
        is_few_together league.now.n league.now.constraints s.summands.items stretches.now ≡ true)) }
    ensures stretches { IfOk result (λ found. IfSome found (λ s. AreInSeason league.now.n s.stretches.items)) }
{
    let summands = chosen(alloc, league, later_bits(stretches))?;
    if !allow_few(alloc, league, &summands, stretches)? {
        return Ok(None);
    }
    Ok(Some(Sum {
        stretches: copy_of(alloc, stretches)?,
        counted: counted_teams(alloc, league, &summands, stretches)?,
        summands,
    }))
}

/// Whether there are such bounds, and they allow too few breaks together in these stretches.
///
/// # Errors
/// Only where memory runs out.
fn allow_few(
    alloc: Global,
    league: &League,
    summands: &[Summand],
    stretches: &[Stretch],
) -> Result<bool, AllocError>
    requires few { length stretches.now ≤ 2 }
    requires within { All (λ t. t.first + t.count ≤ 78) stretches.now }
    ensures { IfOk result (λ few. IsTrue few →
        is_few_together league.now.n league.now.constraints summands.now stretches.now ≡ true) }
{
    if summands.is_empty() {
        return Ok(false);
    }
    let allowed = allowed_of(alloc, league, stretches)?;
    let needed = stretches.len() as u64 * u64::from(league.n() - 2);
    Ok(allowed_together(league, summands, stretches, &allowed) < needed)
}

/// Bounds that may allow too few breaks together at slots of these bits: first those that allow least for each break
/// that they count, no two of which count the same break. Those that are left count a break of a team each of whose
/// breaks is counted.
///
/// # Errors
/// Only where memory runs out.
fn chosen(alloc: Global, league: &League, later: u128) -> Result<Vec<Summand>, AllocError> {
    let all = all_candidates(alloc, league, later)?;
    let taken = apart(alloc, league, &all)?;
    needed_of(alloc, league, &taken, later)
}

/// The bounds of hard constraints that count breaks at slots of these bits.
///
/// # Errors
/// Only where memory runs out.
fn all_candidates(
    alloc: Global,
    league: &League,
    later: u128,
) -> Result<Vec<Candidate>, AllocError> {
    let mut found = Vec::new(alloc);
    let constraints = league.constraints();
    for place in 0..constraints.len() {
        let constraint = &constraints[place];
        if constraint.hard {
            add_candidates(&mut found, &constraint.class, place, later)?;
        }
    }
    Ok(found)
}

/// Adds the bounds of a class that count breaks at slots of these bits.
///
/// # Errors
/// Only where memory runs out.
fn add_candidates(
    found: &mut Vec<Candidate>,
    class: &Class,
    place: usize,
    later: u128,
) -> Result<(), AllocError> {
    let Some(bound) = bound_of(class) else {
        return Ok(());
    };
    let slots = bits_of(bound.slots) & later;
    if slots == 0 {
        return Ok(());
    }
    for team in bound.named {
        found.push(Candidate {
            summand: Summand { place, team: *team },
            together: bound.together,
            slots,
            intp: bound.intp,
        })?;
    }
    Ok(())
}

/// A bound of breaks of both sides at some slots: of each of the teams that are named by itself, or of all teams of its
/// class together, where only team 0 is named.
#[derive(Clone, Copy)]
struct Bound<'a> {
    named: &'a [u16],
    together: bool,
    slots: &'a [u16],
    intp: u32,
}

/// The bound of a BR1 of both sides, or of a BR2.
fn bound_of(class: &Class) -> Option<Bound<'_>> {
    match class {
        Class::Br1 {
            teams,
            intp,
            side: Side::Both,
            slots,
        } => Some(Bound {
            named: teams.numbers(),
            together: false,
            slots: slots.numbers(),
            intp: *intp,
        }),
        Class::Br2 {
            teams: _,
            intp,
            slots,
        } => Some(Bound {
            named: &[0],
            together: true,
            slots: slots.numbers(),
            intp: *intp,
        }),
        _ => None,
    }
}

/// Bounds of which no two count the same break, and the slots of the breaks that they count, team by team.
#[derive(Drop)]
struct Taken {
    candidates: Vec<Candidate>,
    counted: Vec<u128>,
}

impl Taken {
    /// Takes a bound, unless it counts a break that is counted so far.
    ///
    /// # Errors
    /// Only where memory runs out.
    fn take(
        &mut self,
        alloc: Global,
        league: &League,
        candidate: Candidate,
    ) -> Result<(), AllocError> {
        if is_apart(league, &self.counted, candidate) {
            self.counted = marked(alloc, league, &self.counted, candidate)?;
            self.candidates.push(candidate)?;
        }
        Ok(())
    }
}

/// Bounds of which no two count the same break: those that allow least for each break that they count come first.
///
/// # Errors
/// Only where memory runs out.
fn apart(alloc: Global, league: &League, all: &[Candidate]) -> Result<Taken, AllocError> {
    let order = order_of(alloc, league, all)?;
    let mut taken = Taken {
        candidates: Vec::new(alloc),
        counted: Vec::new(alloc),
    };
    for ranked in &order {
        if let Some(candidate) = all.get(ranked.1) {
            taken.take(alloc, league, *candidate)?;
        }
    }
    Ok(taken)
}

/// How much each bound allows for each break that it counts, and its place, in ascending order.
///
/// # Errors
/// Only where memory runs out.
fn order_of(
    alloc: Global,
    league: &League,
    all: &[Candidate],
) -> Result<Vec<(u64, usize)>, AllocError> {
    let mut order = Vec::with_capacity(alloc, all.len())?;
    for k in 0..all.len() {
        order.push((share(league, all[k]), k))?;
    }
    order.sort_unstable();
    Ok(order)
}

/// How much a bound allows for each break that it counts, in parts of 2^20.
fn share(league: &League, candidate: Candidate) -> u64 {
    let mut teams = 0u64;
    for team in 0..league.n() {
        if candidate.counts(league, team) {
            teams = teams.saturating_add(1);
        }
    }
    let breaks = teams.saturating_mul(u64::from(candidate.slots.count_ones()));
    (u64::from(candidate.intp) << 20) / breaks.max(1)
}

/// Whether a bound counts no break that is counted so far.
fn is_apart(league: &League, counted: &[u128], candidate: Candidate) -> bool {
    for team in 0..league.n() {
        if candidate.slots & slots_of(counted, team) != 0 && candidate.counts(league, team) {
            return false;
        }
    }
    true
}

/// The slots of the breaks that are counted, team by team, with those that a further bound counts.
///
/// # Errors
/// Only where memory runs out.
fn marked(
    alloc: Global,
    league: &League,
    counted: &[u128],
    candidate: Candidate,
) -> Result<Vec<u128>, AllocError> {
    let mut marked = Vec::new(alloc);
    for team in 0..league.n() {
        let slots = slots_of(counted, team);
        if candidate.counts(league, team) {
            marked.push(slots | candidate.slots)?;
        } else {
            marked.push(slots)?;
        }
    }
    Ok(marked)
}

/// The slots of a team's breaks that are counted.
fn slots_of(counted: &[u128], team: u16) -> u128 {
    match counted.get(usize::from(team)) {
        Some(slots) => *slots,
        None => 0,
    }
}

/// The bounds that count a break of a team each of whose breaks at slots of these bits is counted.
///
/// # Errors
/// Only where memory runs out.
fn needed_of(
    alloc: Global,
    league: &League,
    taken: &Taken,
    later: u128,
) -> Result<Vec<Summand>, AllocError> {
    let mut needed = Vec::new(alloc);
    for candidate in &taken.candidates {
        if counts_some(league, *candidate, &taken.counted, later) {
            needed.push(candidate.summand)?;
        }
    }
    Ok(needed)
}

/// Whether a bound counts a break of a team each of whose breaks at slots of these bits is counted.
fn counts_some(league: &League, candidate: Candidate, counted: &[u128], later: u128) -> bool {
    for team in 0..league.n() {
        if slots_of(counted, team) == later && candidate.counts(league, team) {
            return true;
        }
    }
    false
}

/// The teams of a BR2.
fn teams_of(class: &Class) -> &[u16] {
    match class {
        Class::Br2 {
            teams,
            intp: _,
            slots: _,
        } => teams.numbers(),
        _ => &[],
    }
}

/// The bits of some slots.
fn bits_of(slots: &[u16]) -> u128 {
    let mut bits = 0u128;
    for slot in slots {
        if *slot < 128 {
            bits |= 1u128 << u32::from(*slot);
        }
    }
    bits
}

/// The bits of the slots of stretches at which a break counts.
fn later_bits(stretches: &[Stretch]) -> u128
    requires { All (λ t. t.first + t.count ≤ 78) stretches.now }
{
    let mut bits = 0u128;
    for stretch in stretches {
        for distance in 1..stretch.count {
            bits |= 1u128 << u32::from(stretch.first + distance);
        }
    }
    bits
}
