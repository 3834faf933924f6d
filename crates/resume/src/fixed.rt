//! A league in which the games of some slots are asked for.
ghost use Rattle.std.specs.Prelude.{◌≡◌, ◌<◌, ◌≤◌, [], true, length, IfOk, IfSome, OnOk};
ghost use Rattle.resume.specs.Fixed.{AreConstraints};

use league::{Class, Constraint, League, PairSet, Schedule, SlotId, SlotSet, slot_count};
use std::alloc::{AllocError, Global};

/// The most constraints of a league.
const MOST_CONSTRAINTS: usize = 20_000;

/// What a game of the old plan costs that isn't played (own choice): more than games are worth in most leagues.
const CHANGE_PENALTY: u32 = 1000;

/// A league with a constraint more for each slot, which asks for just the games that a schedule has there: a soft one in
/// the free slots, and a hard one in the others; none where it would have too many constraints.
///
/// # Errors
/// Only where memory runs out.
pub(crate) fn near_league(
    alloc: Global,
    league: &League,
    games: &Schedule,
    free: &SlotSet,
) -> Result<Option<League>, AllocError>
    ensures teams { IfOk result (λ made. IfSome made (λ near. near.n ≡ league.now.n)) }
    ensures phases { IfOk result (λ made. IfSome made (λ near. near.phased ≡ league.now.phased)) }
{
    let mut constraints = Vec::new(alloc);
    copy_all(&mut constraints, league)?;
    if !add_asked(alloc, &mut constraints, league.n(), games, free)? {
        return Ok(None);
    }
    Ok(Some(League::new(league.n(), league.phased(), constraints)))
}

/// Adds copies of the constraints of a league.
///
/// # Errors
/// Only where memory runs out.
fn copy_all(constraints: &mut Vec<Constraint>, league: &League) -> Result<(), AllocError>
    requires { constraints.old.items ≡ [] }
    ensures { OnOk result (AreConstraints league.now.n constraints.new.items) }
{
    // For its contract: a league's constraints are few, and fit it.
    let _n = league.n();
    for constraint in league.constraints() {
        constraints.push(constraint.copy()?)?;
    }
    Ok(())
}

/// Adds for each slot the constraint that asks for just the games that a schedule has there, where all of these fit a
/// league of n teams and there is room for them, and says whether that is so.
///
/// # Errors
/// Only where memory runs out.
fn add_asked(
    alloc: Global,
    constraints: &mut Vec<Constraint>,
    n: u16,
    games: &Schedule,
    free: &SlotSet,
) -> Result<bool, AllocError>
    requires teams { n ≤ 40 }
    requires before { AreConstraints n constraints.old.items }
    ensures { IfOk result (λ added. added ≡ true → AreConstraints n constraints.new.items) }
{
    for slot in 0..slot_count(n) {
        if constraints.len() >= MOST_CONSTRAINTS {
            return Ok(false);
        }
        let ask = asked(alloc, games, slot, !free.contains(SlotId(slot)))?;
        if !add(constraints, n, ask)? {
            return Ok(false);
        }
    }
    Ok(true)
}

/// Adds a constraint, and says whether it fits a league of n teams.
///
/// # Errors
/// Only where memory runs out.
fn add(
    constraints: &mut Vec<Constraint>,
    n: u16,
    constraint: Constraint,
) -> Result<bool, AllocError>
    requires before { AreConstraints n constraints.old.items }
    requires room { length constraints.old.items < 20000 }
    ensures { IfOk result (λ fits. fits ≡ true → AreConstraints n constraints.new.items) }
{
    let fits = constraint.fits(n);
    constraints.push(constraint)?;
    Ok(fits)
}

/// The constraint that asks for just the games that a schedule has in a slot, hard or soft.
///
/// # Errors
/// Only where memory runs out.
fn asked(alloc: Global, games: &Schedule, slot: u16, hard: bool) -> Result<Constraint, AllocError> {
    let mut meetings = PairSet::new(alloc);
    for game in games.games() {
        if game.slot.0 == slot {
            let _new = meetings.insert((game.home, game.away))?;
        }
    }
    let mut slots = SlotSet::new(alloc);
    let _new = slots.insert(SlotId(slot))?;
    let count = u32::try_from(meetings.len()).unwrap_or(u32::MAX);
    Ok(Constraint {
        hard,
        penalty: if hard { 1 } else { CHANGE_PENALTY },
        class: Class::Ga1 {
            meetings,
            min: count,
            max: count,
            slots,
        },
    })
}
