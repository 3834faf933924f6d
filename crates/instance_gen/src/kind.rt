//! The constraints that are made of draws, kind by kind.
//!
//! Each draws all its words first, in the order in which its parts stand, and then makes its sets.
ghost use Rattle.std.specs.Prelude.{◌≡◌, IfOk};
ghost use Rattle.instance_gen.specs.Draws.{after};
ghost use Rattle.instance_gen.specs.Kinds.{made_of, words_of};
ghost use Rattle.instance_gen.specs.Made.{made_ca1, made_ca2, made_ca4, made_ga1, made_br1};

use crate::circle::Circle;
use crate::draws::{next_draw, next_side};
use crate::fixed::{all_slots, hard, soft};
use crate::sets::{slot_set, slots_from, team_set};
use league::{Class, Constraint, PairSet, Side, Span, TeamId, slot_count};
use rand_pcg::Pcg32;
use std::alloc::{AllocError, Global};

/// A kind of constraints with draws.
#[derive(Clone, Copy)]
pub(crate) enum Kind {
    Ca1,
    Ca2,
    Ca4,
    Ga1,
    Br1,
}

/// The constraint of a kind that the next words make.
pub(crate) fn drawn(
    alloc: Global,
    circle: &Circle,
    kind: Kind,
    rng: &mut Pcg32,
) -> Result<Constraint, AllocError>
    ensures made { IfOk result (λ constraint. constraint ≡ made_of kind circle.now.n rng.old) }
    ensures rest { rng.new ≡ after (words_of kind) rng.old }
{
    match kind {
        Kind::Ca1 => ca1(alloc, circle, rng),
        Kind::Ca2 => ca2(alloc, circle, rng),
        Kind::Ca4 => ca4(alloc, circle, rng),
        Kind::Ga1 => ga1(alloc, circle, rng),
        Kind::Br1 => br1(alloc, circle, rng),
    }
}

/// A CA1: a team has as many games on a side in up to three slots as in the double circle schedule.
fn ca1(alloc: Global, circle: &Circle, rng: &mut Pcg32) -> Result<Constraint, AllocError>
    ensures made { IfOk result (λ constraint. constraint ≡ made_ca1 circle.now.n rng.old) }
    ensures rest { rng.new ≡ after 5 rng.old }
{
    let season = slot_count(circle.n());
    let team = next_draw(rng, circle.n());
    let side = next_side(rng);
    let first = next_draw(rng, season);
    let second = next_draw(rng, season);
    let third = next_draw(rng, season);
    let teams = team_set(alloc, &[team])?;
    let slots = slot_set(alloc, &[first, second, third])?;
    let max = circle.games_in(TeamId(team), side, &slots);
    Ok(hard(Class::Ca1 {
        teams,
        min: 0,
        max,
        side,
        slots,
    }))
}

/// One game of a team against one or two opponents in n/2 slots in a row.
fn ca2(alloc: Global, circle: &Circle, rng: &mut Pcg32) -> Result<Constraint, AllocError>
    ensures made { IfOk result (λ constraint. constraint ≡ made_ca2 circle.now.n rng.old) }
    ensures rest { rng.new ≡ after 5 rng.old }
{
    let n = circle.n();
    let team = next_draw(rng, n);
    let second = next_draw(rng, n);
    let third = next_draw(rng, n);
    let first_slot = next_draw(rng, n - 1);
    let penalty = 1 + u32::from(next_draw(rng, 10));
    Ok(soft(
        penalty,
        Class::Ca2 {
            teams1: team_set(alloc, &[team])?,
            teams2: team_set(alloc, &[second, third])?,
            min: 0,
            max: 1,
            side: Side::Both,
            slots: slots_from(alloc, first_slot, n / 2)?,
        },
    ))
}

/// Few games of some teams at home against others in the first half.
fn ca4(alloc: Global, circle: &Circle, rng: &mut Pcg32) -> Result<Constraint, AllocError>
    ensures made { IfOk result (λ constraint. constraint ≡ made_ca4 circle.now.n rng.old) }
    ensures rest { rng.new ≡ after 6 rng.old }
{
    let n = circle.n();
    let first = next_draw(rng, n);
    let second = next_draw(rng, n);
    let third = next_draw(rng, n);
    let fourth = next_draw(rng, n);
    let max = u32::from(next_draw(rng, 3));
    let penalty = 1 + u32::from(next_draw(rng, 10));
    Ok(soft(
        penalty,
        Class::Ca4 {
            teams1: team_set(alloc, &[first, second])?,
            teams2: team_set(alloc, &[third, fourth])?,
            min: 0,
            max,
            side: Side::H,
            span: Span::Global,
            slots: slots_from(alloc, 0, n - 1)?,
        },
    ))
}

/// A game of the double circle schedule in its slot or in another one.
fn ga1(alloc: Global, circle: &Circle, rng: &mut Pcg32) -> Result<Constraint, AllocError>
    ensures made { IfOk result (λ constraint. constraint ≡ made_ga1 circle.now.n rng.old) }
    ensures rest { rng.new ≡ after 2 rng.old }
{
    let n = circle.n();
    let place = next_draw(rng, n * (n - 1));
    let slot = next_draw(rng, slot_count(n));
    let game = circle.game_at(place);
    let mut meetings = PairSet::new(alloc);
    meetings.insert((game.home, game.away))?;
    let slots = slot_set(alloc, &[game.slot.0, slot])?;
    Ok(hard(Class::Ga1 {
        meetings,
        min: 1,
        max: 1,
        slots,
    }))
}

/// Few breaks of a team.
fn br1(alloc: Global, circle: &Circle, rng: &mut Pcg32) -> Result<Constraint, AllocError>
    ensures made { IfOk result (λ constraint. constraint ≡ made_br1 circle.now.n rng.old) }
    ensures rest { rng.new ≡ after 3 rng.old }
{
    let n = circle.n();
    let team = next_draw(rng, n);
    let intp = u32::from(next_draw(rng, 3));
    let penalty = 1 + u32::from(next_draw(rng, 10));
    Ok(soft(
        penalty,
        Class::Br1 {
            teams: team_set(alloc, &[team])?,
            intp,
            side: Side::Both,
            slots: all_slots(alloc, n)?,
        },
    ))
}
