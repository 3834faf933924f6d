//! What the search decides first.
ghost use Rattle.std.specs.Prelude.{◌≡◌, ◌<◌, ◌≤◌, length, IfOk, OnOk};
ghost use Rattle.std.specs.List.{All};
ghost use Rattle.std.specs.List.Sorted.{IsPermutation};
ghost use Rattle.league.specs.Counts.{slot_count};
ghost use Rattle.league.specs.Instance.{IsGame};
ghost use Rattle.encoding.specs.Variables.{var_count};

use circle_method::double;
use decoding::shadow;
use encoding::Encoding;
use league::{Schedule, Side, SlotId, TeamId};
use patterns::{Pattern, PatternSet};
use rand::seq::SliceRandom;
use rand_core::SeedableRng;
use rand_core::utils::NextWord;
use rand_pcg::Pcg32;
use rows::{Assignment, Lit};
use std::alloc::{AllocError, Global};

/// The variables that the schedule of the circle method makes true: the search decides them first, and so begins
/// near a round robin.
///
/// # Errors
/// Only where memory runs out.
pub(crate) fn preferred(alloc: Global, encoding: &Encoding) -> Result<Vec<Lit>, AllocError>
    ensures { IfOk result (λ lits. All (λ l. l.var ≤ var_count encoding.now) lits.items) }
{
    let schedule = double(alloc, encoding.n())?;
    true_in(alloc, encoding, &schedule)
}

/// The variables that a schedule makes true.
///
/// # Errors
/// Only where memory runs out.
pub(crate) fn true_in(
    alloc: Global,
    encoding: &Encoding,
    schedule: &Schedule,
) -> Result<Vec<Lit>, AllocError>
    requires { All (IsGame encoding.now.n) schedule.now }
    ensures { IfOk result (λ lits. All (λ l. l.var ≤ var_count encoding.now) lits.items) }
{
    let values = shadow(alloc, encoding, schedule)?;
    true_literals(alloc, &values, encoding.vars())
}

/// The variables that are true.
///
/// # Errors
/// Only where memory runs out.
fn true_literals(alloc: Global, values: &Assignment, vars: u32) -> Result<Vec<Lit>, AllocError>
    requires count { length values.now ≡ vars }
    requires few { vars ≤ 130960 }
    ensures { IfOk result (λ lits. All (λ l. l.var ≤ vars) lits.items) }
{
    let mut lits = Vec::new(alloc);
    for before in 0..vars {
        if values.value(before + 1) {
            lits.push(Lit::new(before + 1, true))?;
        }
    }
    Ok(lits)
}

/// The literals that say what patterns say: the variable of each team and slot, which is true where the team plays at
/// home there.
///
/// # Errors
/// Only where memory runs out.
pub(crate) fn venues(
    alloc: Global,
    encoding: &Encoding,
    patterns: &PatternSet,
) -> Result<Vec<Lit>, AllocError>
    requires teams { length patterns.now ≡ encoding.now.n }
    requires slots { All (λ pattern. length pattern ≡ slot_count encoding.now.n) patterns.now }
    ensures { IfOk result (λ lits. All (λ l. l.var ≤ var_count encoding.now) lits.items) }
{
    let mut lits = Vec::new(alloc);
    for team in 0..encoding.n() {
        let team = TeamId(team);
        add_venues(encoding, team, patterns.pattern(team), &mut lits)?;
    }
    Ok(lits)
}

/// Adds the literals of a team's venues.
///
/// # Errors
/// Only where memory runs out.
fn add_venues(
    encoding: &Encoding,
    team: TeamId,
    pattern: &Pattern,
    lits: &mut Vec<Lit>,
) -> Result<(), AllocError>
    requires team { team.0 < encoding.now.n }
    requires slots { length pattern.now ≡ slot_count encoding.now.n }
    requires before { All (λ l. l.var ≤ var_count encoding.now) lits.old.items }
    ensures { OnOk result (All (λ l. l.var ≤ var_count encoding.now) lits.new.items) }
{
    let _vars = encoding.vars();
    for slot in 0..encoding.slots() {
        let home = pattern.side(slot as usize) == Side::H;
        lits.push(Lit::new(encoding.h(team, SlotId(slot)), home))?;
    }
    Ok(())
}

/// All variables in a random order, each with a random sign, by the generator of a seed.
///
/// # Errors
/// Only where memory runs out.
pub(crate) fn shuffled(
    alloc: Global,
    encoding: &Encoding,
    seed: u64,
) -> Result<Vec<Lit>, AllocError>
    ensures { IfOk result (λ lits. All (λ l. l.var ≤ var_count encoding.now) lits.items) }
{
    let mut random = Pcg32::seed_from_u64(seed);
    let mut lits = signed_literals(alloc, encoding.vars(), &mut random)?;
    shuffle(&mut lits, &mut random);
    Ok(lits)
}

/// All variables, each with a random sign: that of an even word of the generator is positive.
///
/// # Errors
/// Only where memory runs out.
fn signed_literals(alloc: Global, vars: u32, random: &mut Pcg32) -> Result<Vec<Lit>, AllocError>
    requires few { vars ≤ 130960 }
    ensures { IfOk result (λ lits. All (λ l. l.var ≤ vars) lits.items) }
{
    let mut lits = Vec::new(alloc);
    for before in 0..vars {
        let positive = random.next_word() % 2 == 0;
        lits.push(Lit::new(before + 1, positive))?;
    }
    Ok(lits)
}

/// Puts literals in a random order.
fn shuffle(lits: &mut [Lit], random: &mut Pcg32)
    ensures { IsPermutation lits.old lits.new }
{
    lits.shuffle(random);
}
