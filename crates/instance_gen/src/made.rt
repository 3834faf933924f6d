//! Made leagues.
ghost use Rattle.std.specs.Prelude.{◌≡◌, ◌+◌, ◌*◌, ◌++◌, length, IfOk, OnOk};
ghost use Rattle.circle_method.specs.Circle.{double_games};
ghost use Rattle.league.specs.Accepted.{IsAccepted};
ghost use Rattle.league.specs.Counts.{counts_of};
ghost use Rattle.league.specs.Instance.{IsTeamCount};
ghost use Rattle.instance_gen.specs.Draws.{after, seeded};
ghost use Rattle.instance_gen.specs.Kinds.{made_of, words_of};
ghost use Rattle.instance_gen.specs.Made.{made_constraints, made_league, made_list};

use crate::circle::Circle;
use crate::draws::generator;
use crate::fixed::{push_first, push_last};
use crate::kind::{Kind, drawn};
use league::{Constraint, League};
use rand_pcg::Pcg32;
use std::alloc::{AllocError, Global};

/// The league of n teams that a seed makes, for an even n from 2 to 40: phased, with n + 17 constraints of all nine
/// classes, all but seven of them made of the next words of the PCG32 of the seed. Its hard constraints bound what the
/// double round robin of the circle method has, so that the league accepts it.
///
/// # Errors
/// Only where memory runs out.
pub fn make(alloc: Global, n: u16, seed: u64) -> Result<League, AllocError>
    requires teams { IsTeamCount n }
    ensures league { IfOk result (λ league. league ≡ made_league n (seeded seed)) }
    ensures count { IfOk result (λ league. length league.constraints ≡ n + 17) }

    // The double circle schedule is a season of it, whatever the seed is.
    ensures accepts { IfOk result (λ league. IsAccepted league (counts_of (double_games n))) }
{
    let circle = Circle::new(alloc, n)?;
    let constraints = constraints_of(alloc, &circle, seed)?;
    Ok(League::new(n, true, constraints))
}

/// The constraints of a made league in file order.
fn constraints_of(alloc: Global, circle: &Circle, seed: u64) -> Result<Vec<Constraint>, AllocError>
    ensures { IfOk result (λ constraints. constraints.items ≡ made_constraints circle.now.n (seeded seed)) }
{
    let half = circle.n() / 2;
    let mut rng = generator(seed);
    let mut constraints = Vec::new(alloc);
    push_drawn(alloc, circle, Kind::Ca1, half, &mut rng, &mut constraints)?;
    push_drawn(alloc, circle, Kind::Ca2, 4, &mut rng, &mut constraints)?;
    push_first(alloc, circle, &mut constraints)?;
    push_drawn(alloc, circle, Kind::Ca4, 2, &mut rng, &mut constraints)?;
    push_drawn(alloc, circle, Kind::Ga1, 4, &mut rng, &mut constraints)?;
    push_drawn(alloc, circle, Kind::Br1, half, &mut rng, &mut constraints)?;
    push_last(alloc, circle, &mut constraints)?;
    Ok(constraints)
}

/// Adds so many constraints of a kind, made of the next words.
fn push_drawn(
    alloc: Global,
    circle: &Circle,
    kind: Kind,
    count: u16,
    rng: &mut Pcg32,
    constraints: &mut Vec<Constraint>,
) -> Result<(), AllocError>
    ensures list { OnOk result (constraints.new.items
        ≡ constraints.old.items ++ made_list (made_of kind circle.now.n) (words_of kind) count rng.old) }
    ensures rest { OnOk result (rng.new ≡ after (words_of kind * count) rng.old) }
{
    for k in 0..count {
        constraints.push(drawn(alloc, circle, kind, rng)?)?;
    }
    Ok(())
}
