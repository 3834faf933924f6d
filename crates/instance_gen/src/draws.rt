//! Draws from the generator of a seed. The generator is PCG32 (O'Neill 2014).
ghost use Rattle.std.specs.Prelude.{◌≡◌, ◌<◌};
ghost use Rattle.instance_gen.specs.Draws.{draw, next, seeded};
ghost use Rattle.instance_gen.specs.Made.{side_of};

use league::Side;
use rand_core::SeedableRng;
use rand_core::utils::NextWord;
use rand_pcg::Pcg32;

/// The generator of a seed.
#[tactic(auto, unfolding(crate::specs::Draws::seeded))]
pub(crate) fn generator(seed: u64) -> Pcg32
    ensures { result ≡ seeded seed }
{
    Pcg32::seed_from_u64(seed)
}

/// The next draw: the generator's next word, modulo the bound.
#[tactic(auto, unfolding(crate::specs::Draws::word, crate::specs::Draws::next))]
pub(crate) fn next_draw(rng: &mut Pcg32, bound: u16) -> u16
    requires { 0 < bound }
    ensures value { result ≡ draw rng.old 0 bound }
    ensures below { result < bound }
    ensures rest { rng.new ≡ next rng.old }
{
    (rng.next_word() % u32::from(bound)) as u16
}

/// A drawn side: 0 of two is home.
pub(crate) fn next_side(rng: &mut Pcg32) -> Side
    ensures side { result ≡ side_of (draw rng.old 0 2) }
    ensures rest { rng.new ≡ next rng.old }
{
    if next_draw(rng, 2) == 0 {
        Side::H
    } else {
        Side::A
    }
}
