//! How far a number is outside of two bounds.
ghost use Rattle.std.specs.Prelude.{◌≡◌};
ghost use Rattle.league.specs.Bounds as bounds;

/// How far a number of games is outside of `min` to `max`: the larger of what it lacks and what it has too much.
pub fn outside(min: u32, max: u32, games: u64) -> u64
    ensures { result ≡ bounds.outside min max games }
{
    let lacking = u64::from(min).saturating_sub(games);
    let beyond = games.saturating_sub(u64::from(max));
    lacking.max(beyond)
}
