//! Several tries, of which the best answer is kept.
ghost use Rattle.std.specs.Prelude.{◌≡◌, ◌↔◌, ◌∷◌, ◌++◌, [], ℕ, ◌≤◌, List, Option, Some, IsTrue};
ghost use Rattle.solve.specs.Chosen as chosen;
ghost use Rattle.solve.specs.Earliest.{IsBestOf, season_of, season_tried};
ghost use Rattle.solve.specs.Solutions.{CostsAtMost, HasSchedule, IsRefuted};
ghost use Rattle.solve.specs.declared.lower.Season.{Season};

use crate::lower::Season;
use crate::solved::Solved;
use league_search::PatternFound;
use refutation::Log;

/// What one try comes to.
#[derive(Drop)]
pub enum Tried {
    /// A schedule that is accepted.
    Found(Season),
    /// A log that refutes the league.
    Refuted(Log),
    /// A log whose search has as many steps as the limit allows.
    Spent(Log),
}

/// A schedule as the answer.
pub(crate) fn schedule_found(season: Season) -> Solved
    ensures found { result ≡ chosen.schedule_found season }
    ensures schedule { HasSchedule result }
    ensures at_most { (most : ℕ) → season.objective ≤ most → CostsAtMost most result }
    ensures season { season_of result ≡ Some season }
{
    let Season {
        schedule,
        objective,
        descent,
    } = season;
    Solved::Schedule {
        schedule,
        objective,
        descent,
    }
}

/// What a try comes to, as the answer, where this is known of the league's patterns.
pub(crate) fn solved_by(tried: Tried, patterns: PatternFound) -> Solved
    ensures answer { result ≡ chosen.solved_by tried patterns }
    ensures season { season_of result ≡ season_tried tried }
{
    match tried {
        Tried::Found(season) => schedule_found(season),
        Tried::Refuted(log) => Solved::Refuted(log),
        Tried::Spent(log) => Solved::Spent { log, patterns },
    }
}

/// Whether an answer is a refutation.
pub(crate) fn is_refuted(answer: &Solved) -> bool
    ensures { IsTrue result ↔ IsRefuted answer.now }
{
    matches!(answer, Solved::Refuted(_))
}

/// The better one of an answer and of a later try: a refutation stays, the schedule of the lesser objective is kept, of
/// equal ones the earlier, and a spent search gives way to what comes later.
pub(crate) fn better(best: Solved, later: Tried) -> Solved
    ensures kept { result ≡ chosen.better best later }
    ensures schedule { HasSchedule best → HasSchedule result }
    ensures at_most { (most : ℕ) → CostsAtMost most best → CostsAtMost most result }

    // The answer is the best of the best of what some tries found, and of one try more.
    ensures best { (found : List (Option Season)) → (IsRefuted best → ⊥) → IsBestOf found (season_of best)
        → IsBestOf (found ++ season_tried later ∷ []) (season_of result) }
{
    match best {
        Solved::Refuted(log) => Solved::Refuted(log),
        Solved::Spent { log: _, patterns } => solved_by(later, patterns),
        Solved::Schedule {
            schedule,
            objective,
            descent,
        } => {
            let season = Season {
                schedule,
                objective,
                descent,
            };
            schedule_found(better_season(season, later))
        }
    }
}

/// The better one of an answer and of the schedule of a later walk, if there is one.
pub(crate) fn with_later(best: Solved, walked: Option<Season>) -> Solved
    ensures kept { result ≡ chosen.with_later best walked }
    ensures schedule { HasSchedule best → HasSchedule result }
    ensures at_most { (most : ℕ) → CostsAtMost most best → CostsAtMost most result }
{
    match walked {
        Some(season) => better(best, Tried::Found(season)),
        None => best,
    }
}

/// What a search comes to, or the schedule of a walk where there is one and it isn't worse.
pub(crate) fn with_walked(found: Tried, walked: Option<Season>) -> Tried
    ensures kept { result ≡ chosen.with_walked found walked }

    // Of the walk's schedule and the search's the better one stays, and the walk's where they cost the same.
    ensures best { IsBestOf (walked ∷ season_tried found ∷ []) (season_tried result) }
{
    match walked {
        Some(season) => Tried::Found(better_season(season, found)),
        None => found,
    }
}

/// The better one of a schedule and of what a later try comes to.
fn better_season(best: Season, later: Tried) -> Season
    ensures at_most { result.objective ≤ best.objective }
    ensures kept { result ≡ chosen.better_season best later }
    ensures best { (found : List (Option Season)) → IsBestOf found (Some best)
        → IsBestOf (found ++ season_tried later ∷ []) (Some result) }
{
    match later {
        Tried::Found(season) => lesser(best, season),
        Tried::Refuted(_) => best,
        Tried::Spent(_) => best,
    }
}

/// The schedule of the lesser objective, and of equal ones the first.
fn lesser(best: Season, later: Season) -> Season
    ensures { result ≡ chosen.lesser best later }
{
    if later.objective < best.objective {
        later
    } else {
        best
    }
}
