//! Laws of tallies: functions that do nothing and whose contracts are proved.
ghost use Rattle.std.specs.Prelude.{◌≡◌, ◌<◌, ◌↔◌, ℕ, List, map};
ghost use Rattle.league.specs.Accepted.{MeetsHard, infeasibility, objective};
ghost use Rattle.league.specs.Counts.{Counts};
ghost use Rattle.league.specs.Deviation.{vector_of};
ghost use Rattle.league.specs.Instance.{Instance};
ghost use Rattle.descent.specs.League.{AreRulesOf, hard_sum};
ghost use Rattle.descent.specs.Tallies.{infeasibility_on, objective_on, vector_on};
ghost use Rattle.descent.specs.declared.weighted.Weighted.{Weighted};

use rule_core::Entries;

/// Weighted rules of a league's constraints give, on any counts, what the league says: each constraint's deviation
/// vector, what the hard constraints cost, and the objective.
pub fn league_sums<R: Entries>()
    ensures vectors { (least : ℕ) (league : Instance) (weights : List (Weighted R)) (m : Counts)
        → AreRulesOf R.Entries least league weights
        → map (λ w. vector_on R.Entries m w.rule) weights ≡ map (λ c. vector_of league.n m c.class) league.constraints }
    ensures hard { (least : ℕ) (league : Instance) (weights : List (Weighted R)) (m : Counts)
        → AreRulesOf R.Entries least league weights
        → infeasibility_on R.Entries m weights ≡ hard_sum least league m }
    ensures objective { (least : ℕ) (league : Instance) (weights : List (Weighted R)) (m : Counts)
        → AreRulesOf R.Entries least league weights
        → objective_on R.Entries m weights ≡ objective league m }
{}

/// With the penalties as they stand the hard constraints cost the infeasibility; where each costs at least 1 a unit,
/// they cost nothing exactly where a schedule meets them all.
pub fn hard_sums()
    ensures own { (league : Instance) (m : Counts) → hard_sum 0 league m ≡ infeasibility league m }
    ensures met { (least : ℕ) (league : Instance) (m : Counts) → 0 < least
        → (hard_sum least league m ≡ 0) ↔ MeetsHard league m }
{}
