//! What a descent compares.
ghost use Rattle.std.specs.Prelude.{◌≡◌, ℕ, ◌≤◌, true, false};
ghost use Rattle.std.specs.List.{All};
ghost use Rattle.league.specs.Counts.{counts_of};
ghost use Rattle.league.specs.Instance.{IsGame};
ghost use Rattle.rule_core.specs.Table.{table_counts};
ghost use Rattle.moves.specs.Round.{edited};
ghost use Rattle.descent.specs.Score as scores;
ghost use Rattle.descent.specs.Walks.{KeepsGames};

use crate::tally::Tally;
use crate::weigh::Sums;
use moves::Edit;
use rule_core::{Entries, Rule, Steps};

/// What the hard rules cost, and what the soft ones cost. Scores are compared by the infeasibility first, and by the
/// objective where the infeasibilities are equal.
#[derive(Clone, Copy)]
pub struct Score {
    pub infeasibility: u128,
    pub objective: u128,
}

impl Score {
    /// The score of a tally's games by its rules.
    pub fn of<R: Entries>(tally: &Tally<R>) -> Score
        ensures { result ≡ scores.score_on R.Entries tally.now.weights (table_counts tally.now.table) }
    {
        Score {
            infeasibility: tally.infeasibility(),
            objective: tally.objective(),
        }
    }

    /// What each lower score is at most: the infeasibility, and where this is 0, less than the objective.
    fn bounds_below(self) -> Sums
        ensures { scores.AreBoundsBelow result self }
    {
        if self.infeasibility > 0 {
            return Sums {
                infeasibility: self.infeasibility,
                objective: u128::MAX,
            };
        }
        Sums {
            infeasibility: 0,
            objective: self.objective.saturating_sub(1),
        }
    }

    /// Whether it is the least of all: no hard rule and no soft one costs anything.
    pub(crate) fn is_least(self) -> bool
        ensures least { result ≡ true → (self.infeasibility ≡ 0) × (self.objective ≡ 0) }
        ensures costly { result ≡ false → scores.IsCostly self }
    {
        self.infeasibility == 0 && self.objective == 0
    }

    /// Whether this score is the lower one of two.
    pub fn is_lower(self, other: Score) -> bool
        ensures { result ≡ scores.is_lower self other }
    {
        self.infeasibility < other.infeasibility
            || (self.infeasibility == other.infeasibility && self.objective < other.objective)
    }
}

/// Whether an edit lowers the score of a tally's games. The tally has the same games as before.
pub(crate) fn lowers<R: Rule<L>, L>(tally: &mut Tally<R>, edit: &Edit, steps: &mut Steps<L>) -> bool
    requires out_fit { All (IsGame tally.old.table.n) edit.now.out }
    requires into_fit { All (IsGame tally.old.table.n) edit.now.into }
    requires there { (i j s : ℕ) → counts_of edit.now.out i j s ≤ table_counts tally.old.table i j s }
    ensures keeps { KeepsGames tally.old tally.new }
    ensures lowers { result ≡ scores.is_lower
        (scores.score_on R.Entries tally.old.weights (edited (table_counts tally.old.table) edit.now))
        (scores.score_on R.Entries tally.old.weights (table_counts tally.old.table)) }
{
    let before = Score::of(tally);
    match tally.weigh_within(edit, before.bounds_below(), steps) {
        None => false,
        Some(sums) => {
            let after = Score {
                infeasibility: sums.infeasibility,
                objective: sums.objective,
            };
            after.is_lower(before)
        }
    }
}
