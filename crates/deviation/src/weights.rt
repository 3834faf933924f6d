//! The deviation vectors of constraints, and what they cost.
ghost use Rattle.std.specs.Prelude.{◌≡◌, ℕ, ◌+◌, ◌*◌, ◌≤◌, ◌++◌, ◌^◌, List, [], ◌∷◌, length, map, sum, IsTrue};
ghost use Rattle.std.specs.Prelude.{IfOk, OnOk};
ghost use Rattle.std.specs.List.{All};
ghost use Rattle.league.specs.Counts.{Counts, counts_of};
ghost use Rattle.league.specs.Deviation.{vector_of};
ghost use Rattle.league.specs.Instance.{Instance, class_fits};
ghost use Rattle.league.specs.declared.class.Constraint.{Constraint};
ghost use Rattle.league.specs.declared.game.Game.{Game};
ghost use Rattle.rule_core.specs.Table.{table_counts};
ghost use Rattle.deviation.specs.Assess.{AreAtMost, AreWeightsOf};

use crate::any_rule::AnyRule;
use crate::entries::entries_of;
use league::{Constraint, League};
use rule_core::{Cells, Plain, Steps};
use std::alloc::{AllocError, Global};

/// The deviation vector of each constraint, and the sums of what they cost.
#[derive(Drop)]
pub struct Weights {
    pub vectors: Vec<Vec<u64>>,
    /// Penalty times deviation, over the hard constraints.
    pub infeasibility: u128,
    /// Penalty times deviation, over the soft constraints.
    pub objective: u128,
    /// The deviation of the hard constraints, whatever their penalty.
    pub hard_deviation: u128,
}

impl Weights {
    /// The weights of no constraint.
    fn new(alloc: Global) -> Weights
        ensures none { (n : ℕ) (m : Counts) → AreWeightsOf n m [] result }
        ensures zero { AreAtMost 0 result }
    {
        Weights {
            vectors: Vec::new(alloc),
            infeasibility: 0,
            objective: 0,
            hard_deviation: 0,
        }
    }

    /// Adds a constraint with its vector.
    fn add(&mut self, constraint: &Constraint, entries: Vec<u64>) -> Result<(), AllocError>
        requires few { length entries.items ≤ 1600 }
        requires room { AreAtMost (2 ^ 125) self.old }
        ensures added { OnOk result ((n : ℕ) (m : Counts) (before : List Constraint)
            → entries.items ≡ vector_of n m constraint.now.class → AreWeightsOf n m before self.old
            → AreWeightsOf n m (before ++ constraint.now ∷ []) self.new) }
        ensures growth { (most : ℕ) → AreAtMost most self.old → AreAtMost (most + 2 ^ 107) self.new }
    {
        let deviation = total(&entries);
        let cost = u128::from(constraint.penalty) * deviation;
        self.vectors.push(entries)?;
        if constraint.hard {
            self.infeasibility += cost;
            self.hard_deviation += deviation;
        } else {
            self.objective += cost;
        }
        Ok(())
    }

    /// The weights of a league's constraints on these counts.
    pub fn of(alloc: Global, league: &League, cells: &Cells) -> Result<Weights, AllocError>
        requires { cells.now.n ≡ league.now.n }
        ensures { IfOk result (AreWeightsOf league.now.n (table_counts cells.now) league.now.constraints) }
    {
        let n = league.n();
        let mut weights = Weights::new(alloc);
        let mut steps = Steps::<Plain>::start();
        for constraint in league.constraints() {
            let entries = vector(alloc, n, cells, constraint, &mut steps)?;
            weights.add(constraint, entries)?;
        }
        Ok(weights)
    }
}

/// The deviation vector of a constraint.
fn vector<L>(
    alloc: Global,
    n: u16,
    cells: &Cells,
    constraint: &Constraint,
    steps: &mut Steps<L>,
) -> Result<Vec<u64>, AllocError>
    requires n { n ≤ 40 }
    requires teams { cells.now.n ≡ n }
    requires fits { IsTrue (class_fits n constraint.now.class) }
    ensures exact { IfOk result (λ entries. entries.items ≡ vector_of n (table_counts cells.now) constraint.now.class) }
    ensures few { IfOk result (λ entries. length entries.items ≤ 1600) }
{
    let rule = AnyRule::new(alloc, n, constraint)?;
    entries_of(alloc, &rule, cells, steps)
}

/// The deviation of a constraint: the sum of its vector. It fits, as no list in memory has 2^64 entries.
pub fn total(entries: &[u64]) -> u128
    ensures sum { result ≡ sum entries.now }
    ensures small { result ≤ 2 ^ 64 * length entries.now }
{
    sum_of(entries)
}

fn sum_of(entries: &[u64]) -> u128
    ensures { result ≡ sum entries.now }
{
    entries.iter().map(|entry| u128::from(*entry)).sum()
}
