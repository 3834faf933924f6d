//! The assessment of a schedule by a league.
ghost use Rattle.std.specs.Prelude.{◌≡◌, ◌≤◌, ◌↔◌, length, map, IsTrue, IfOk};
ghost use Rattle.std.specs.List.{All};
ghost use Rattle.league.specs.Accepted.{infeasibility, objective, IsAccepted};
ghost use Rattle.league.specs.Counts.{counts_of};
ghost use Rattle.league.specs.Deviation.{vector_of};
ghost use Rattle.league.specs.Instance.{IsGame};
ghost use Rattle.deviation.specs.Assess.{IsStructureOf};

use crate::counting::counted;
use crate::vectors::Vectors;
use crate::weights::Weights;
use league::{League, Schedule, Wrongs, structure};
use std::alloc::{AllocError, Global};

/// What a schedule is worth to a league.
#[derive(Drop)]
pub struct Assessment {
    /// How far it is from a double round robin.
    pub structure: Wrongs,
    /// The deviation vector of each constraint.
    pub vectors: Vectors,
    /// Penalty times deviation, over the hard constraints.
    pub infeasibility: u128,
    /// Penalty times deviation, over the soft constraints.
    pub objective: u128,
    /// Whether the league accepts it.
    pub feasible: bool,
}

/// Assesses a schedule of at most 10,000 games of the league, which need not be a round robin.
///
/// # Errors
/// Only where memory runs out.
pub fn assess(alloc: Global, league: &League, schedule: &Schedule) -> Result<Assessment, AllocError>
    requires few { length schedule.now ≤ 10000 }
    requires fit { All (IsGame league.now.n) schedule.now }
    ensures structure { IfOk result (λ assessed. IsStructureOf league.now (counts_of schedule.now) assessed.structure) }
    ensures vectors { IfOk result (λ assessed. assessed.vectors
        ≡ map (λ c. vector_of league.now.n (counts_of schedule.now) c.class) league.now.constraints) }
    ensures infeasibility { IfOk result (λ assessed. assessed.infeasibility
        ≡ infeasibility league.now (counts_of schedule.now)) }
    ensures objective { IfOk result (λ assessed. assessed.objective ≡ objective league.now (counts_of schedule.now)) }
    ensures feasible { IfOk result (λ assessed. IsTrue assessed.feasible
        ↔ IsAccepted league.now (counts_of schedule.now)) }
{
    let wrongs = structure(league, schedule);
    let cells = counted(alloc, league.n(), schedule.games())?;
    let weights = Weights::of(alloc, league, &cells)?;
    let feasible = is_feasible(wrongs, weights.hard_deviation);
    Ok(Assessment {
        structure: wrongs,
        vectors: Vectors {
            vectors: weights.vectors,
        },
        infeasibility: weights.infeasibility,
        objective: weights.objective,
        feasible,
    })
}

/// Whether nothing is wrong and no hard constraint deviates, whatever its penalty.
fn is_feasible(wrongs: Wrongs, hard_deviation: u128) -> bool
    ensures { IsTrue result ↔ ((wrongs.pairs_wrong ≡ 0) × (wrongs.cells_wrong ≡ 0) × (wrongs.phases_wrong ≡ 0)
        × (hard_deviation ≡ 0)) }
{
    wrongs.pairs_wrong == 0
        && wrongs.cells_wrong == 0
        && wrongs.phases_wrong == 0
        && hard_deviation == 0
}
