//! Rows of steps that are let go.
ghost use Rattle.std.specs.Prelude.{◌≡◌, ◌+◌, ℕ, List, map};
ghost use Rattle.rows.specs.Rows.{Row};
ghost use Rattle.refutation_check.specs.Forgotten as forgotten;
ghost use Rattle.refutation_check.specs.Forgotten.{without};
ghost use Rattle.refutation_check.specs.Kept.{all_rows, judged_step};
ghost use Rattle.refutation_check.specs.Room.{steps_bytes};
ghost use Rattle.refutation_check.specs.Within.{AreWithin};

use crate::kept::{KeptStep, step_bytes};

/// A step whose row is let go: the row without demand stands in its place.
fn gone() -> KeptStep
    ensures { judged_step result ≡ forgotten.gone }
{
    KeptStep::Tautology
}

/// Lets the row of the step at a place go, unless it is the last step, and says how many bytes the row took.
pub(crate) fn let_row_go(steps: &mut Vec<KeptStep>, bytes: &mut u128, place: usize) -> u128
    requires counted { bytes.old ≡ steps_bytes (map judged_step steps.old.items) }
    ensures steps { map judged_step steps.new.items ≡ without place (map judged_step steps.old.items) }
    ensures counted { bytes.new ≡ steps_bytes (map judged_step steps.new.items) }
    ensures freed { bytes.new + result ≡ bytes.old }
    ensures within { (rows : List Row) → (vars : ℕ) → AreWithin vars (all_rows rows steps.old.items)
        → AreWithin vars (all_rows rows steps.new.items) }
{
    let count = steps.len();
    if count == 0 || place >= count - 1 {
        return 0;
    }
    let freed = step_bytes(&steps[place]) - 64;
    steps[place] = gone();
    *bytes -= freed;
    freed
}
