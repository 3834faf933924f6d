//! What a judged step changes.
ghost use Rattle.std.specs.Prelude.{◌≡◌, ℕ, List, map, None, IfOk, OnOk, OnErr};
ghost use Rattle.rows.specs.Rows.{Row};
ghost use Rattle.refutation.specs.declared.step.StepKind.{StepKind as Kind};
ghost use Rattle.refutation_check.specs.Judged.{with_step};
ghost use Rattle.refutation_check.specs.Kept.{IsOfKind, all_rows, judged_step, row_result, state_of};
ghost use Rattle.refutation_check.specs.Room.{steps_bytes};
ghost use Rattle.refutation_check.specs.Within.{AreWithin, IsWithin};

use crate::kept::{KeptStep, Rejection, step_bytes};
use refutation::Cause;
use std::alloc::AllocError;

/// Adds the row of a step that followed, and counts its bytes, or notes why it didn't follow.
///
/// # Errors
/// Only where memory runs out: then nothing changes.
pub(crate) fn keep(
    found: Result<KeptStep, Cause>,
    steps: &mut Vec<KeptStep>,
    bytes: &mut u128,
    rejection: &mut Option<Rejection>,
) -> Result<(), AllocError>
    requires none { rejection.old ≡ None }
    requires counted { bytes.old ≡ steps_bytes (map judged_step steps.old.items) }
    ensures ok { OnOk result ((rows : List Row) → (vars : ℕ) → (kind : Kind) → IsOfKind kind found
        → state_of rows vars steps.new.items rejection.new
        ≡ with_step (state_of rows vars steps.old.items rejection.old) kind (row_result found)) }
    ensures within { (rows : List Row) → (vars : ℕ) → AreWithin vars (all_rows rows steps.old.items)
        → IfOk found (λ step. IsWithin vars (judged_step step).row) → AreWithin vars (all_rows rows steps.new.items) }
    ensures counted { bytes.new ≡ steps_bytes (map judged_step steps.new.items) }
    ensures steps { OnErr result (steps.new.items ≡ steps.old.items) }
    ensures rejection { OnErr result (rejection.new ≡ rejection.old) }
{
    match found {
        Ok(step) => {
            let Some(more) = bytes.checked_add(step_bytes(&step)) else {
                return Err(AllocError);
            };
            steps.push(step)?;
            *bytes = more;
        }
        Err(cause) => {
            *rejection = Some(Rejection {
                step: steps.len() as u64 + 1,
                cause,
            });
        }
    }
    Ok(())
}
