//! Why not all steps of a log are judged.
use std::alloc::AllocError;

/// Why not all steps of a log are judged.
#[derive(Clone, Copy, Debug, PartialEq, Eq)]
pub enum StepsFault {
    /// The rows of the steps take more than there is room for.
    Full,
    /// Memory ran out.
    Mem,
}

impl From<AllocError> for StepsFault {
    ghost use Rattle.std.specs.Prelude.{◌≡◌};
    ghost use Rattle.refutation_check.specs.declared.fault.StepsFault.TheVariants as faults;

    ghost from_gives = { λ _ fault. fault ≡ faults.Mem };

    fn from(_: AllocError) -> StepsFault {
        StepsFault::Mem
    }
}
