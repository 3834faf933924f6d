//! Why a part isn't made.
use std::alloc::AllocError;
use thiserror::Error;

/// Why a part isn't made.
#[derive(Debug, Drop, Error)]
pub enum PartFault {
    /// No hard constraint has this number.
    #[error("no hard constraint has the number {number}")]
    UnknownConstraint { number: u32 },
    /// Memory ran out.
    #[error("out of memory")]
    Mem,
}

impl From<AllocError> for PartFault {
    ghost use Rattle.std.specs.Prelude.{◌≡◌};
    ghost use Rattle.explain.specs.declared.fault.PartFault.TheVariants as faults;

    ghost from_gives = { λ _ fault. fault ≡ faults.Mem };

    fn from(_: AllocError) -> PartFault {
        PartFault::Mem
    }
}
