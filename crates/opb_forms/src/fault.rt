//! Why values can't be read.
ghost use Rattle.std.specs.Prelude.{◌≡◌};
ghost use Rattle.opb_forms.specs.declared.fault.WordFault.TheVariants as faults;

use std::alloc::AllocError;
use thiserror::Error;

/// Why a file of values is refused.
#[derive(Clone, Copy, Debug, PartialEq, Eq, Error)]
pub enum ValuesFault {
    /// In this line, numbered from 1, a word is no literal.
    #[error("line {line} has a word that is no literal")]
    Form { line: u64 },
    /// Memory ran out.
    #[error("out of memory")]
    Mem,
}

/// Why a line is refused.
#[derive(Clone, Copy)]
pub(crate) enum WordFault {
    /// A word is no literal.
    Wrong,
    /// Memory ran out.
    Mem,
}

impl From<AllocError> for WordFault {
    ghost from_gives = { λ _ e. e ≡ faults.Mem };

    fn from(_: AllocError) -> WordFault {
        WordFault::Mem
    }
}
