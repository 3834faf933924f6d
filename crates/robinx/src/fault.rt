// Why a file could not be read.
use crate::tag_fault::{FormKind, TagFault};
use thiserror::Error;

/// A fault of form and its line, counted from 1: for a piece that of its first byte, for an element that isn't whole
/// that of its End, for a value that of its Start, for a file that ends too early that of its end.
#[derive(Clone, Copy, Debug, Drop, PartialEq, Eq)]
pub struct FormFault {
    pub kind: FormKind,
    pub line: u32,
}

/// Why nothing was read.
#[derive(Debug, Drop, Error)]
pub enum ReadFault {
    /// The file has this fault of form, and none before it.
    #[error("line {}: {}", .0.line, .0.kind)]
    Form(FormFault),
    /// Memory ran out.
    #[error("out of memory")]
    Mem,
}

impl From<TagFault> for ReadFault {
    ghost use Rattle.std.specs.Prelude.{◌≡◌};
    ghost use Rattle.robinx.specs.Tagged.{of_tags};

    ghost from_gives = { λ tag_fault fault. fault ≡ of_tags tag_fault };

    fn from(fault: TagFault) -> ReadFault {
        match fault {
            TagFault::Form { kind, line } => ReadFault::Form(FormFault { kind, line }),
            TagFault::Mem => ReadFault::Mem,
        }
    }
}
