// Why there is no next piece.
ghost use Rattle.std.specs.Prelude.{◌≡◌};
ghost use Rattle.robinx.specs.declared.tag_fault.Stop.TheVariants as stops;
ghost use Rattle.robinx.specs.Faults.{fault_on};

use std::alloc::{AllocError, AllocFailed};
use std::{error, fmt};
use thiserror::Error;

/// What is wrong with a file. The reader of tags gives the first five.
#[derive(Clone, Copy, Debug, PartialEq, Eq)]
pub enum FormKind {
    /// A tag isn't written as a tag.
    BadTag,
    /// An attribute has no `=`, no quoted value, or a `<` in its value.
    BadAttribute,
    /// A tag has two attributes of one name.
    RepeatedAttribute,
    /// A tag has more than 64 attributes.
    TooManyAttributes,
    /// The file ends too early.
    Truncated,
    /// A tag stands where it may not.
    BadNesting,
    /// An element that has to be there isn't.
    MissingElement,
    /// An element that may stand once comes again.
    RepeatedElement,
    /// An attribute that has to be there isn't.
    MissingAttribute,
    /// A value is no decimal number.
    BadNumber,
    /// A number is above 4,294,967,295.
    NumberTooLarge,
    /// The league has no such team.
    UnknownTeam,
    /// The season has no such slot.
    UnknownSlot,
    /// A team meets itself.
    SameTeam,
    /// A value is none of those that may stand there.
    BadChoice,
    /// A class of constraints is none of the nine.
    UnsupportedClass,
    /// Teams, slots or rounds are not those of a double round robin.
    WrongCounts,
    /// There are too many constraints or games.
    TooMany,
}

impl fmt::Display for FormKind {
    fn fmt<W: fmt::Write>(&self, f: &mut fmt::Formatter<W>) -> fmt::Result {
        let words = match *self {
            FormKind::BadTag => "a tag is malformed",
            FormKind::BadAttribute => "an attribute is malformed",
            FormKind::RepeatedAttribute => "an attribute is repeated",
            FormKind::TooManyAttributes => "a tag has more than 64 attributes",
            FormKind::Truncated => "the file ends too early",
            FormKind::BadNesting => "a tag stands where it may not",
            FormKind::MissingElement => "an element is missing",
            FormKind::RepeatedElement => "an element is repeated",
            FormKind::MissingAttribute => "an attribute is missing",
            FormKind::BadNumber => "a number is malformed",
            FormKind::NumberTooLarge => "a number is too large",
            FormKind::UnknownTeam => "a team is unknown",
            FormKind::UnknownSlot => "a slot is unknown",
            FormKind::SameTeam => "a team meets itself",
            FormKind::BadChoice => "a value is none of the possible ones",
            FormKind::UnsupportedClass => "a class of constraints is unsupported",
            FormKind::WrongCounts => "teams, slots or rounds are miscounted",
            FormKind::TooMany => "there are too many constraints or games",
        };
        write!(f, "{words}")
    }
}

impl error::Error for FormKind {}

/// Why there is no next piece.
#[derive(Debug, Drop, PartialEq, Eq, Error)]
pub enum TagFault {
    /// The file has this fault, in the piece that begins on this line.
    #[error("line {line}: {kind}")]
    Form { kind: FormKind, line: u32 },
    /// Memory ran out.
    #[error("out of memory")]
    Mem,
}

/// Why a piece or an element can't be read, on a line that its caller knows.
#[derive(Drop)]
pub enum Stop {
    /// The piece or element has this fault.
    Form(FormKind),
    /// Memory ran out.
    Mem,
}

impl Stop {
    /// The fault on this line. Want of memory has no line.
    pub fn on_line(self, line: u32) -> TagFault
        ensures { result ≡ fault_on line self }
    {
        match self {
            Stop::Form(kind) => TagFault::Form { kind, line },
            Stop::Mem => TagFault::Mem,
        }
    }
}

impl From<FormKind> for Stop {
    ghost from_gives = { λ kind stop. stop ≡ stops.Form kind };

    fn from(kind: FormKind) -> Stop {
        Stop::Form(kind)
    }
}

impl From<AllocError> for Stop {
    ghost from_gives = { λ _ stop. stop ≡ stops.Mem };

    fn from(_error: AllocError) -> Stop {
        Stop::Mem
    }
}

impl<T: Drop> From<AllocFailed<T>> for Stop {
    ghost from_gives = { λ _ stop. stop ≡ stops.Mem };

    fn from(_failed: AllocFailed<T>) -> Stop {
        Stop::Mem
    }
}
