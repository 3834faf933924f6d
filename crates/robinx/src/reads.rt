// What the elements of a kind of file mean.
ghost use Rattle.robinx.specs.Answers.{Changes};

use crate::attribute::Attrs;
use crate::element::Element;
use crate::tag_fault::Stop;
use std::alloc::Global;

/// What is read of a file, element by element, as the walk over its pieces finds them.
///
/// `meaning` says what a Start and an End make of what was read before, or what fault they are.
pub trait Reads {
    ghost use Rattle.robinx.specs.Walk.{Meaning};

    ghost meaning: { Meaning Self };

    /// A Start with its attributes.
    ///
    /// # Errors
    /// `Form` exactly where `meaning` has that fault; `Mem` where memory runs out.
    fn started(&mut self, alloc: Global, element: Element, attrs: &Attrs) -> Result<(), Stop>
        ensures { Changes (meaning.started element attrs.now self.old) result self.new };

    /// An End with the element's value, which is empty but for the three elements whose text is one.
    ///
    /// # Errors
    /// `Form` exactly where `meaning` has that fault.
    fn ended(&mut self, element: Element, value: &[u8]) -> Result<(), Stop>
        ensures { Changes (meaning.ended element value.now self.old) result self.new };
}
