//! What a step of a log is made of. A clause follows by reverse unit propagation with hints, as in LRAT. A linear step
//! is one of cutting planes (Cook, Coullard and Turán 1987).

/// Which kind of step a step is.
#[derive(Clone, Copy, Debug, PartialEq, Eq)]
pub enum StepKind {
    /// A clause, which follows from rows by its hints.
    Clause,
    /// A sum of rows, divided.
    Linear,
}

/// A row that a linear step adds, so many times.
#[derive(Clone, Copy, Debug, PartialEq, Eq)]
pub struct Part {
    pub factor: u64,
    /// The row's number, from 1.
    pub row: u64,
}

const _: () = prove!(size_of::<Part>() == 16);
