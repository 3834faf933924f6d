//! Equal rows of sums, kept once.
ghost use Rattle.std.specs.Prelude.{◌≡◌, IfOk, IfSome, true};
ghost use Rattle.refutation.specs.declared.step.StepKind.{StepKind as Kind};
ghost use Rattle.refutation.specs.declared.step.StepKind.TheVariants as kinds;
ghost use Rattle.refutation_check.specs.Kept.{IsOfKind, judged_step, row_result};

use crate::kept::KeptStep;
use crate::row_hash::row_hash;
use refutation::Cause;
use rows::{Term, WideRow, WideTerm};
use std::alloc::{AllocError, Global};
use std::mem;

/// How many places a table notes.
const PLACES: usize = 65536;

/// Where rows of sums stand: by the remainder of its hash, the place of the last such row. It is empty until the first
/// sum comes. Nothing rests on what it says: the row at a place is compared before it is shared.
#[derive(Drop)]
pub(crate) struct RowPlaces {
    noted: Vec<usize>,
}

impl RowPlaces {
    /// No row yet. It takes no memory.
    pub(crate) fn new(alloc: Global) -> RowPlaces {
        RowPlaces {
            noted: Vec::new(alloc),
        }
    }

    /// What was found of the step that comes behind these, with the row of an earlier step for its own where the two
    /// are equal and the table knows it.
    ///
    /// # Errors
    /// Only where memory runs out.
    pub(crate) fn share(
        &mut self,
        found: Result<KeptStep, Cause>,
        steps: &[KeptStep],
    ) -> Result<Result<KeptStep, Cause>, AllocError>
        ensures row { IfOk result (λ shared. row_result shared ≡ row_result found) }
        ensures kind { (kind : Kind) → IsOfKind kind found → IfOk result (IsOfKind kind) }
    {
        match found {
            Ok(step) => {
                let earlier = self.note(row_hash(&step), steps.len())?;
                Ok(Ok(share_with(step, steps.get(earlier))?))
            }
            Err(cause) => Ok(Err(cause)),
        }
    }

    /// Notes that a row with this hash stands at a place, and says which place was noted for the hash before.
    ///
    /// # Errors
    /// Only where memory runs out.
    fn note(&mut self, hash: u64, place: usize) -> Result<usize, AllocError> {
        if self.noted.is_empty() {
            self.noted.resize(PLACES, 0)?;
        }
        match self.noted.get_mut((hash % PLACES as u64) as usize) {
            Some(before) => Ok(mem::replace(before, place)),
            None => Ok(place),
        }
    }
}

/// The step, with the row of an earlier step for its own where that is equal.
///
/// # Errors
/// Only where memory runs out.
fn share_with(step: KeptStep, earlier: Option<&KeptStep>) -> Result<KeptStep, AllocError>
    ensures { IfOk result (λ shared. judged_step shared ≡ judged_step step) }
{
    let Some(earlier) = earlier else {
        return Ok(step);
    };
    match equal_sum(&step, earlier)? {
        Some(shared) => Ok(shared),
        None => Ok(step),
    }
}

/// A step with the row of an earlier one, where that is a sum's and equal to the row of `step`.
///
/// # Errors
/// Only where memory runs out.
fn equal_sum(step: &KeptStep, earlier: &KeptStep) -> Result<Option<KeptStep>, AllocError>
    ensures { IfOk result (λ found. IfSome found (λ shared. judged_step shared ≡ judged_step step.now)) }
{
    match step {
        KeptStep::Tautology | KeptStep::Clause { .. } => Ok(None),
        KeptStep::Narrow { terms, degree } => equal_narrow(terms, *degree, earlier),
        KeptStep::Wide { row } => equal_wide(row, earlier),
    }
}

/// A sum with the narrow row of an earlier one, where that has these terms and this degree.
///
/// # Errors
/// Only where memory runs out.
fn equal_narrow(
    terms: &[Term],
    degree: u64,
    earlier: &KeptStep,
) -> Result<Option<KeptStep>, AllocError>
    ensures { IfOk result (λ found. IfSome found (λ shared. judged_step shared
        ≡ record { row = record { terms = terms.now; degree = degree }; kind = kinds.Linear })) }
{
    match earlier {
        KeptStep::Narrow {
            terms: kept,
            degree: kept_degree,
        } if degree == *kept_degree && are_same(kept, terms) => Ok(Some(KeptStep::Narrow {
            terms: kept.clone()?,
            degree: *kept_degree,
        })),
        _ => Ok(None),
    }
}

/// A sum with the wide row of an earlier one, where that is this row.
///
/// # Errors
/// Only where memory runs out.
fn equal_wide(row: &WideRow, earlier: &KeptStep) -> Result<Option<KeptStep>, AllocError>
    ensures { IfOk result (λ found. IfSome found (λ shared. judged_step shared
        ≡ record { row = row.now; kind = kinds.Linear })) }
{
    match earlier {
        KeptStep::Wide { row: kept } if is_same(kept, row) => {
            Ok(Some(KeptStep::Wide { row: kept.clone()? }))
        }
        _ => Ok(None),
    }
}

/// Whether these are the same terms in the same order.
fn are_same(terms: &[Term], others: &[Term]) -> bool
    ensures { result ≡ true → terms.now ≡ others.now }
{
    if terms.len() != others.len() {
        return false;
    }
    for (k, term) in terms.iter().enumerate() {
        if *term != others[k] {
            return false;
        }
    }
    true
}

/// Whether these are the same wide row.
fn is_same(row: &WideRow, other: &WideRow) -> bool
    ensures { result ≡ true → row.now ≡ other.now }
{
    row.degree() == other.degree() && are_same_wide(row.terms(), other.terms())
}

/// Whether these are the same wide terms in the same order.
fn are_same_wide(wide: &[WideTerm], others: &[WideTerm]) -> bool
    ensures { result ≡ true → wide.now ≡ others.now }
{
    if wide.len() != others.len() {
        return false;
    }
    for (k, term) in wide.iter().enumerate() {
        if *term != others[k] {
            return false;
        }
    }
    true
}
