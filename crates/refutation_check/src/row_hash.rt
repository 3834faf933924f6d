//! A hash of the row of a step, by which equal rows are looked for. Rows with different hashes differ.
use crate::kept::KeptStep;
use rows::{Lit, Term, WideTerm};
use std::hash::{FoldHasher, Hasher};

/// The hash of a step's row. It reads each term once.
pub(crate) fn row_hash(step: &KeptStep) -> u64 {
    match step {
        KeptStep::Tautology => narrow_hash(&[], 0),
        KeptStep::Clause { terms } => narrow_hash(terms, 1),
        KeptStep::Narrow { terms, degree } => narrow_hash(terms, *degree),
        KeptStep::Wide { row } => wide_hash(row.terms(), row.degree()),
    }
}

/// The hash of a narrow row.
fn narrow_hash(terms: &[Term], degree: u64) -> u64 {
    let mut hasher = FoldHasher::default();
    hasher.write_u64(degree);
    for term in terms {
        hasher.write_u32(term.coef);
        hasher.write_u32(word_of(term.lit));
    }
    hasher.finish()
}

/// The hash of a wide row.
fn wide_hash(terms: &[WideTerm], degree: u128) -> u64 {
    let mut hasher = FoldHasher::default();
    hasher.write_u128(degree);
    for term in terms {
        hasher.write_u128(term.coef);
        hasher.write_u32(word_of(term.lit));
    }
    hasher.finish()
}

/// A number of the literal alone.
fn word_of(lit: Lit) -> u32 {
    2 * lit.var() + u32::from(lit.positive())
}
