//! Rows that say nothing but that a literal counts at least 0. A literal is taken out of a row (weakening) by adding the
//! row of its negation.
//!
//! No step of a log is such a row as it stands. But the sum of a clause that holds a group and a literal, and of the row
//! that at most one of the group is true, is one: all of the group cancels, and the degree with it.
use crate::draft::Draft;
use crate::groups::{Groups, groups_of};
use crate::lists::set_at;
use crate::parts::Parts;
use rows::{Lit, RowStore};
use std::alloc::{AllocError, Global};

/// Two groups with no variable in common, and for each literal the number of its row, or 0 where that isn't derived yet.
/// It only guides what is planned.
#[derive(Drop)]
pub(crate) struct Axioms {
    /// The literals of the first group, and the number of the row that says that at least one of them is true. The next
    /// row says that at most one is. There is no literal where there are no such groups.
    first: Vec<Lit>,
    least: u64,
    /// Two literals of the second group, and the number of the row that says that at most one of it is true.
    one: Lit,
    other: Lit,
    most: u64,
    numbers: Vec<u64>,
    /// The number of the row of these two literals, or 0.
    base: u64,
    clause: Vec<Lit>,
    sum: Parts,
}

impl Axioms {
    /// No row yet, over these rows and so many variables.
    ///
    /// # Errors
    /// Only where memory runs out.
    pub(crate) fn new(alloc: Global, rows: &RowStore, vars: u32) -> Result<Axioms, AllocError> {
        let mut axioms = Axioms {
            first: Vec::new(alloc),
            least: 0,
            one: Lit::new(1, true),
            other: Lit::new(1, true),
            most: 0,
            numbers: vec![in alloc; 0; 2 * vars as usize + 2]?,
            base: 0,
            clause: Vec::new(alloc),
            sum: Parts::new(alloc),
        };
        if let Some(groups) = groups_of(rows) {
            axioms.take_groups(rows, &groups)?;
        }
        Ok(axioms)
    }

    /// Takes the groups.
    fn take_groups(&mut self, rows: &RowStore, groups: &Groups) -> Result<(), AllocError> {
        add_literals(rows, groups.least, &mut self.first)?;
        self.least = (groups.least as u64).saturating_add(1);
        self.one = groups.one;
        self.other = groups.other;
        self.most = (groups.others as u64).saturating_add(2);
        Ok(())
    }

    /// The number of the row that a literal counts at least 0. It is planned where it isn't there yet. Where it can't be,
    /// the answer is 0, and the draft lacks a row.
    ///
    /// # Errors
    /// Only where memory runs out.
    pub(crate) fn number(&mut self, draft: &mut Draft, lit: Lit) -> Result<u64, AllocError> {
        if self.first.is_empty() {
            draft.lacks_row = true;
            return Ok(0);
        }
        let slot = lit.var() as usize * 2 + usize::from(!lit.positive());
        let known = self.numbers.get(slot).copied().unwrap_or(0);
        if known > 0 {
            return Ok(known);
        }
        let number = self.derive(draft, lit)?;
        set_at(&mut self.numbers, slot, number);
        Ok(number)
    }

    /// Plans the steps of a literal's row. The answer is the row's number.
    fn derive(&mut self, draft: &mut Draft, lit: Lit) -> Result<u64, AllocError> {
        let one = self.one;
        let other = self.other;
        if lit.var() == one.var() || lit.var() == other.var() {
            return self.around_first(draft, &[lit]);
        }
        if self.base == 0 {
            let base = self.around_first(draft, &[one, other])?;
            self.base = base;
        }
        let hint = self.most;
        let base = self.base;
        let clause = draft.plan_clause(&[one.negate(), other.negate(), lit], &[hint])?;
        both(draft, &mut self.sum, clause, base)
    }

    /// Plans the row of some literals that aren't in the first group: from its clause with them behind it, and at most
    /// one of it. The answer is the row's number.
    fn around_first(&mut self, draft: &mut Draft, lits: &[Lit]) -> Result<u64, AllocError> {
        self.clause.clear();
        self.clause.extend_from_slice(&self.first)?;
        self.clause.extend_from_slice(lits)?;
        let least = self.least;
        let clause = draft.plan_clause(&self.clause, &[least])?;
        both(draft, &mut self.sum, clause, least.saturating_add(1))
    }
}

/// Adds the literals of the row at a place, if there is one.
fn add_literals(rows: &RowStore, place: usize, lits: &mut Vec<Lit>) -> Result<(), AllocError> {
    if place >= rows.len() {
        return Ok(());
    }
    for term in rows.terms(place) {
        lits.push(term.lit)?;
    }
    Ok(())
}

/// Plans the sum of two rows. The answer is its number.
fn both(draft: &mut Draft, sum: &mut Parts, one: u64, other: u64) -> Result<u64, AllocError> {
    sum.begin(one)?;
    sum.add(1, other)?;
    draft.plan_sum(sum, 1)
}
