//! Clauses of the literals of level 0.
use crate::draft::Draft;
use crate::lists::set_at;
use crate::stock::Stock;
use crate::trail::{Moment, Trail};
use rows::Lit;
use std::alloc::{AllocError, Global};

/// For each variable that has a value at level 0 the number of the step that says so, or 0 where none is planned.
#[derive(Drop)]
pub(crate) struct Units {
    numbers: Vec<u64>,
    /// So many entries of the trail have a step.
    planned: usize,
    hints: Vec<u64>,
}

impl Units {
    /// No step, for so many variables.
    ///
    /// # Errors
    /// Only where memory runs out.
    pub(crate) fn new(alloc: Global, vars: u32) -> Result<Units, AllocError> {
        Ok(Units {
            numbers: vec![in alloc; 0; vars as usize + 1]?,
            planned: 0,
            hints: Vec::new(alloc),
        })
    }

    /// The number of the step of a literal's variable, or 0.
    pub(crate) fn number(&self, lit: Lit) -> u64 {
        self.numbers.get(lit.var() as usize).copied().unwrap_or(0)
    }

    /// Plans the steps of the entries of level 0 that have none yet, in their order.
    ///
    /// # Errors
    /// Only where memory runs out.
    pub(crate) fn plan(
        &mut self,
        trail: &Trail,
        stock: &Stock,
        draft: &mut Draft,
    ) -> Result<(), AllocError> {
        for place in self.planned..trail.len() {
            let Some((lit, reason)) = unit_at(trail, place) else {
                return Ok(());
            };
            self.find_hints(trail, stock, reason, place)?;
            let number = draft.plan_clause(&[lit], &self.hints)?;
            set_at(&mut self.numbers, lit.var() as usize, number);
            self.planned = place.saturating_add(1);
        }
        Ok(())
    }

    /// Plans the empty clause, where a row is in conflict at level 0.
    ///
    /// # Errors
    /// Only where memory runs out.
    pub(crate) fn plan_end(
        &mut self,
        trail: &Trail,
        stock: &Stock,
        draft: &mut Draft,
        row: usize,
    ) -> Result<(), AllocError> {
        self.plan(trail, stock, draft)?;
        self.find_hints(trail, stock, row, trail.len())?;
        let _number = draft.plan_clause(&[], &self.hints)?;
        Ok(())
    }

    /// Finds the steps of the literals of a row that were false before a place, and the row's number behind them.
    fn find_hints(
        &mut self,
        trail: &Trail,
        stock: &Stock,
        row: usize,
        limit: usize,
    ) -> Result<(), AllocError> {
        self.hints.clear();
        let Some(held) = stock.row(row) else {
            return Ok(());
        };
        let moment = Moment::Before { place: limit };
        for term in &held.terms {
            let number = self.number(term.lit);
            if number > 0 && trail.was_false(term.lit, moment) {
                self.hints.push(number)?;
            }
        }
        self.hints.push(held.number)?;
        Ok(())
    }
}

/// The literal of the entry at a place, and the place of the row that forced it, if it is of level 0.
fn unit_at(trail: &Trail, place: usize) -> Option<(Lit, usize)> {
    let entry = trail.entry(place)?;
    let reason = entry.reason?;
    if entry.level > 0 {
        return None;
    }
    Some((entry.lit, reason))
}
