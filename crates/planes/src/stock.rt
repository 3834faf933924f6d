//! The rows of a search, with what each can still reach.
use crate::numbers::as_signed;
use crate::start::Derived;
use crate::trail::Trail;
use rows::{Lit, RowStore, Term, Value};
use std::alloc::{AllocError, Global};

/// A row, and its number in the log. It was learnt from so many levels; a row from which the search began has none.
#[derive(Drop)]
pub(crate) struct Held {
    pub(crate) terms: Vec<Term>,
    pub(crate) degree: i64,
    pub(crate) number: u64,
    pub(crate) levels: usize,
}

/// How much more than its degree the literals of a row sum to that aren't false, and its greatest coefficient.
#[derive(Clone, Copy)]
struct Count {
    slack: i64,
    most: i64,
}

/// Where a literal stands: the place of the row, and the coefficient.
#[derive(Clone, Copy)]
struct Spot {
    row: u32,
    coef: u32,
}

/// The rows at places from 0 on.
#[derive(Drop)]
pub(crate) struct Stock {
    alloc: Global,
    held: Vec<Held>,
    counts: Vec<Count>,
    /// Where each literal stands: first variable 1, then its negation, and so on.
    spots: Vec<Vec<Spot>>,
    /// The places of the rows that lately fell to where they force or are in conflict.
    active: Vec<u32>,
    /// How many rows are learnt and kept.
    pub(crate) learnt: usize,
}

impl Stock {
    /// All rows of a store, which have the numbers from 1 on, and the rows of these steps, over so many variables.
    ///
    /// # Errors
    /// Only where memory runs out.
    pub(crate) fn new(
        alloc: Global,
        rows: &RowStore,
        vars: u32,
        derived: &[Derived],
    ) -> Result<Stock, AllocError> {
        let mut stock = Stock::empty(alloc, vars)?;
        stock.add_all(rows, derived)?;
        Ok(stock)
    }

    /// No row, for so many variables.
    fn empty(alloc: Global, vars: u32) -> Result<Stock, AllocError> {
        let mut spots = Vec::new(alloc);
        for _variable in 0..vars {
            spots.push(Vec::new(alloc))?;
            spots.push(Vec::new(alloc))?;
        }
        Ok(Stock {
            alloc,
            held: Vec::new(alloc),
            counts: Vec::new(alloc),
            spots,
            active: Vec::new(alloc),
            learnt: 0,
        })
    }

    /// The number of places.
    pub(crate) fn len(&self) -> usize {
        self.held.len()
    }

    /// The row at a place, if there is one.
    pub(crate) fn row(&self, at: usize) -> Option<&Held> {
        self.held.get(at)
    }

    /// Adds all rows of a store, and the rows of these steps.
    fn add_all(&mut self, rows: &RowStore, derived: &[Derived]) -> Result<(), AllocError> {
        for place in 0..rows.len() {
            let mut terms = Vec::new(self.alloc);
            terms.extend_from_slice(rows.terms(place))?;
            self.add_given(terms, as_signed(rows.degree(place)), place as u64 + 1)?;
        }
        for row in derived {
            self.add_derived(row)?;
        }
        Ok(())
    }

    /// Adds the row of a step.
    fn add_derived(&mut self, row: &Derived) -> Result<(), AllocError> {
        let mut terms = Vec::new(self.alloc);
        for lit in &row.lits {
            terms.push(Term { coef: 1, lit: *lit })?;
        }
        self.add_given(terms, as_signed(row.degree), row.number)
    }

    /// Adds a row from which the search begins, before anything counts.
    fn add_given(&mut self, terms: Vec<Term>, degree: i64, number: u64) -> Result<(), AllocError> {
        let mut slack = degree.saturating_neg();
        for term in &terms {
            slack = slack.saturating_add(i64::from(term.coef));
        }
        let held = Held {
            terms,
            degree,
            number,
            levels: 0,
        };
        let _at = self.add(held, slack)?;
        Ok(())
    }

    /// Adds a row whose slack is this. The answer is its place.
    ///
    /// # Errors
    /// Only where memory runs out.
    pub(crate) fn add(&mut self, held: Held, slack: i64) -> Result<usize, AllocError> {
        let at = self.held.len();
        let most = list_spots(&mut self.spots, at, &held.terms)?;
        if held.levels > 0 {
            self.learnt = self.learnt.saturating_add(1);
        }
        self.counts.push(Count { slack, most })?;
        self.held.push(held)?;
        Ok(at)
    }

    /// Makes what the entry of a literal forces true, until the first row in conflict, whose place is the answer.
    ///
    /// # Errors
    /// Only where memory runs out.
    pub(crate) fn count(
        &mut self,
        trail: &mut Trail,
        lit: Lit,
    ) -> Result<Option<usize>, AllocError> {
        self.active.clear();
        if let Some(list) = self.spots.get(slot(lit.negate())) {
            count_off(list, &mut self.counts, &mut self.active)?;
        }
        for k in 0..self.active.len() {
            let at = self.active[k] as usize;
            if self.force(trail, at)? {
                return Ok(Some(at));
            }
        }
        Ok(None)
    }

    /// Makes what the row at a place forces true, and says whether it is in conflict.
    ///
    /// # Errors
    /// Only where memory runs out.
    pub(crate) fn force(&self, trail: &mut Trail, at: usize) -> Result<bool, AllocError> {
        let (Some(row), Some(count)) = (self.held.get(at), self.counts.get(at)) else {
            return Ok(false);
        };
        if count.slack < 0 {
            return Ok(true);
        }
        for term in &row.terms {
            if i64::from(term.coef) > count.slack && matches!(trail.value(term.lit), Value::Free) {
                trail.push(term.lit, Some(at))?;
            }
        }
        Ok(false)
    }

    /// The entry of a literal counts no longer.
    pub(crate) fn count_back(&mut self, lit: Lit) {
        if let Some(list) = self.spots.get(slot(lit.negate())) {
            count_on(list, &mut self.counts);
        }
    }

    /// Drops the worse half of the learnt rows of more than two levels, but for those that stand as reasons: first those
    /// from more levels, and of these the older ones.
    ///
    /// # Errors
    /// Only where memory runs out.
    pub(crate) fn drop_half(&mut self, trail: &Trail) -> Result<(), AllocError> {
        let mut order: Vec<(usize, usize)> = Vec::new(self.alloc);
        list_droppable(&self.held, &mut order)?;
        order.sort_unstable();
        self.drop_worse(trail, &order);
        self.list_anew()
    }

    /// Drops the second half of some rows, but for those that stand as reasons.
    fn drop_worse(&mut self, trail: &Trail, order: &[(usize, usize)]) {
        for (rank, worse) in order.iter().enumerate() {
            let at = usize::MAX - worse.1;
            if rank >= order.len() / 2 && !is_reason(trail, at) {
                empty(&mut self.held, at);
                self.learnt = self.learnt.saturating_sub(1);
            }
        }
    }

    /// Lists anew where each literal stands.
    fn list_anew(&mut self) -> Result<(), AllocError> {
        for list in &mut self.spots {
            list.clear();
        }
        for (at, held) in self.held.iter().enumerate() {
            let _most = list_spots(&mut self.spots, at, &held.terms)?;
        }
        Ok(())
    }
}

/// Lists the rows of more than two levels: from how many each was learnt, and how far its place is below the greatest
/// number.
fn list_droppable(held: &[Held], order: &mut Vec<(usize, usize)>) -> Result<(), AllocError> {
    for (at, row) in held.iter().enumerate() {
        if row.levels > 2 && !row.terms.is_empty() {
            order.push((row.levels, usize::MAX - at))?;
        }
    }
    Ok(())
}

/// The place of a literal in the lists.
fn slot(lit: Lit) -> usize {
    let first = (lit.var() as usize - 1) * 2;
    first + usize::from(!lit.positive())
}

/// Lists the literals of the row at a place. The answer is its greatest coefficient.
fn list_spots(spots: &mut [Vec<Spot>], at: usize, terms: &[Term]) -> Result<i64, AllocError> {
    let row = u32::try_from(at).unwrap_or(u32::MAX);
    let mut most = 0;
    for term in terms {
        if let Some(list) = spots.get_mut(slot(term.lit)) {
            list.push(Spot {
                row,
                coef: term.coef,
            })?;
        }
        most = term.coef.max(most);
    }
    Ok(i64::from(most))
}

/// A literal became false that stands there.
fn count_off(
    spots: &[Spot],
    counts: &mut [Count],
    active: &mut Vec<u32>,
) -> Result<(), AllocError> {
    for place in spots {
        if let Some(count) = counts.get_mut(place.row as usize) {
            count.slack = count.slack.saturating_sub(i64::from(place.coef));
            if count.slack < count.most {
                active.push(place.row)?;
            }
        }
    }
    Ok(())
}

/// A literal is false no longer that stands there.
fn count_on(spots: &[Spot], counts: &mut [Count]) {
    for place in spots {
        if let Some(count) = counts.get_mut(place.row as usize) {
            count.slack = count.slack.saturating_add(i64::from(place.coef));
        }
    }
}

/// Whether the row at a place is the reason of an entry.
fn is_reason(trail: &Trail, at: usize) -> bool {
    for place in 0..trail.len() {
        if let Some(entry) = trail.entry(place) {
            if entry.reason == Some(at) {
                return true;
            }
        }
    }
    false
}

/// Takes the terms of a row away.
fn empty(held: &mut [Held], at: usize) {
    if let Some(row) = held.get_mut(at) {
        row.terms.clear();
    }
}
