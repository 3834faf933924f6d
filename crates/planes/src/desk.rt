//! What a search keeps.
ghost use Rattle.std.specs.Prelude.{◌≡◌, min, OnOk};
ghost use Rattle.planes.specs.Trails.{level_of};

use crate::axioms::Axioms;
use crate::draft::Draft;
use crate::order::Order;
use crate::plane::Plane;
use crate::reason::Reason;
use crate::restarts::Restarts;
use crate::start::Start;
use crate::stock::Stock;
use crate::trail::Trail;
use crate::units::Units;
use refutation::Log;
use rows::{Lit, RowStore};
use std::alloc::{AllocError, Global};

/// The rows, what is true, what guides the search, and the steps so far.
pub(crate) struct Desk {
    pub(crate) stock: Stock,
    pub(crate) trail: Trail,
    pub(crate) order: Order,
    pub(crate) restarts: Restarts,
    pub(crate) tools: Tools,
}

impl Drop for Desk {
    fn drop(self) {
        let Desk {
            stock: _,
            trail: _,
            order: _,
            restarts: _,
            tools: _,
        } = self;
    }
}

/// With what a conflict is analyzed.
pub(crate) struct Tools {
    pub(crate) units: Units,
    pub(crate) plane: Plane,
    pub(crate) axioms: Axioms,
    pub(crate) reason: Reason,
    pub(crate) draft: Draft,
    pub(crate) lits: Vec<Lit>,
    pub(crate) levels: Vec<usize>,
}

impl Drop for Tools {
    fn drop(self) {
        let Tools {
            plane: _,
            reason: _,
            axioms: _,
            units: _,
            draft: _,
            lits: _,
            levels: _,
        } = self;
    }
}

impl Tools {
    /// No row yet, for a search over these rows and so many variables, whose log begins with these steps.
    ///
    /// # Errors
    /// Only where memory runs out.
    fn new(alloc: Global, rows: &RowStore, vars: u32, steps: Log) -> Result<Tools, AllocError> {
        Ok(Tools {
            units: Units::new(alloc, vars)?,
            plane: Plane::new(alloc, vars)?,
            axioms: Axioms::new(alloc, rows, vars)?,
            reason: Reason::new(alloc),
            draft: Draft::new(steps, rows.len() as u64),
            lits: Vec::new(alloc),
            levels: Vec::new(alloc),
        })
    }
}

impl Desk {
    /// The desk of a search over these rows and so many variables, which begins so.
    ///
    /// # Errors
    /// Only where memory runs out.
    pub(crate) fn new(
        alloc: Global,
        rows: &RowStore,
        vars: u32,
        start: Start,
    ) -> Result<Desk, AllocError> {
        let Start { steps, derived } = start;
        Ok(Desk {
            stock: Stock::new(alloc, rows, vars, &derived)?,
            trail: Trail::new(alloc, vars)?,
            order: Order::new(alloc, vars)?,
            restarts: Restarts::new(),
            tools: Tools::new(alloc, rows, vars, steps)?,
        })
    }

    /// Goes back to the end of a level.
    ///
    /// # Errors
    /// Only where memory runs out.
    pub(crate) fn back_to(&mut self, level: usize) -> Result<(), AllocError>
        ensures level { OnOk result (level_of self.new.trail ≡ min level (level_of self.old.trail)) }
        ensures tools { self.new.tools ≡ self.old.tools }
    {
        'entries: for _entry in self.trail.end_of(level)..self.trail.len() {
            self.take_back()?;
        }
        self.trail.leave(level);
        Ok(())
    }

    /// Takes the last entry of the trail back.
    fn take_back(&mut self) -> Result<(), AllocError>
        ensures level { level_of self.new.trail ≡ level_of self.old.trail }
        ensures tools { self.new.tools ≡ self.old.tools }
    {
        let Some((lit, did_count)) = self.trail.pop() else {
            return Ok(());
        };
        if did_count {
            self.stock.count_back(lit);
        }
        self.order.release(lit)
    }

    /// Plans the steps of what is true at level 0.
    ///
    /// # Errors
    /// Only where memory runs out.
    pub(crate) fn plan_units(&mut self) -> Result<(), AllocError> {
        let tools = &mut self.tools;
        tools.units.plan(&self.trail, &self.stock, &mut tools.draft)
    }

    /// Makes all true that rows force. The answer is the place of the first row in conflict, if there is one.
    ///
    /// # Errors
    /// Only where memory runs out.
    pub(crate) fn settle(&mut self, vars: u32) -> Result<Option<usize>, AllocError> {
        for _entry in 0..vars {
            let Some(entry) = self.trail.count_next() else {
                return Ok(None);
            };
            let conflict = self.stock.count(&mut self.trail, entry.lit)?;
            if conflict.is_some() {
                return Ok(conflict);
            }
        }
        Ok(None)
    }
}
