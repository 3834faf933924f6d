//! What a search keeps beside its trail and its log.
ghost use Rattle.std.specs.Prelude.{◌≡◌, ◌^◌, ◌<◌, ◌≤◌, [], map, IfOk, OnOk};
ghost use Rattle.std.specs.List.{All};
ghost use Rattle.clause_search.specs.Kept.{named};

use crate::kept::Kept;
use crate::names::name_all;
use crate::order::Order;
use crate::restarts::Restarts;
use crate::role::Role;
use rows::Lit;
use std::alloc::{AllocError, Global};

/// What guides a search, and the lists with which conflicts are analyzed: each analysis uses the memory of the one
/// before.
pub(crate) struct Desk {
    pub(crate) order: Order,
    pub(crate) restarts: Restarts,
    /// The part of each place of the trail in the last conflict.
    pub(crate) roles: Vec<Role>,
    /// The places that have a part in it.
    pub(crate) parts: Vec<usize>,
    /// The clause that was learnt last, from how many levels its literals come, and its hints as the trail numbers rows.
    pub(crate) clause: Vec<Lit>,
    pub(crate) levels: u32,
    pub(crate) hints: Vec<u64>,
    /// The hints of the clause as the log numbers rows.
    pub(crate) names: Vec<u64>,
    /// How many rows stand before the learnt clauses.
    pub(crate) given: u64,
    pub(crate) kept: Kept,
}

impl Drop for Desk {
    fn drop(self) {
        let Desk {
            order: _,
            restarts: _,
            roles: _,
            parts: _,
            clause: _,
            levels: _,
            hints: _,
            names: _,
            given: _,
            kept: _,
        } = self;
    }
}

impl Desk {
    /// The desk of a search over so many rows and variables, which decides the preferred literals first.
    ///
    /// # Errors
    /// Only where memory runs out.
    pub(crate) fn new(
        alloc: Global,
        given: u64,
        vars: u32,
        prefer: &[Lit],
    ) -> Result<Desk, AllocError>
        requires few { vars ≤ 2147483647 }
        requires preferred { All (λ l. l.var ≤ vars) prefer.now }
        ensures vars { IfOk result (λ desk. desk.order.vars ≡ vars) }
        ensures given { IfOk result (λ desk. desk.given ≡ given) }
        ensures kept { IfOk result (λ desk. desk.kept.places.items ≡ []) }
    {
        let order = Order::new(alloc, vars, prefer)?;
        Ok(Desk {
            order,
            restarts: Restarts::new(),
            roles: Vec::new(alloc),
            parts: Vec::new(alloc),
            clause: Vec::new(alloc),
            levels: 0,
            hints: Vec::new(alloc),
            names: Vec::new(alloc),
            given,
            kept: Kept::new(alloc),
        })
    }

    /// Works out what the log's numbers of the hints are.
    ///
    /// # Errors
    /// Only where memory runs out.
    pub(crate) fn name_hints(&mut self) -> Result<(), AllocError>
        ensures clause { self.new.clause.items ≡ self.old.clause.items }
        ensures given { self.new.given ≡ self.old.given }
        ensures vars { self.new.order.vars ≡ self.old.order.vars }
        ensures kept { self.new.kept.places.items ≡ self.old.kept.places.items }
        ensures room { self.new.kept.room ≡ self.old.kept.room }
        ensures names { OnOk result (self.new.names.items
            ≡ map (named self.old.given self.old.kept.places.items) self.old.hints.items) }
        ensures small { OnOk result (All (λ name. name < 2 ^ 64) self.new.names.items) }
    {
        name_all(&self.hints, self.given, &self.kept.places, &mut self.names)?;
        Ok(())
    }
}
