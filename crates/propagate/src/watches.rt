//! Clauses that are watched at two literals. These are the two watched literals of Chaff (Moskewicz, Madigan, Zhao,
//! Zhang and Malik 2001): nothing is mended when levels are taken off.
ghost use Rattle.std.specs.Prelude.{◌≡◌, ◌+◌, ◌-◌, ◌*◌, ◌^◌, ◌<◌, ◌≤◌, ◌++◌, [], ◌∷◌, length, replicate, IfOk, OnOk};
ghost use Rattle.std.specs.Prelude.{slice_index_or, slice_set};
ghost use Rattle.std.specs.Vec.{vec_capacity};
ghost use Rattle.rows.specs.Codes.{code_of};
ghost use Rattle.propagate.specs.Watches.{AreHung, HasRoomForNodes, IsPairPushed, IsSameWatches, node_at, partner_of};

use crate::hang::Pair;
use crate::link::slot;
use rows::Lit;
use std::alloc::{AllocError, Global};

/// A watched literal of a clause. The clause's other one stands beside it: an even place and the next.
#[derive(Clone, Copy)]
pub(crate) struct Node {
    pub(crate) lit: Lit,
    /// The clause's place among the rows, from 0.
    pub(crate) row: usize,
    /// One above the place of the next node with the same literal, or 0 where there is none.
    pub(crate) next: usize,
}

/// For each literal the clauses that are watched at it.
#[derive(Drop)]
pub(crate) struct Watches {
    /// For each literal one above the place of its first node, or 0.
    pub(crate) firsts: Vec<usize>,
    pub(crate) nodes: Vec<Node>,
    /// How many rows, from the first one on, need no look of their own: they were given, or they are watched, or a
    /// literal of them is true for good.
    pub(crate) hung: usize,
}

impl Watches {
    /// No clause, behind so many rows.
    ///
    /// # Errors
    /// Only where memory runs out.
    pub(crate) fn new(alloc: Global, vars: u32, given: usize) -> Result<Watches, AllocError>
        ensures firsts { IfOk result (λ w. w.firsts.items ≡ replicate (2 * vars + 2) 0) }
        ensures nodes { IfOk result (λ w. w.nodes.items ≡ []) }
        ensures hung { IfOk result (λ w. w.hung ≡ given) }
    {
        Ok(Watches {
            firsts: vec![in alloc; 0; 2 * vars as usize + 2]?,
            nodes: Vec::new(alloc),
            hung: given,
        })
    }

    /// Makes room for the nodes of the clauses that have none, where there is to be one more than among so many rows.
    ///
    /// # Errors
    /// Only where memory runs out.
    pub(crate) fn reserve(&mut self, rows: usize) -> Result<(), AllocError>
        requires hung { self.old.hung ≤ rows }
        requires few { rows + 1 < 2 ^ 64 }
        ensures same { IsSameWatches self.old self.new }
        ensures room { OnOk result (HasRoomForNodes self.new (rows + 1)) }
    {
        let clauses = rows + 1 - self.hung;
        self.nodes.reserve(clauses.saturating_mul(2))?;
        Ok(())
    }

    /// Takes the list of a literal off. The answer is what led to its first node.
    pub(crate) fn take_off(&mut self, at: usize) -> usize
        requires { at < length self.old.firsts.items }
        ensures first { result ≡ slice_index_or self.old.firsts.items at 0 }
        ensures firsts { self.new.firsts.items ≡ slice_set self.old.firsts.items at 0 }
        ensures nodes { self.new.nodes.items ≡ self.old.nodes.items }
        ensures hung { self.new.hung ≡ self.old.hung }
        ensures room { vec_capacity self.old.nodes ≤ vec_capacity self.new.nodes }
    {
        let first = self.firsts[at];
        self.firsts[at] = 0;
        first
    }

    /// Hangs a node, which is in no list, into that of a literal, which it watches from now on.
    pub(crate) fn hang(&mut self, place: usize, lit: Lit)
        requires there { place < length self.old.nodes.items }
        requires slot { code_of lit < length self.old.firsts.items }
        ensures nodes { self.new.nodes.items ≡ slice_set self.old.nodes.items place (record {
          lit = lit;
          row = (node_at self.old.nodes.items place).row;
          next = slice_index_or self.old.firsts.items (code_of lit) 0;
        }) }
        ensures firsts { self.new.firsts.items ≡ slice_set self.old.firsts.items (code_of lit) (place + 1) }
        ensures hung { self.new.hung ≡ self.old.hung }
        ensures room { vec_capacity self.old.nodes ≤ vec_capacity self.new.nodes }
    {
        let at = slot(lit);
        let row = self.nodes[place].row;
        self.nodes[place] = Node {
            lit,
            row,
            next: self.firsts[at],
        };
        self.firsts[at] = place + 1;
    }

    /// Adds the nodes of the next clause, which watch these literals, and hangs them into the lists.
    pub(crate) fn push_pair(&mut self, pair: Pair, row: usize)
        requires room { length self.old.nodes.items + 2 ≤ vec_capacity self.old.nodes }
        requires few { row + 1 < 2 ^ 64 }
        requires next { self.old.hung ≡ row }
        requires first { code_of pair.first < length self.old.firsts.items }
        requires second { code_of pair.second < length self.old.firsts.items }
        requires hung { AreHung self.old.firsts.items self.old.nodes.items [] }
        ensures hung { AreHung self.new.firsts.items self.new.nodes.items [] }
        ensures nodes { IsPairPushed self.old.nodes.items self.new.nodes.items pair row }
        ensures slots { length self.new.firsts.items ≡ length self.old.firsts.items }
        ensures more { self.new.hung ≡ row + 1 }
        ensures capacity { vec_capacity self.old.nodes ≤ vec_capacity self.new.nodes }
    {
        self.push(pair.first, row);
        self.push(pair.second, row);
        self.hung = row + 1;
    }

    /// Adds a node and hangs it into the list of its literal.
    fn push(&mut self, lit: Lit, row: usize)
        requires room { length self.old.nodes.items < vec_capacity self.old.nodes }
        requires slot { code_of lit < length self.old.firsts.items }
        ensures nodes { self.new.nodes.items ≡ self.old.nodes.items ++ record {
          lit = lit;
          row = row;
          next = slice_index_or self.old.firsts.items (code_of lit) 0;
        } ∷ [] }
        ensures firsts { self.new.firsts.items
            ≡ slice_set self.old.firsts.items (code_of lit) (length self.old.nodes.items + 1) }
        ensures hung { self.new.hung ≡ self.old.hung }
        ensures room { vec_capacity self.old.nodes ≤ vec_capacity self.new.nodes }
    {
        let at = slot(lit);
        let place = self.nodes.len();
        let pushed = self.nodes.push(Node {
            lit,
            row,
            next: self.firsts[at],
        });
        pushed.unwrap();
        self.firsts[at] = place + 1;
    }
}

/// The place of the other node of a node's clause.
pub(crate) fn partner(place: usize) -> usize
    ensures { result ≡ partner_of place }
{
    if place % 2 == 0 { place + 1 } else { place - 1 }
}
