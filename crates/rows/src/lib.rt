//! Pseudo-Boolean rows, "at least so much of weighted literals": literals, rows, assignments, and what a row forces;
//! and sums of rows, each literal against its negation, with the wide rows that they give.
//!
//! A contract sees a literal as its variable and its sign, a `RowStore` as a list of rows, and an assignment as the
//! list of the values of variables 1, 2 and so on. `specs/Rows.antt` and `specs/Partials.antt` say what a row means.
//!
//! A contract sees a `WideTerm` as a term, a `WideRow` as a row, and a `Sum` as the table of what its literals count:
//! `totals_of` is the sum that a table keeps. `specs/Sums.antt` says what a sum is.
#![tactic(auto)]

mod assignment;
mod forcing;
mod lit;
mod partial;
mod row_store;
mod sum;
mod wide;

pub use assignment::Assignment;
pub use forcing::{force, forced, make_true, make_true_if, reach, slack};
pub use lit::{Lit, Term};
pub use partial::{Partial, Value};
pub use row_store::RowStore;
pub use sum::{Sum, SumFault};
pub use wide::{WideRow, WideTerm, wide_force, wide_forced, wide_reach, wide_slack};
