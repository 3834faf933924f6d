//! The worked clauses.
ghost use Rattle.std.specs.Prelude.{IfOk};
ghost use Rattle.std.specs.List.{All};
ghost use Rattle.propagate.specs.Trails.{KnowsVariables};

use rows::{Lit, RowStore};
use std::alloc::{AllocError, Global};

/// How many variables there are.
pub const VARS: u32 = 7;

/// The clauses, each of two variables and whether they are to be true: either 3 is false or 4 true, and so on. All six
/// together can't be satisfied, the first five can.
const CLAUSES: [(u32, bool, u32, bool); 6] = [
    (3, false, 4, true),
    (4, false, 5, true),
    (4, false, 6, true),
    (5, false, 6, false),
    (4, true, 7, true),
    (4, true, 7, false),
];

/// The clauses, or all but the last.
pub fn worked_clauses(alloc: Global, whole: bool) -> Result<RowStore, AllocError>
    ensures { IfOk result (All (KnowsVariables VARS)) }
{
    let mut rows = RowStore::new(alloc);
    for (first, is_first, second, is_second) in &CLAUSES[..if whole { 6 } else { 5 }] {
        add_clause(&mut rows, (*first, *is_first), (*second, *is_second))?;
    }
    Ok(rows)
}

/// Adds a clause of two literals, if they have different variables of these.
fn add_clause(
    rows: &mut RowStore,
    first: (u32, bool),
    second: (u32, bool),
) -> Result<(), AllocError>
    requires { All (KnowsVariables VARS) rows.old }
    ensures { All (KnowsVariables VARS) rows.new }
{
    let ((one, is_one), (other, is_other)) = (first, second);
    if 0 < one && one < other && other <= VARS && rows.len() < 100 {
        rows.push_at_least(&[Lit::new(one, is_one), Lit::new(other, is_other)], 1)?;
    }
    Ok(())
}
