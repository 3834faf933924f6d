//! The entries of a rule.
ghost use Rattle.std.specs.Prelude.{◌≡◌, ◌≤◌, ◌+◌, map, IfOk};
ghost use Rattle.std.specs.List.{range_with_len};
ghost use Rattle.rule_core.specs.Table.{table_counts};

use rule_core::{Cells, Rule, Steps};
use std::alloc::{AllocError, Global};

/// The entries of a rule on these counts, in the order of their keys: a step for each.
///
/// # Errors
/// Only where memory runs out.
pub fn entries_of<L, R: Rule<L>>(
    alloc: Global,
    rule: &R,
    cells: &Cells,
    steps: &mut Steps<L>,
) -> Result<Vec<u64>, AllocError>
    requires teams { cells.now.n ≡ R.team_count rule.now }
    ensures entries { IfOk result (λ entries. entries.items
        ≡ map (λ k. R.entry rule.now k (table_counts cells.now)) (range_with_len 0 (R.term_count rule.now))) }
    ensures steps { steps.new ≤ steps.old + R.term_count rule.now }
{
    let mut entries = Vec::with_capacity(alloc, rule.terms())?;
    rule.every(cells, &mut entries, steps);
    Ok(entries)
}
