//! Which row values miss.
ghost use Rattle.std.specs.Prelude.{◌≡◌, ◌≤◌, if◌then◌else◌, length};
ghost use Rattle.rows.specs.Rows as meaning;
ghost use Rattle.rows.specs.Tests.{satisfied};
ghost use Rattle.rows.specs.Values.{assigned};
ghost use Rattle.encoding.specs.Known.{AreKnown, IsKnown};
ghost use Rattle.command_rows.specs.Valued as valued;

use rows::{Assignment, Lit, RowStore, Term};

/// Whether a literal is true.
fn is_true(lit: Lit, values: &Assignment) -> bool
    requires { lit.var ≤ length values.now }
    ensures { result ≡ meaning.is_true (assigned values.now) lit }
{
    if lit.positive() {
        values.value(lit.var())
    } else {
        !values.value(lit.var())
    }
}

/// What a term counts: its coefficient where its literal is true.
fn counted(term: Term, values: &Assignment) -> u64
    requires { term.lit.var ≤ length values.now }
    ensures { result ≡ (if meaning.is_true (assigned values.now) term.lit then term.coef else 0) }
{
    if is_true(term.lit, values) {
        u64::from(term.coef)
    } else {
        0
    }
}

/// Whether values meet a row.
fn is_met(terms: &[Term], degree: u64, values: &Assignment) -> bool
    requires { IsKnown (length values.now) (record { terms = terms.now; degree = degree }) }
    ensures { result ≡ satisfied (assigned values.now) (record { terms = terms.now; degree = degree }) }
{
    let mut left = degree;
    for term in terms {
        left = left.saturating_sub(counted(*term, values));
    }
    left == 0
}

/// The number, from 1, of the first row that values miss.
pub(crate) fn missed_row(rows: &RowStore, values: &Assignment) -> Option<usize>
    requires { AreKnown (length values.now) rows.now }
    ensures { result ≡ valued.missed_from 1 rows.now (assigned values.now) }
{
    for k in 0..rows.len() {
        if !is_met(rows.terms(k), rows.degree(k), values) {
            return Some(k + 1);
        }
    }
    None
}
