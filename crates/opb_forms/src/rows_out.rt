//! The text of rows.
ghost use Rattle.std.specs.Prelude.{◌≡◌, ◌+◌, ◌≤◌, ◌++◌, ◌^◌, ◌<◌, ◌∷◌, [], codes, length, decimal, OnOk, IfSome, slice_get};
ghost use Rattle.std.specs.List.{All};
ghost use Rattle.opb_forms.specs.Streams.{Sends};
ghost use Rattle.opb_forms.specs.Systems.{IsSmallRow, IsSmallTerm};
ghost use Rattle.opb_forms.specs.Texts as texts;

use crate::stream::{make_room, send};
use crate::waiting::Waiting;
use robin_io::{Failed, Sink};
use rows::{Lit, RowStore, Term};

/// Adds a literal, for which there is room.
fn add_literal(waiting: &mut Waiting, lit: Lit)
    requires { length waiting.old + 22 ≤ 65536 }
    ensures text { waiting.new ≡ waiting.old ++ texts.literal_text lit }
    ensures short { length waiting.new ≤ length waiting.old + 22 }
    ensures var { lit.var < 2 ^ 64 }
{
    if !lit.positive() {
        waiting.add(b"~");
    }
    waiting.add(b"x");
    waiting.add_number(u64::from(lit.var()));
}

/// Adds a term, for which there is room.
fn add_term(waiting: &mut Waiting, term: Term)
    requires { length waiting.old + 128 ≤ 65536 }
    ensures text { waiting.new ≡ waiting.old ++ texts.term_text term }
    ensures small { IsSmallTerm term }
{
    waiting.add(b"+");
    waiting.add_number(u64::from(term.coef));
    waiting.add(b" ");
    add_literal(waiting, term.lit);
    waiting.add(b" ");
}

/// Sends a term on its way.
fn put_term<K: Sink>(sink: &mut K, waiting: &mut Waiting, term: Term) -> Result<(), Failed>
    ensures sends { Sends K.Sink sink.old sink.new waiting.old waiting.new (texts.term_text term) result }
    ensures small { OnOk result (IsSmallTerm term) }
{
    make_room(sink, waiting)?;
    add_term(waiting, term);
    Ok(())
}

/// Sends terms on their way.
fn put_terms<K: Sink>(sink: &mut K, waiting: &mut Waiting, terms: &[Term]) -> Result<(), Failed>
    ensures sends { Sends K.Sink sink.old sink.new waiting.old waiting.new (texts.terms_text terms.now) result }
    ensures small { OnOk result (All IsSmallTerm terms.now) }
{
    for term in terms {
        put_term(sink, waiting, *term)?;
    }
    Ok(())
}

/// Sends a sum on its way.
pub(crate) fn put_sum<K: Sink>(
    sink: &mut K,
    waiting: &mut Waiting,
    terms: &[Term],
) -> Result<(), Failed>
    ensures sends { Sends K.Sink sink.old sink.new waiting.old waiting.new (texts.sum_text terms.now) result }
    ensures small { OnOk result (All IsSmallTerm terms.now) }
{
    if terms.is_empty() {
        return send(sink, waiting, b"+0 x1 ");
    }
    put_terms(sink, waiting, terms)
}

/// Adds the end of a row, for which there is room.
fn add_end(waiting: &mut Waiting, degree: u64)
    requires { length waiting.old + 128 ≤ 65536 }
    ensures { waiting.new ≡ waiting.old ++ texts.end_text degree }
{
    waiting.add(b">= ");
    waiting.add_number(degree);
    waiting.add(b" ;\n");
}

/// Sends the end of a row on its way.
fn put_end<K: Sink>(sink: &mut K, waiting: &mut Waiting, degree: u64) -> Result<(), Failed>
    ensures { Sends K.Sink sink.old sink.new waiting.old waiting.new (texts.end_text degree) result }
{
    make_room(sink, waiting)?;
    add_end(waiting, degree);
    Ok(())
}

/// Sends a row on its way.
fn put_row<K: Sink>(
    sink: &mut K,
    waiting: &mut Waiting,
    terms: &[Term],
    degree: u64,
) -> Result<(), Failed>
    ensures sends { Sends K.Sink sink.old sink.new waiting.old waiting.new
        (texts.row_text (record { terms = terms.now; degree = degree })) result }
    ensures small { OnOk result (IsSmallRow (record { terms = terms.now; degree = degree })) }
{
    put_sum(sink, waiting, terms)?;
    put_end(sink, waiting, degree)
}

/// Sends rows on their way.
pub(crate) fn put_rows<K: Sink>(
    sink: &mut K,
    waiting: &mut Waiting,
    rows: &RowStore,
) -> Result<(), Failed>
    ensures sends { Sends K.Sink sink.old sink.new waiting.old waiting.new (texts.rows_text rows.now) result }
    ensures small { OnOk result (All IsSmallRow rows.now) }
{
    for k in 0..rows.len() {
        put_row(sink, waiting, rows.terms(k), rows.degree(k))?;
    }
    Ok(())
}
