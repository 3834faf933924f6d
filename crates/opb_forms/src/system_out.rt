//! The whole text.
ghost use Rattle.std.specs.Prelude.{◌≡◌, ◌+◌, ◌≤◌, ◌++◌, [], length, OnOk, OnErr, IfSome, Some};
ghost use Rattle.std.specs.Io.KnownBytes.{Appends};
ghost use Rattle.std.specs.List.{All};
ghost use Rattle.robin_io.specs.Counts.{HasOneCause};
ghost use Rattle.robin_io.specs.Written.{AppendsPrefix};
ghost use Rattle.rows.specs.Rows.{IsRow};
ghost use Rattle.opb_forms.specs.Opb.{opb_of};
ghost use Rattle.opb_forms.specs.SeenSystem.{system_of};
ghost use Rattle.opb_forms.specs.Streams.{Sends};
ghost use Rattle.opb_forms.specs.Systems.{IsSmallSystem, IsSmallTerm};
ghost use Rattle.opb_forms.specs.Texts as texts;

use crate::rows_out::{put_rows, put_sum};
use crate::stream::{flush, make_room, send};
use crate::waiting::Waiting;
use robin_io::{Failed, Sink};
use rows::{RowStore, Term};

/// Adds the first line, for which there is room.
fn add_heading(waiting: &mut Waiting, vars: u64, count: u64)
    requires { length waiting.old + 128 ≤ 65536 }
    ensures { waiting.new ≡ waiting.old ++ texts.heading_text vars count }
{
    waiting.add(b"* #variable= ");
    waiting.add_number(vars);
    waiting.add(b" #constraint= ");
    waiting.add_number(count);
    waiting.add(b"\n");
}

/// Sends the first line on its way.
fn put_heading<K: Sink>(
    sink: &mut K,
    waiting: &mut Waiting,
    vars: u64,
    count: u64,
) -> Result<(), Failed>
    ensures { Sends K.Sink sink.old sink.new waiting.old waiting.new (texts.heading_text vars count) result }
{
    make_room(sink, waiting)?;
    add_heading(waiting, vars, count);
    Ok(())
}

/// Sends the line of what is to be least on its way.
fn put_sum_line<K: Sink>(sink: &mut K, waiting: &mut Waiting, terms: &[Term]) -> Result<(), Failed>
    ensures sends { Sends K.Sink sink.old sink.new waiting.old waiting.new (texts.least_text (Some terms.now)) result }
    ensures small { OnOk result (All IsSmallTerm terms.now) }
{
    send(sink, waiting, b"min: ")?;
    put_sum(sink, waiting, terms)?;
    send(sink, waiting, b";\n")
}

/// Sends the line of what is to be least on its way, if anything is.
fn put_least<K: Sink>(
    sink: &mut K,
    waiting: &mut Waiting,
    least: Option<&[Term]>,
) -> Result<(), Failed>
    ensures sends { Sends K.Sink sink.old sink.new waiting.old waiting.new
        (texts.least_text (system_of 0 least.entry []).least) result }
    ensures small { OnOk result (IfSome (system_of 0 least.entry []).least (All IsSmallTerm)) }
{
    match least {
        None => Ok(()),
        Some(terms) => put_sum_line(sink, waiting, terms),
    }
}

/// Sends the whole text on its way, and writes it to its end.
fn put_text<K: Sink>(
    sink: &mut K,
    waiting: &mut Waiting,
    vars: u32,
    least: Option<&[Term]>,
    rows: &RowStore,
) -> Result<(), Failed>
    ensures sends { Sends K.Sink sink.old sink.new waiting.old waiting.new
        (texts.opb_text (system_of vars least.entry rows.now)) result }
    ensures none { OnOk result (waiting.new ≡ []) }
    ensures small { OnOk result (IsSmallSystem (system_of vars least.entry rows.now)) }
    ensures rows { All IsRow rows.now }
{
    put_heading(sink, waiting, u64::from(vars), rows.len() as u64)?;
    put_least(sink, waiting, least)?;
    put_rows(sink, waiting, rows)?;
    flush(sink, waiting)
}

/// Writes rows of so many variables, and what is to be least, if anything is: the true literals' coefficients. It takes
/// no memory; what waits is none before.
///
/// # Errors
/// Only where the sink failed: then a prefix of the text was written.
pub fn put_system<K: Sink>(
    sink: &mut K,
    waiting: &mut Waiting,
    vars: u32,
    least: Option<&[Term]>,
    rows: &RowStore,
) -> Result<(), Failed>
    requires none { waiting.old ≡ [] }
    requires coefs { IfSome (system_of 0 least []).least (All (λ t. 1 ≤ t.coef)) }
    ensures ok { OnOk result (Appends (K.written sink.old) (K.written sink.new)
        (texts.opb_text (system_of vars least.entry rows.now))) }

    // The text says these rows, and nothing else.
    ensures reads_back { OnOk result
        (opb_of (texts.opb_text (system_of vars least.entry rows.now))
        ≡ Some (system_of vars least.entry rows.now)) }
    ensures err { OnErr result (AppendsPrefix (K.written sink.old) (K.written sink.new)
        (texts.opb_text (system_of vars least.entry rows.now))) }
    ensures cause { HasOneCause (K.faults sink.old) (K.faults sink.new) result }

    // At most as many puts as the text has bytes.
    ensures calls { K.calls sink.new
        ≤ K.calls sink.old + length (texts.opb_text (system_of vars least.entry rows.now)) }
{
    put_text(sink, waiting, vars, least, rows)
}
