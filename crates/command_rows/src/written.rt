//! Rows that are ready to be written.
ghost use Rattle.std.specs.Prelude.{◌≡◌, ◌+◌, ◌≤◌, [], length, Some, IfOk, OnOk, OnErr};
ghost use Rattle.std.specs.List.{All};
ghost use Rattle.std.specs.Io.KnownBytes.{Appends};
ghost use Rattle.robin_io.specs.Counts.{HasOneCause};
ghost use Rattle.robin_io.specs.Outside.{output_between};
ghost use Rattle.robin_io.specs.Written.{AppendsPrefix};
ghost use Rattle.answers.specs.Stages.{IsWritten};
ghost use Rattle.answers.specs.declared.status.Status.TheVariants.{Yes};
ghost use Rattle.opb_forms.specs.Opb.{opb_of};
ghost use Rattle.opb_forms.specs.Texts.{opb_text};
ghost use Rattle.command_rows.specs.Rowed.{bound_system, league_system, rows_answer};
ghost use Rattle.command_rows.specs.SeenRows.{HasPrices, system_kept};
ghost use Rattle.bound_rows.specs.BoundRows.{bound_rows, bound_vars};

use answers::Status;
use bound_rows::BoundSystem;
use encoding::Encoding;
use opb_forms::{Waiting, put_system};
use robin_io::{Failed, Sink};
use rows::Term;
use std::alloc::{AllocError, Global};
use std::marker::Model;

/// The rows of a league; or its bound rows, with or without the prices of the units.
#[derive(Drop)]
pub(crate) enum Kept {
    League(Encoding),
    Bound(BoundSystem),
    Least {
        system: BoundSystem,
        prices: Vec<Term>,
    },
}

/// Rows with all that writing them takes. A contract sees the rows alone.
#[derive(Drop)]
pub struct ReadyRows {
    kept: Kept,
    waiting: Waiting,
}

impl Model for ReadyRows {
    ghost use Rattle.std.specs.Prelude.{◌≡◌, []};
    ghost use Rattle.opb_forms.specs.Systems.{System};
    ghost use Rattle.command_rows.specs.SeenRows.{HasPrices, system_kept};

    ghost Value = { System };

    ghost view = { λ r. system_kept r.kept };

    ghost invariant = { λ r. (r.waiting ≡ []) × HasPrices r.kept };
}

impl ReadyRows {
    /// The rows of an encoding, ready to be written.
    ///
    /// # Errors
    /// Only where memory runs out.
    pub(crate) fn of_league(alloc: Global, encoding: Encoding) -> Result<ReadyRows, AllocError>
        ensures { IfOk result (λ ready. ready ≡ league_system encoding) }
    {
        Ok(ReadyRows {
            kept: Kept::League(encoding),
            waiting: Waiting::new(alloc)?,
        })
    }

    /// Bound rows, ready to be written.
    ///
    /// # Errors
    /// Only where memory runs out.
    pub(crate) fn of_bound(alloc: Global, system: BoundSystem) -> Result<ReadyRows, AllocError>
        ensures { IfOk result (λ ready. ready ≡ bound_system system.league system.bound) }
    {
        Ok(ReadyRows {
            kept: Kept::Bound(system),
            waiting: Waiting::new(alloc)?,
        })
    }

    /// Bound rows with prices of the units, whose sum is to be least, ready to be written.
    ///
    /// # Errors
    /// Only where memory runs out.
    pub(crate) fn of_least(
        alloc: Global,
        system: BoundSystem,
        prices: Vec<Term>,
    ) -> Result<ReadyRows, AllocError>
        requires { All (λ t. 1 ≤ t.coef) prices.items }
        ensures { IfOk result (λ ready. ready ≡ record {
          vars = bound_vars system.league;
          least = Some prices.items;
          rows = bound_rows system.league system.bound;
        }) }
    {
        Ok(ReadyRows {
            kept: Kept::Least { system, prices },
            waiting: Waiting::new(alloc)?,
        })
    }
}

/// Writes the text of rows.
fn put_kept<K: Sink>(out: &mut K, waiting: &mut Waiting, kept: &Kept) -> Result<(), Failed>
    requires none { waiting.old ≡ [] }
    requires prices { HasPrices kept.now }
    ensures ok { OnOk result (Appends (K.written out.old) (K.written out.new) (opb_text (system_kept kept.now))) }
    ensures reads_back { OnOk result (opb_of (opb_text (system_kept kept.now)) ≡ Some (system_kept kept.now)) }
    ensures err { OnErr result (AppendsPrefix (K.written out.old) (K.written out.new)
        (opb_text (system_kept kept.now))) }
    ensures cause { HasOneCause (K.faults out.old) (K.faults out.new) result }
    ensures calls { K.calls out.new ≤ K.calls out.old + length (opb_text (system_kept kept.now)) }
{
    match kept {
        Kept::League(encoding) => put_system(out, waiting, encoding.vars(), None, encoding.rows()),
        Kept::Bound(system) => put_system(out, waiting, system.vars(), None, system.rows()),
        Kept::Least { system, prices } => put_system(
            out,
            waiting,
            system.vars(),
            Some(prices.as_slice()),
            system.rows(),
        ),
    }
}

/// Writes the text of rows, which is made as it is written, and says how the run ends. It takes no memory.
///
/// Where the run ends with `Yes`, the text was written whole and says these rows.
pub fn write_rows<K: Sink>(out: &mut K, ready: ReadyRows) -> Status
    ensures written { IsWritten (rows_answer ready) result (output_between K.Sink out.old out.new) }
    ensures reads_back { result ≡ Yes → opb_of (opb_text ready) ≡ Some ready }

    // At most as many puts as the text has bytes.
    ensures calls { K.calls out.new ≤ K.calls out.old + length (rows_answer ready).text }
{
    let ReadyRows { kept, mut waiting } = ready;
    match put_kept(out, &mut waiting, &kept) {
        Ok(()) => Status::Yes,
        Err(_) => Status::WriteFault,
    }
}
