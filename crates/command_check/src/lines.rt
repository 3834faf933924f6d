//! The lines of the report.
ghost use Rattle.std.specs.Prelude.{◌≡◌, ◌++◌, IfOk, OnOk, string_bytes, sum, codes, decimal};
ghost use Rattle.command_check.specs.Report.{head_text, structure_text, verdict_text};
ghost use Rattle.command_check.specs.Report.{entries_text, constraint_front, constraint_text};

use league::{Constraint, League, Wrongs};
use robinx::type_word;
use std::alloc::{AllocError, Global};

/// The lines that say what was read.
///
/// # Errors
/// Only where memory runs out.
pub fn head(alloc: Global, league: &League, games: usize) -> Result<String, AllocError>
    ensures { IfOk result (λ text. string_bytes text ≡ head_text league.now.n league.now.phased games) }
{
    let n = league.n();
    let slots = league.slots();
    let mode = if league.phased() { "P" } else { "NULL" };
    format!(in alloc; "teams {n}\nslots {slots}\nmode {mode}\ngames {games}\n")
}

/// The line on the round robin.
///
/// # Errors
/// Only where memory runs out.
pub fn structure_line(alloc: Global, wrongs: Wrongs) -> Result<String, AllocError>
    ensures { IfOk result (λ text. string_bytes text
        ≡ structure_text wrongs.pairs_wrong wrongs.cells_wrong wrongs.phases_wrong) }
{
    let pairs = wrongs.pairs_wrong;
    let cells = wrongs.cells_wrong;
    let phases = wrongs.phases_wrong;
    format!(in alloc; "structure pairs {pairs} cells {cells} phases {phases}\n")
}

/// The last lines.
///
/// # Errors
/// Only where memory runs out.
pub fn verdict(
    alloc: Global,
    infeasibility: u128,
    objective: u128,
    feasible: bool,
) -> Result<String, AllocError>
    ensures { IfOk result (λ text. string_bytes text ≡ verdict_text infeasibility objective feasible) }
{
    let word = if feasible { "yes" } else { "no" };
    format!(in alloc; "infeasibility {infeasibility}\nobjective {objective}\nfeasible {word}\n")
}

/// Adds an entry after a space. Most entries are 0.
fn push_entry(text: &mut String, entry: u64) -> Result<(), AllocError>
    ensures { OnOk result (string_bytes text.new ≡ string_bytes text.old ++ (codes " " ++ decimal entry)) }
{
    if entry == 0 {
        text.push_str(" 0")?;
        return Ok(());
    }
    write!(text, " {entry}")?;
    Ok(())
}

/// Adds the entries, each after a space.
fn push_entries(text: &mut String, entries: &[u64]) -> Result<(), AllocError>
    ensures { OnOk result (string_bytes text.new ≡ string_bytes text.old ++ entries_text entries.now) }
{
    for entry in entries {
        push_entry(text, *entry)?;
    }
    Ok(())
}

/// Adds what stands before the entries in the line of a constraint.
fn push_front(
    text: &mut String,
    number: usize,
    constraint: &Constraint,
    deviation: u128,
) -> Result<(), AllocError>
    ensures { OnOk result (string_bytes text.new
        ≡ string_bytes text.old ++ constraint_front number constraint.now deviation) }
{
    let class = constraint.class.name().text();
    let kind = type_word(constraint.hard);
    let penalty = constraint.penalty;
    write!(
        text,
        "constraint {number} {class} {kind} penalty {penalty} sum {deviation} entries"
    )?;
    Ok(())
}

/// Adds the line of a constraint with its deviation, which is the sum of its entries.
///
/// # Errors
/// Only where memory runs out; then nothing is said of the text.
pub fn push_constraint(
    text: &mut String,
    number: usize,
    constraint: &Constraint,
    deviation: u128,
    entries: &[u64],
) -> Result<(), AllocError>
    requires { deviation ≡ sum entries.now }
    ensures { OnOk result (string_bytes text.new
        ≡ string_bytes text.old ++ constraint_text number constraint.now entries.now) }
{
    push_front(text, number, constraint, deviation)?;
    push_entries(text, entries)?;
    text.push_str("\n")?;
    Ok(())
}
