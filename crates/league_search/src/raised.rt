//! Logs over pattern rows, said of all rows.
ghost use Rattle.std.specs.Prelude.{◌≡◌, ℕ, ◌+◌, ◌^◌, ◌<◌, ◌≤◌, false, length, map, IfOk, slice_index};
ghost use Rattle.std.specs.List.{All, filter_map};
ghost use Rattle.refutation.specs.Steps.{clause_of, hints_of, is_linear};
ghost use Rattle.league_search.specs.Raised as numbering;
ghost use Rattle.league_search.specs.Raised.{raised_literal, raised_steps};

use refutation::Log;
use rows::Lit;
use std::alloc::{AllocError, Global};

/// A log over the pattern rows, whose variables are so many lower, said of all rows: `numbers` are the numbers of the
/// pattern rows among all, which are so many. A hint that is the number of nothing is left out: it can only stand
/// behind the row in conflict.
///
/// # Errors
/// Only where memory runs out.
pub(crate) fn raised(
    alloc: Global,
    log: &Log,
    games: u32,
    numbers: &[u64],
    all: usize,
) -> Result<Log, AllocError>
    requires known { All (λ step. All (λ l. l.var + games ≤ 2147483647) (clause_of step)) log.now }
    requires clauses { All (λ step. is_linear step ≡ false) log.now }
    ensures steps { IfOk result (λ raised. raised ≡ raised_steps games numbers.now all 0 log.now) }
    ensures small { IfOk result (All (λ step. All (λ hint. hint < 2 ^ 64) (hints_of step))) }
{
    let mut raised = Log::new(alloc);
    for k in 0..log.len() {
        let clause = raised_clause(alloc, log.clause(k), games)?;
        let hints = raised_hints(alloc, log.hints(k), numbers, all, k)?;
        raised.push(&clause, &hints)?;
    }
    Ok(raised)
}

/// The literals of a clause with variables that are higher by the number of variables of games.
fn raised_clause(alloc: Global, clause: &[Lit], games: u32) -> Result<Vec<Lit>, AllocError>
    requires { All (λ l. l.var + games ≤ 2147483647) clause.now }
    ensures { IfOk result (λ raised. raised.items ≡ map (raised_literal games) clause.now) }
{
    let mut raised = Vec::with_capacity(alloc, clause.len())?;
    for lit in clause {
        raised.push(Lit::new(lit.var() + games, lit.positive()))?;
    }
    Ok(raised)
}

/// The numbers among all rows and the steps behind them of what these hints name, where so many steps stand.
fn raised_hints(
    alloc: Global,
    hints: &[u64],
    numbers: &[u64],
    all: usize,
    before: usize,
) -> Result<Vec<u64>, AllocError>
    ensures numbers { IfOk result (λ raised.
        raised.items ≡ filter_map (numbering.number_of numbers.now all before) hints.now) }
    ensures small { IfOk result (λ raised. All (λ hint. hint < 2 ^ 64) raised.items) }
{
    let mut raised = Vec::with_capacity(alloc, hints.len())?;
    for hint in hints {
        if let Some(number) = number_of(*hint, numbers, all, before)? {
            raised.push(number)?;
        }
    }
    are_words(&raised);
    Ok(raised)
}

/// What is known of each of some words: that it is below the bound of words.
fn are_words(words: &[u64])
    ensures { (k : ℕ) → slice_index words.now k < 2 ^ 64 }
{}

/// The number among all rows and the steps behind them of what has this number among the pattern rows and these steps,
/// if there is something of that number where so many steps stand.
///
/// # Errors
/// Only where there are too many rows and steps for a number of 64 bits: so many don't fit into memory.
fn number_of(
    hint: u64,
    numbers: &[u64],
    all: usize,
    before: usize,
) -> Result<Option<u64>, AllocError>
    ensures { IfOk result (λ number. number ≡ numbering.number_of numbers.now all before hint) }
{
    let rows = numbers.len() as u64;
    if hint == 0 {
        return Ok(None);
    }
    if hint <= rows {
        return Ok(Some(numbers[hint as usize - 1]));
    }
    let step = hint - rows;
    if step > before as u64 {
        return Ok(None);
    }
    match step.checked_add(all as u64) {
        Some(number) => Ok(Some(number)),
        None => Err(AllocError),
    }
}
