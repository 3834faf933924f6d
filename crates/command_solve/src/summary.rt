//! The lines before a schedule.
ghost use Rattle.std.specs.Prelude.{◌≡◌, IfOk, string_bytes};
ghost use Rattle.command_solve.specs.Trial as texts;

use std::alloc::{AllocError, Global};

/// The lines on a league.
///
/// # Errors
/// Only where memory runs out.
pub(crate) fn league_lines(
    alloc: Global,
    n: u16,
    seed: u64,
    constraints: usize,
) -> Result<String, AllocError>
    ensures { IfOk result (λ lines. string_bytes lines ≡ texts.league_lines n seed constraints) }
{
    format!(in alloc; "trial {n} {seed}\nconstraints {constraints}\n")
}

/// The lines on a schedule.
///
/// # Errors
/// Only where memory runs out.
pub(crate) fn found_lines(
    alloc: Global,
    objective: u128,
    first: u128,
    moves: usize,
    settled: bool,
) -> Result<String, AllocError>
    ensures { IfOk result (λ lines. string_bytes lines ≡ texts.found_lines objective first moves settled) }
{
    if settled {
        format!(in alloc;
            "result schedule\nobjective {objective}\nfirst {first}\nmoves {moves}\nsettled yes\n"
        )
    } else {
        format!(in alloc;
            "result schedule\nobjective {objective}\nfirst {first}\nmoves {moves}\nsettled no\n"
        )
    }
}
