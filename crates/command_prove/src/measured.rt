//! A league that is read, with how many terms its bound rows have.
ghost use Rattle.std.specs.Prelude.{◌≡◌, ◌+◌, ◌≤◌, ℕ, List, length};
ghost use Rattle.robin_io.specs.Counts.{raised};
ghost use Rattle.robin_io.specs.Outside.{store_between};
ghost use Rattle.answers.specs.SeenReply.{MatchStage};
ghost use Rattle.command_prove.specs.Measured.{IsMeasured, IsUnmeasured};

use crate::bound_stages::few_terms;
use answers::{NoValue, file, league_in};
use league::League;
use robin_io::Shelf;
use robinx::INSTANCE_LIMIT;
use std::alloc::Global;

/// A league whose bound rows haven't too many terms.
#[derive(Drop)]
pub(crate) struct Measured {
    pub(crate) league: League,
    /// How many terms the league's bound rows have.
    pub(crate) terms: u64,
}

/// Reads the league of a file, and counts the terms of its bound rows.
///
/// # Errors
/// Where the file is refused, or the terms are too many, with the reply that says so, and where memory runs out.
pub(crate) fn measured_in<S: Shelf>(
    alloc: Global,
    shelf: &mut S,
    instance: &str,
) -> Result<Measured, NoValue>
    ensures stage { MatchStage result
        (λ measured. (bytes : List ℕ)
        × IsMeasured (S.contents shelf.old instance.now) measured.league measured.terms bytes
        × (S.taken shelf.new ≡ raised (S.taken shelf.old) (length bytes)))
        (IsUnmeasured (store_between S.Shelf shelf.old shelf.new) instance.now) }
    ensures taken { S.taken shelf.new ≤ S.taken shelf.old + (INSTANCE_LIMIT + 1) }
    ensures contents { (n : List ℕ) → S.contents shelf.new n ≡ S.contents shelf.old n }
    ensures later { (n : List ℕ) → S.faults shelf.old n ≤ S.faults shelf.new n }
{
    let first = file(alloc, shelf, "instance", instance, INSTANCE_LIMIT)?;
    let league = league_in(alloc, instance, &first)?;
    let terms = few_terms(alloc, &league)?;
    Ok(Measured { league, terms })
}
