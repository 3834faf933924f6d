//! Which constraints a log names: a guess at a smaller contradiction.
ghost use Rattle.std.specs.Prelude.{◌≡◌, ◌≤◌, ◌<◌, ℕ, true, false, length, IfOk};
ghost use Rattle.std.specs.List.{All, slice_index_or};
ghost use Rattle.std.specs.Ordering.{nat_cmp};
ghost use Rattle.league.specs.Sets.{IsAscending};
ghost use Rattle.encoding.specs.Encoding.{encoding_size};
ghost use Rattle.explain.specs.Parts.{is_hard_number, part_of};
ghost use Rattle.encoding.specs.Limit.{most_terms};
ghost use Rattle.explain.specs.Used.{AreNamed};

use crate::attempt::known_part;
use crate::used::marked;
use encoding::{Encoding, encode_small};
use league::League;
use refutation::Log;
use std::alloc::{AllocError, Global};
use std::ops::Range;

/// The numbers of those constraints of whose rows the log of their league uses one, in order.
///
/// # Errors
/// Only where memory runs out.
pub(crate) fn named(
    alloc: Global,
    league: &League,
    numbers: &[u32],
    log: &Log,
) -> Result<Vec<u32>, AllocError>
    requires ascending { IsAscending nat_cmp numbers.now }
    requires hard { All (λ k. is_hard_number league.now.constraints k ≡ true) numbers.now }
    requires small { encoding_size (part_of league.now numbers.now) ≤ most_terms }
    ensures { IfOk result (λ named. AreNamed (part_of league.now numbers.now) numbers.now log.now named.items) }
{
    let whole = known_part(alloc, league, numbers)?;
    let encoding = encode_small(alloc, &whole)?;
    named_of(alloc, &encoding, numbers, log)
}

/// The numbers of those constraints of an encoded league of whose rows a log uses one, in order. The league's constraints
/// have these numbers in turn.
///
/// # Errors
/// Only where memory runs out.
fn named_of(
    alloc: Global,
    encoding: &Encoding,
    numbers: &[u32],
    log: &Log,
) -> Result<Vec<u32>, AllocError>
    requires { length encoding.now.constraints ≡ length numbers.now }
    ensures { IfOk result (λ named. AreNamed encoding.now numbers.now log.now named.items) }
{
    let flags = marked(alloc, encoding.rows().len(), log)?;
    let mut named = Vec::new(alloc);
    for place in 0..numbers.len() {
        if has_flag(&flags, encoding.rows_of_constraint(place)) {
            named.push(numbers[place])?;
        }
    }
    Ok(named)
}

/// Whether a flag is set at one of some places.
fn has_flag(flags: &[bool], places: Range<usize>) -> bool
    requires order { places.start ≤ places.end }
    requires within { places.end ≤ length flags.now }
    ensures set { result ≡ true → (place : ℕ)
        × ((places.start ≤ place) × (place < places.end) × (slice_index_or flags.now place false ≡ true)) }
    ensures unset { result ≡ false → (place : ℕ) → places.start ≤ place → place < places.end
        → slice_index_or flags.now place false ≡ false }
{
    for place in places.start..places.end {
        if flags[place] {
            return true;
        }
    }
    false
}
