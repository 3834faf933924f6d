//! Whether the venue counts of a league refute it.
ghost use Rattle.std.specs.Prelude.{◌≡◌, ◌≤◌, ◌↔◌, true, is_some, IfOk, IfSome, IsSome};
ghost use Rattle.std.specs.List.{All};
ghost use Rattle.league.specs.Instance.{IsInstance};
ghost use Rattle.encoding.specs.Limit.{most_terms};
ghost use Rattle.encoding.specs.Encoding.{encoding_size, rows_of};
ghost use Rattle.refutation.specs.Steps.{NamesRows};
ghost use Rattle.refutation.specs.Writable.{HasShortLines};
ghost use Rattle.venue_counts.specs.CountLogs.{AddsUp, IsCrowdedCount, IsRefuting, IsShortCount, counted_rows};
ghost use Rattle.venue_counts.specs.Groups.{IsGroup};
ghost use Rattle.venue_counts.specs.Needs.{IsCount, counts_home, exceeds, need_of};
ghost use Rattle.venue_counts.specs.VenueCounts.{are_crowded, are_short};

use crate::group::Group;
use crate::groups::groups_of;
use crate::limit::Limit;
use crate::log::log_of;
use encoding::encode_small;
use league::League;
use refutation::Log;
use std::alloc::{AllocError, Global};

/// Some exactly where the venue counts of a league are short: the log of two steps that refutes it. Its first step adds
/// up, for some slots and a side, the row of each slot and the row of each team that may play there less often than the
/// slots are; the second is the empty clause. It takes the time of one walk over the constraints; the league's rows are
/// written only where they are short.
///
/// # Errors
/// Only where memory runs out.
pub fn venue_count(alloc: Global, league: &League) -> Result<Option<Log>, AllocError>
    requires small { encoding_size league.now ≤ most_terms }
    ensures short { IfOk result (λ found. IsSome found ↔ (are_short league.now ≡ true)) }
    ensures counted { IfOk result (λ found. IfSome found (IsShortCount league.now)) }
    ensures refuting { IfOk result (λ found. IfSome found (IsRefuting league.now)) }

    // What holds of every league.
    ensures instance { IsInstance league.now }
{
    count(alloc, league, Limit::Most)
}

/// Some exactly where the venue counts of a league are crowded: the log of two steps that refutes it, which adds up the
/// rows of some slots, and of the teams that have to play there on a side: together more often than there are games. The
/// league's rows are written only where they are crowded.
///
/// # Errors
/// Only where memory runs out.
pub fn venue_count_low(alloc: Global, league: &League) -> Result<Option<Log>, AllocError>
    requires small { encoding_size league.now ≤ most_terms }
    ensures crowded { IfOk result (λ found. IsSome found ↔ (are_crowded league.now ≡ true)) }
    ensures counted { IfOk result (λ found. IfSome found (IsCrowdedCount league.now)) }
    ensures refuting { IfOk result (λ found. IfSome found (IsRefuting league.now)) }

    // What holds of every league.
    ensures instance { IsInstance league.now }
{
    count(alloc, league, Limit::Least)
}

/// Some exactly where the teams need more games at a venue, by one of the two bounds, than there are: the log of two
/// steps that refutes the league.
fn count(alloc: Global, league: &League, limit: Limit) -> Result<Option<Log>, AllocError>
    requires small { encoding_size league.now ≤ most_terms }
    ensures instance { IsInstance league.now }
    ensures exceeds { IfOk result (λ found. is_some found ≡ exceeds limit league.now.n league.now.constraints) }
    ensures counted { IfOk result (λ found. IfSome found (IsCount limit league.now)) }
    ensures refuting { IfOk result (λ found. IfSome found (IsRefuting league.now)) }
{
    let n = league.n();
    let groups = groups_of(alloc, league, limit)?;
    for group in &groups {
        if group.exceeds(n) {
            let log = log_by(alloc, league, group, limit)?;
            return Ok(Some(log));
        }
    }
    Ok(None)
}

/// The log of a group over the rows of a league.
fn log_by(alloc: Global, league: &League, group: &Group, limit: Limit) -> Result<Log, AllocError>
    requires small { encoding_size league.now ≤ most_terms }
    requires group { IsGroup limit league.now.n league.now.constraints group.now }
    ensures adds_up { IfOk result (AddsUp (rows_of league.now)
        (counted_rows league.now.n (counts_home limit group.now.side) group.now.slots.now
        (need_of limit league.now.constraints group.now.side group.now.slots.now))) }
    ensures named { IfOk result (All NamesRows) }
    ensures short { IfOk result HasShortLines }
{
    let encoding = encode_small(alloc, league)?;
    let log = log_of(alloc, &encoding, group, limit)?;
    Ok(log)
}
