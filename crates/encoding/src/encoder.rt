//! From a league to its encoding.
ghost use Rattle.std.specs.Prelude.{◌≡◌, ◌<◌, ◌≤◌, IfOk, IsErr};
ghost use Rattle.encoding.specs.Encoding.{encoding_size};
ghost use Rattle.encoding.specs.Limit.{KeepsLimit, most_terms};

use crate::encoding::Encoding;
use crate::totals::encoding_size;
use crate::variables::has_breaks;
use crate::writer::{Written, write_rows};
use league::League;
use std::alloc::{AllocError, Global};
use thiserror::Error;

/// The most terms that the rows of a league have, whichever rows they are (own limit).
pub const MOST_TERMS: u64 = 40_000_000;

/// Why a league has no encoding.
#[derive(Debug, Drop, Error)]
pub enum EncodeFault {
    /// The league's rows have so many terms, more than 40,000,000.
    #[error("the encoding has {terms} terms, more than 40000000")]
    TooLarge { terms: u64 },
    /// Memory ran out.
    #[error("out of memory")]
    Mem,
}

impl From<AllocError> for EncodeFault {
    ghost use Rattle.std.specs.Prelude.{◌≡◌};
    ghost use Rattle.encoding.specs.declared.encoder.EncodeFault.TheVariants as faults;

    ghost from_gives = { λ _ fault. fault ≡ faults.Mem };

    fn from(_: AllocError) -> EncodeFault {
        EncodeFault::Mem
    }
}

/// The number of terms of a league's rows, where that is at most 40,000,000. It takes no memory.
///
/// # Errors
/// `TooLarge` exactly where the rows have more than 40,000,000 terms, with their number; nothing else.
pub fn check_size(league: &League) -> Result<u64, EncodeFault>
    ensures terms { IfOk result (λ terms. terms ≡ encoding_size league.now) }
    ensures limit { KeepsLimit (encoding_size league.now) result }
    ensures only { IsErr result → most_terms < encoding_size league.now }
{
    let terms = encoding_size(league);
    if terms > MOST_TERMS {
        return Err(EncodeFault::TooLarge { terms });
    }
    Ok(terms)
}

/// The encoding of a league. Its terms are counted before any row is made, which takes no memory: where there are too
/// many, that is the answer.
///
/// # Errors
/// `TooLarge` exactly where the rows have more than 40,000,000 terms, with their number; else only where memory runs
/// out.
pub fn encode(alloc: Global, league: &League) -> Result<Encoding, EncodeFault>
    ensures league { IfOk result (λ encoding. encoding ≡ league.now) }
    ensures limit { KeepsLimit (encoding_size league.now) result }
{
    let terms = check_size(league)?;
    let encoding = written(alloc, league, terms)?;
    Ok(encoding)
}

/// The encoding of a league whose rows have at most 40,000,000 terms: `check_size` tells.
///
/// # Errors
/// Only where memory runs out.
pub fn encode_small(alloc: Global, league: &League) -> Result<Encoding, AllocError>
    requires { encoding_size league.now ≤ most_terms }
    ensures { IfOk result (λ encoding. encoding ≡ league.now) }
{
    written(alloc, league, encoding_size(league))
}

/// The encoding of a league, with room for so many terms.
///
/// # Errors
/// Only where memory runs out.
fn written(alloc: Global, league: &League, terms: u64) -> Result<Encoding, AllocError>
    ensures { IfOk result (λ encoding. encoding ≡ league.now) }
{
    let Written { rows, starts } = write_rows(alloc, league, terms)?;
    let breaks = has_breaks(league.constraints());
    let league = league.copy()?;
    Ok(Encoding {
        league,
        rows,
        breaks,
        starts,
    })
}
