//! How many terms the resume rows of a league have.
ghost use Rattle.std.specs.Prelude.{◌≡◌, ◌≤◌};
ghost use Rattle.league.specs.Counts as counts;
ghost use Rattle.resume.specs.Kept as kept;

use encoding::encoding_size;
use league::League;

/// How many terms the rows of a league have whose first k slots are played; they don't depend on the played games. It
/// takes no memory.
pub fn resume_size(league: &League, k: u16) -> u64
    requires { k ≤ counts.slot_count league.now.n }
    ensures { result ≡ kept.resume_size league.now k }
{
    let n = u64::from(league.n());
    encoding_size(league) + n * (n - 1) * u64::from(k)
}
