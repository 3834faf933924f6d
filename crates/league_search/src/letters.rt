//! Patterns from values of variables.
ghost use Rattle.std.specs.Prelude.{◌≡◌, ◌<◌, ◌+◌, length, IfOk, IsTrue};
ghost use Rattle.league.specs.Counts as counts;
ghost use Rattle.league.specs.Instance.{is_one_side};
ghost use Rattle.encoding.specs.Variables as variables;
ghost use Rattle.encoding.specs.Variables.{var_count};
ghost use Rattle.league_search.specs.Letters as letters;
ghost use Rattle.league_search.specs.Letters.{letters_of, patterns_by};

use encoding::Encoding;
use league::{Side, SlotId, TeamId};
use patterns::{Pattern, PatternSet};
use rows::Assignment;
use std::alloc::{AllocError, Global};

/// The patterns that values show, of variables that are lower by those of games: a team has the letter H where it
/// plays at home.
///
/// # Errors
/// Only where memory runs out.
pub(crate) fn patterns_by(
    alloc: Global,
    encoding: &Encoding,
    values: &Assignment,
    games: u32,
) -> Result<PatternSet, AllocError>
    requires games { games ≡ variables.x_count encoding.now.n }
    requires count { length values.now + games ≡ var_count encoding.now }
    ensures { IfOk result (λ patterns.
        patterns ≡ patterns_by encoding.now.n (letters.lowered games values.now) encoding.now.n) }
{
    let mut patterns = PatternSet::new(alloc);
    for team in 0..encoding.n() {
        patterns.push(pattern_by(alloc, encoding, values, games, TeamId(team))?)?;
    }
    Ok(patterns)
}

/// The pattern of a team.
///
/// # Errors
/// Only where memory runs out.
fn pattern_by(
    alloc: Global,
    encoding: &Encoding,
    values: &Assignment,
    games: u32,
    team: TeamId,
) -> Result<Pattern, AllocError>
    requires games { games ≡ variables.x_count encoding.now.n }
    requires count { length values.now + games ≡ var_count encoding.now }
    requires team { team.0 < encoding.now.n }
    ensures { IfOk result (λ pattern. pattern
        ≡ letters_of encoding.now.n (letters.lowered games values.now) (counts.slot_count encoding.now.n) team.0) }
{
    let mut pattern = Pattern::new(alloc);
    for slot in 0..encoding.slots() {
        let venue = encoding.h(team, SlotId(slot));
        pattern.push(side_of(values.value(venue - games)))?;
    }
    Ok(pattern)
}

/// Where a team plays.
fn side_of(home: bool) -> Side
    ensures side { result ≡ letters.side_of home }
    ensures one_side { IsTrue (is_one_side result) }
{
    if home { Side::H } else { Side::A }
}
