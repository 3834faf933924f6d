//! The rows that say: all but one of some teams begin a stretch on the other side, or have a break that ends their
//! alternation.
ghost use Rattle.std.specs.Prelude.{◌+◌, ◌<◌, ◌≤◌};
ghost use Rattle.std.specs.List.{All};

use crate::frame::Frame;
use crate::stretch::Stretch;
use crate::writer::Writer;
use encoding::{ab_at, h_at, hb_at};
use refutation::Part;
use rows::Lit;
use std::alloc::{AllocError, Global};

/// Literals of which one is true, and the rows from which that follows.
#[derive(Drop)]
struct Claim {
    clause: Vec<Lit>,
    hints: Vec<u64>,
}

impl Claim {
    /// No literal, and no row.
    fn new(alloc: Global) -> Claim {
        Claim {
            clause: Vec::new(alloc),
            hints: Vec::new(alloc),
        }
    }

    /// Adds the literals and the rows of another claim.
    ///
    /// # Errors
    /// Only where memory runs out.
    fn extend(&mut self, other: &Claim) -> Result<(), AllocError> {
        self.clause.extend_from_slice(&other.clause)?;
        self.hints.extend_from_slice(&other.hints)
    }
}

/// A team that begins a stretch on one side and alternates: the literals of which one is true where it doesn't, and the
/// rows by which it meets no other team that does so too.
#[derive(Drop)]
struct Alternation {
    team: u16,
    claim: Claim,
}

/// The teams so far, and the number of a row over all their literals. It says that at least as many of these are true as
/// there are teams but one.
#[derive(Drop)]
struct Clique {
    teams: Vec<Alternation>,
    row: u64,
}

impl Clique {
    /// Adds a team: a clause for each pair with an earlier one, and their sum with the row so far.
    ///
    /// # Errors
    /// Only where memory runs out.
    fn add(
        &mut self,
        alloc: Global,
        writer: &mut Writer,
        frame: Frame,
        stretch: Stretch,
        here: Alternation,
    ) -> Result<(), AllocError> {
        if !self.teams.is_empty() {
            self.row = add_team(alloc, writer, frame, stretch, self, &here)?;
        }
        self.teams.push(here)?;
        Ok(())
    }
}

/// Adds the clauses of each two of these teams and their sums, and gives the number of the row of all of them.
///
/// # Errors
/// Only where memory runs out.
pub fn add_clique(
    alloc: Global,
    writer: &mut Writer,
    frame: Frame,
    stretch: Stretch,
    home: bool,
    teams: &[u16],
) -> Result<u64, AllocError>
    requires some { 1 ≤ stretch.count }
    requires within { stretch.first + stretch.count ≤ frame.slots }
    requires teams { All (λ i. i < frame.n) teams.now }
{
    let mut clique = Clique {
        teams: Vec::new(alloc),
        row: 0,
    };
    for team in teams {
        let here = alternation_of(alloc, writer, frame, stretch, home, *team)?;
        clique.add(alloc, writer, frame, stretch, here)?;
    }
    Ok(clique.row)
}

/// Adds a clause for each pair of a team with an earlier one, and their sum with the row so far. The answer is the number
/// of that sum.
fn add_team(
    alloc: Global,
    writer: &mut Writer,
    frame: Frame,
    stretch: Stretch,
    clique: &Clique,
    here: &Alternation,
) -> Result<u64, AllocError> {
    let count = clique.teams.len() as u64;
    let mut parts = Vec::new(alloc);
    if count > 1 {
        parts.push(Part {
            factor: count - 1,
            row: clique.row,
        })?;
    }
    for other in &clique.teams {
        let row = add_pair(alloc, writer, frame, stretch, other, here)?;
        parts.push(Part { factor: 1, row })?;
    }
    writer.sum(&parts, count.max(1))
}

/// Adds the clause that two teams don't both begin on the same side and alternate: else they never meet.
fn add_pair(
    alloc: Global,
    writer: &mut Writer,
    frame: Frame,
    stretch: Stretch,
    first: &Alternation,
    second: &Alternation,
) -> Result<u64, AllocError> {
    let meeting = meeting_row(writer, frame, stretch, first.team, second.team)?;
    let mut claim = Claim::new(alloc);
    add_claim(writer, &mut claim, &first.claim, &second.claim, meeting)
}

/// Adds the clause that one of two claims holds, by a further row.
fn add_claim(
    writer: &mut Writer,
    claim: &mut Claim,
    first: &Claim,
    second: &Claim,
    row: u64,
) -> Result<u64, AllocError> {
    claim.extend(first)?;
    claim.extend(second)?;
    claim.hints.push(row)?;
    writer.clause(&claim.clause, &claim.hints)
}

/// The number of a row that says that two teams meet in a stretch. In the second half they do since they meet at both
/// venues, and in the first half no more than once.
fn meeting_row(
    writer: &mut Writer,
    frame: Frame,
    stretch: Stretch,
    first: u16,
    second: u16,
) -> Result<u64, AllocError> {
    if !frame.phased {
        return Ok(frame.meeting(first, second));
    }
    let half = frame.half(first, second);
    if stretch.first == 0 {
        return Ok(half);
    }
    let parts = [
        Part {
            factor: 1,
            row: frame.meeting(first, second),
        },
        Part {
            factor: 1,
            row: frame.meeting(second, first),
        },
        Part {
            factor: 1,
            row: half + 1,
        },
    ];
    writer.sum(&parts, 1)
}

/// What is said of a team that begins on a side and alternates.
fn alternation_of(
    alloc: Global,
    writer: &mut Writer,
    frame: Frame,
    stretch: Stretch,
    home: bool,
    team: u16,
) -> Result<Alternation, AllocError>
    requires some { 1 ≤ stretch.count }
    requires within { stretch.first + stretch.count ≤ frame.slots }
    requires team { team < frame.n }
{
    let mut claim = Claim::new(alloc);
    add_breaks(frame, stretch, home, team, &mut claim)?;
    add_no_games(writer, frame, stretch, home, team, &mut claim.hints)?;
    Ok(Alternation { team, claim })
}

/// Adds the literals that a team begins on the other side, and that it has a break that ends its alternation, and the rows
/// of these breaks.
fn add_breaks(
    frame: Frame,
    stretch: Stretch,
    home: bool,
    team: u16,
    claim: &mut Claim,
) -> Result<(), AllocError>
    requires some { 1 ≤ stretch.count }
    requires within { stretch.first + stretch.count ≤ frame.slots }
    requires team { team < frame.n }
{
    let begin = Lit::new(h_at(frame.n, team, stretch.first), !home);
    claim.clause.push(begin)?;
    let mut at_home = home;
    for slot in stretch.first + 1..stretch.first + stretch.count {
        let (literal, row) = ending_break(frame, team, slot, at_home);
        claim.clause.push(literal)?;
        claim.hints.push(row)?;
        at_home = !at_home;
    }
    Ok(())
}

/// The break at a slot that ends the alternation of a team that is at home, or away, in the slot before: its literal, and
/// the number of its row.
fn ending_break(frame: Frame, team: u16, slot: u16, home: bool) -> (Lit, u64)
    requires team { team < frame.n }
    requires later { 1 ≤ slot }
    requires slot { slot < frame.slots }
{
    let number = frame.home_break(team, slot);
    if home {
        (Lit::new(hb_at(frame.n, team, slot), true), number)
    } else {
        (Lit::new(ab_at(frame.n, team, slot), true), number + 3)
    }
}

/// Adds the rows by which a team that alternates plays at no other team's venue, or has no home game, slot by slot.
fn add_no_games(
    writer: &mut Writer,
    frame: Frame,
    stretch: Stretch,
    home: bool,
    team: u16,
    hints: &mut Vec<u64>,
) -> Result<(), AllocError>
    requires { stretch.first + stretch.count ≤ frame.slots }
{
    let mut at_home = home;
    for slot in stretch.first..stretch.first + stretch.count {
        hints.push(no_game(writer, frame, team, slot, at_home)?)?;
        at_home = !at_home;
    }
    Ok(())
}

/// The number of a row by which a team that is at home plays at no other team's venue, or one that isn't has no home
/// game.
fn no_game(
    writer: &mut Writer,
    frame: Frame,
    team: u16,
    slot: u16,
    at_home: bool,
) -> Result<u64, AllocError> {
    let venue = frame.venue(team, slot);
    if !at_home {
        return Ok(venue + 1);
    }
    let one = Part {
        factor: 1,
        row: frame.one_game(team, slot),
    };
    writer.sum(
        &[
            Part {
                factor: 1,
                row: venue,
            },
            one,
        ],
        1,
    )
}
