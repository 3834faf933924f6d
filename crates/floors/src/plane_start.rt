//! With what the search begins: in each half of the season all teams but two have a break at least, and a team that is at
//! home in a slot has no away game there.
ghost use Rattle.std.specs.Prelude.{◌≡◌, ◌+◌, ◌<◌, ◌≤◌, IfOk};
ghost use Rattle.std.specs.List.{All};

use bound_rows::needs_breaks;
use break_counts::{Frame, Stretch, Writer, add_clique};
use encoding::{ab_at, h_at, hb_at, x_at};
use league::League;
use planes::{Derived, Start};
use refutation::Part;
use rows::Lit;
use std::alloc::{AllocError, Global};

/// The steps of the law of the fewest breaks behind so many rows, and before them those of the venues if they are asked
/// for, and the rows of all these, where breaks have variables.
///
/// # Errors
/// Only where memory runs out.
pub(crate) fn start_of(
    alloc: Global,
    league: &League,
    rows: u64,
    venues: bool,
) -> Result<Start, AllocError> {
    let mut writer = Writer::new(alloc, rows);
    let mut derived = Vec::new(alloc);
    if needs_breaks(league.constraints()) {
        if venues {
            add_venues(alloc, &mut writer, Frame::new(league), &mut derived)?;
        }
        add_laws(alloc, league, &mut writer, &mut derived)?;
    }
    Ok(Start {
        steps: writer.finish(),
        derived,
    })
}

/// Writes the law for each half of a phased league, or for the season of another.
fn add_laws(
    alloc: Global,
    league: &League,
    writer: &mut Writer,
    derived: &mut Vec<Derived>,
) -> Result<(), AllocError> {
    let frame = Frame::new(league);
    let half = league.n() - 1;
    let first = Stretch {
        first: 0,
        count: if league.phased() { half } else { frame.slots },
    };
    derived.push(law_of(alloc, writer, frame, first)?)?;
    if league.phased() {
        let second = Stretch {
            first: half,
            count: half,
        };
        derived.push(law_of(alloc, writer, frame, second)?)?;
    }
    Ok(())
}

/// Writes that in a stretch in which each two teams meet all teams but two have a break at least.
fn law_of(
    alloc: Global,
    writer: &mut Writer,
    frame: Frame,
    stretch: Stretch,
) -> Result<Derived, AllocError>
    requires some { 1 ≤ stretch.count }
    requires within { stretch.first + stretch.count ≤ frame.slots }
{
    let number = law_row(alloc, writer, frame, stretch)?;
    Ok(Derived {
        lits: breaks_in(alloc, frame, stretch)?,
        degree: u64::from(frame.n).saturating_sub(2),
        number,
    })
}

/// Writes the rows of the law of a stretch, and gives the number of their sum.
fn law_row(
    alloc: Global,
    writer: &mut Writer,
    frame: Frame,
    stretch: Stretch,
) -> Result<u64, AllocError>
    requires some { 1 ≤ stretch.count }
    requires within { stretch.first + stretch.count ≤ frame.slots }
{
    let teams = all_teams(alloc, frame.n)?;
    let home = add_clique(alloc, writer, frame, stretch, true, &teams)?;
    let away = add_clique(alloc, writer, frame, stretch, false, &teams)?;
    sum_of_two(writer, home, away)
}

/// The literals of the breaks of all teams in a stretch.
fn breaks_in(alloc: Global, frame: Frame, stretch: Stretch) -> Result<Vec<Lit>, AllocError>
    requires { stretch.first + stretch.count ≤ frame.slots }
{
    let mut lits = Vec::new(alloc);
    for team in 0..frame.n {
        for slot in stretch.first + 1..stretch.first + stretch.count {
            lits.push(Lit::new(hb_at(frame.n, team, slot), true))?;
            lits.push(Lit::new(ab_at(frame.n, team, slot), true))?;
        }
    }
    Ok(lits)
}

/// Writes of each team and slot that at most one is true of the home venue and the away games there.
fn add_venues(
    alloc: Global,
    writer: &mut Writer,
    frame: Frame,
    derived: &mut Vec<Derived>,
) -> Result<(), AllocError> {
    for team in 0..frame.n {
        for slot in 0..frame.slots {
            let row = venue_of(alloc, writer, frame, team, slot)?;
            derived.push(row)?;
        }
    }
    Ok(())
}

/// Writes it of a team and a slot: the sum of the rows that ask for a home game at a home venue, and for one game at most.
fn venue_of(
    alloc: Global,
    writer: &mut Writer,
    frame: Frame,
    team: u16,
    slot: u16,
) -> Result<Derived, AllocError>
    requires team { team < frame.n }
    requires slot { slot < frame.slots }
{
    let number = sum_of_two(writer, frame.venue(team, slot), frame.one_game(team, slot))?;
    let mut lits = Vec::new(alloc);
    lits.push(Lit::new(h_at(frame.n, team, slot), false))?;
    for home in 0..frame.n {
        if home != team {
            lits.push(Lit::new(x_at(frame.n, home, team, slot), false))?;
        }
    }
    Ok(Derived {
        lits,
        degree: u64::from(frame.n).saturating_sub(1),
        number,
    })
}

/// Writes the sum of two rows, and gives its number.
fn sum_of_two(writer: &mut Writer, first: u64, second: u64) -> Result<u64, AllocError> {
    let parts = [
        Part {
            factor: 1,
            row: first,
        },
        Part {
            factor: 1,
            row: second,
        },
    ];
    writer.sum(&parts, 1)
}

/// The teams of a league of n teams, by their numbers.
fn all_teams(alloc: Global, n: u16) -> Result<Vec<u16>, AllocError>
    ensures { IfOk result (λ teams. All (λ i. i < n) teams.items) }
{
    let mut teams = Vec::with_capacity(alloc, n as usize)?;
    for team in 0..n {
        teams.push(team)?;
    }
    Ok(teams)
}
