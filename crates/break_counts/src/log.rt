//! The log of a shortage.
ghost use Rattle.std.specs.Prelude.{◌+◌, ◌<◌, ◌≤◌, IfOk};
ghost use Rattle.std.specs.List.{All};
ghost use Rattle.break_counts.specs.Tables.{AreInSeason};

use crate::bounds::{bound_row, least_bound};
use crate::clique::add_clique;
use crate::cover::{covers, has};
use crate::frame::Frame;
use crate::stretch::Stretch;
use crate::sums::Sum;
use crate::together::Summand;
use crate::writer::Writer;
use encoding::Encoding;
use league::{Class, League, Side};
use refutation::{Log, Part};
use std::alloc::{AllocError, Global};

/// The log that counts breaks in some stretches: of the teams that a BR2 or BR1 bounds there, all but two have a break in
/// each stretch.
///
/// # Errors
/// Only where memory runs out.
pub(crate) fn log_of(
    alloc: Global,
    league: &League,
    encoding: &Encoding,
    stretches: &[Stretch],
    class: &Class,
) -> Result<Log, AllocError>
    requires season { AreInSeason league.now.n stretches.now }
{
    let _n = league.n();
    let mut rows = Vec::new(alloc);
    let together = teams_together(stretches, class);
    if !together.is_empty() {
        add_row(alloc, encoding, class, 0, &mut rows)?;
    }
    log_over(alloc, league, encoding, stretches, together, &mut rows)
}

/// The log of bounds that are added up.
///
/// # Errors
/// Only where memory runs out.
pub(crate) fn log_of_sum(
    alloc: Global,
    league: &League,
    encoding: &Encoding,
    sum: &Sum,
) -> Result<Log, AllocError>
    requires season { AreInSeason league.now.n sum.now.stretches.items }
{
    let mut rows = Vec::new(alloc);
    add_rows_of(alloc, league, encoding, &sum.summands, &mut rows)?;
    log_over(
        alloc,
        league,
        encoding,
        &sum.stretches,
        &sum.counted,
        &mut rows,
    )
}

/// Adds the rows of bounds that are added up.
///
/// # Errors
/// Only where memory runs out.
fn add_rows_of(
    alloc: Global,
    league: &League,
    encoding: &Encoding,
    summands: &[Summand],
    rows: &mut Vec<u64>,
) -> Result<(), AllocError> {
    for summand in summands {
        if let Some(constraint) = league.constraints().get(summand.place) {
            add_row(alloc, encoding, &constraint.class, summand.team, rows)?;
        }
    }
    Ok(())
}

/// The log that counts breaks in some stretches: those of the teams that these rows bound together, and of those that
/// hard BR1 bound there.
///
/// # Errors
/// Only where memory runs out.
fn log_over(
    alloc: Global,
    league: &League,
    encoding: &Encoding,
    stretches: &[Stretch],
    together: &[u16],
    rows: &mut Vec<u64>,
) -> Result<Log, AllocError>
    requires season { AreInSeason league.now.n stretches.now }
{
    let teams = counted_teams(alloc, league, encoding, stretches, together, rows)?;
    let mut writer = Writer::new(alloc, encoding.rows().len() as u64);
    add_steps(alloc, league, &mut writer, stretches, &teams, rows)?;
    Ok(writer.finish())
}

/// Adds the rows of the teams' breaks in each stretch, of those that begin at home and of those that begin away. Their
/// sum with the rows so far leaves nothing.
///
/// # Errors
/// Only where memory runs out.
fn add_steps(
    alloc: Global,
    league: &League,
    writer: &mut Writer,
    stretches: &[Stretch],
    teams: &[u16],
    rows: &mut Vec<u64>,
) -> Result<(), AllocError>
    requires season { AreInSeason league.now.n stretches.now }
    requires teams { All (λ i. i < league.now.n) teams.now }
{
    let frame = Frame::new(league);
    for stretch in stretches {
        add_stretch(alloc, writer, frame, *stretch, teams, rows)?;
    }
    add_sum(alloc, writer, rows)
}

/// Adds the rows of the teams' breaks in a stretch, of those that begin at home and of those that begin away.
///
/// # Errors
/// Only where memory runs out.
fn add_stretch(
    alloc: Global,
    writer: &mut Writer,
    frame: Frame,
    stretch: Stretch,
    teams: &[u16],
    rows: &mut Vec<u64>,
) -> Result<(), AllocError>
    requires some { 1 ≤ stretch.count }
    requires within { stretch.first + stretch.count ≤ frame.slots }
    requires teams { All (λ i. i < frame.n) teams.now }
{
    rows.push(add_clique(alloc, writer, frame, stretch, true, teams)?)?;
    rows.push(add_clique(alloc, writer, frame, stretch, false, teams)?)?;
    Ok(())
}

/// Adds the sum of these rows, and the empty clause.
///
/// # Errors
/// Only where memory runs out.
fn add_sum(alloc: Global, writer: &mut Writer, rows: &[u64]) -> Result<(), AllocError> {
    let mut parts = Vec::new(alloc);
    for row in rows {
        parts.push(Part {
            factor: 1,
            row: *row,
        })?;
    }
    let sum = writer.sum(&parts, 1)?;
    writer.clause(&[], &[sum])?;
    Ok(())
}

/// The teams that are bounded together, and those that hard BR1 bound in these stretches. The rows of these are added.
///
/// # Errors
/// Only where memory runs out.
fn counted_teams(
    alloc: Global,
    league: &League,
    encoding: &Encoding,
    stretches: &[Stretch],
    together: &[u16],
    rows: &mut Vec<u64>,
) -> Result<Vec<u16>, AllocError>
    requires { AreInSeason league.now.n stretches.now }
    ensures { IfOk result (λ teams. All (λ i. i < league.now.n) teams.items) }
{
    let mut teams = Vec::new(alloc);
    for team in 0..league.n() {
        if has(together, team) || add_single(alloc, league, encoding, stretches, team, rows)? {
            teams.push(team)?;
        }
    }
    Ok(teams)
}

/// The teams of a BR2 that counts each break of the stretches, and else none.
fn teams_together<'a>(stretches: &[Stretch], class: &'a Class) -> &'a [u16]
    requires { All (λ t. t.first + t.count ≤ 78) stretches.now }
{
    match class {
        Class::Br2 {
            teams,
            intp: _,
            slots,
        } => {
            if covers(slots.numbers(), stretches) {
                teams.numbers()
            } else {
                &[]
            }
        }
        _ => &[],
    }
}

/// Adds the rows by which a team may have breaks in fewer of the stretches than there are, and answers whether it may.
fn add_single(
    alloc: Global,
    league: &League,
    encoding: &Encoding,
    stretches: &[Stretch],
    team: u16,
    rows: &mut Vec<u64>,
) -> Result<bool, AllocError>
    requires { All (λ t. t.first + t.count ≤ 78) stretches.now }
{
    let most = u32::try_from(stretches.len()).unwrap_or(u32::MAX);
    let both = least_bound(league, stretches, Side::Both, team, most);
    let limit = match both {
        Some(bound) => bound.intp,
        None => most,
    };
    let home = least_bound(league, stretches, Side::H, team, limit);
    let away = least_bound(league, stretches, Side::A, team, limit);
    if let (Some(home), Some(away)) = (home, away) {
        if home.intp.saturating_add(away.intp) < limit {
            add_row(alloc, encoding, home.class, team, rows)?;
            add_row(alloc, encoding, away.class, team, rows)?;
            return Ok(true);
        }
    }
    let Some(bound) = both else {
        return Ok(false);
    };
    add_row(alloc, encoding, bound.class, team, rows)?;
    Ok(true)
}

/// Adds the row of a BR2, or of a team of a BR1, if there is one.
fn add_row(
    alloc: Global,
    encoding: &Encoding,
    class: &Class,
    team: u16,
    rows: &mut Vec<u64>,
) -> Result<(), AllocError> {
    if let Some(row) = bound_row(alloc, encoding, class, team)? {
        rows.push(row)?;
    }
    Ok(())
}
