//! What a season misses.
ghost use Rattle.std.specs.Prelude.{◌≡◌, ◌++◌, ◌≤◌, length, map, take, string_bytes, IfOk, OnOk, IsTrue};
ghost use Rattle.std.specs.List.{flat_map};
ghost use Rattle.league.specs.Counts.{counts_of};
ghost use Rattle.league.specs.Deviation.{vector_of};
ghost use Rattle.league.specs.Instance.{class_fits};
ghost use Rattle.season_misses.specs.Misses as misses;
ghost use Rattle.season_misses.specs.Order.{AreTold};
ghost use Rattle.season_misses.specs.SeenRow.{row_of};
ghost use Rattle.season_misses.specs.SeenTold.{IsTold};

use crate::break_lines::{all_breaks_line, breaks_by_team, breaks_told};
use crate::classes::reasons;
use crate::cut::{front_of, push_cut, push_line, push_more};
use crate::demands::constraint_words;
use crate::gravest::gravest_first;
use crate::label::Label;
use crate::lines::line_of;
use crate::miss::{Miss, misses_of};
use crate::numbers::HowMany;
use crate::reason::Reason;
use crate::row::{Row, rows_of};
use crate::season::{Season, TeamGames};
use deviation::Vectors;
use league::{Class, Constraint, Game, League, TeamSet};
use rule_core::Cells;
use std::alloc::{AllocError, Global};

/// Adds the lines of a BR2: how many breaks there are, and which team has them.
fn push_all_breaks(
    text: &mut String,
    names: &[Label],
    most: usize,
    teams: &TeamSet,
    intp: u32,
    reason: &Reason,
) -> Result<(), AllocError>
    ensures { OnOk result (string_bytes text.new ≡ string_bytes text.old
        ++ misses.all_breaks_text names.now most teams.now intp reason.now) }
{
    let alloc = *text.allocator();
    let breaks = breaks_told(&reason.cause);
    let line = all_breaks_line(alloc, intp, breaks)?;
    push_line(text, "  ", &line)?;
    let lines = breaks_by_team(alloc, names, breaks, teams.numbers())?;
    push_cut(text, "    ", " teams more", most, &lines)
}

/// Adds the lines of a BR2, for each of its reasons.
fn push_breaks(
    text: &mut String,
    names: &[Label],
    most: usize,
    teams: &TeamSet,
    intp: u32,
    reasons: &[Reason],
) -> Result<(), AllocError>
    ensures { OnOk result (string_bytes text.new ≡ string_bytes text.old
        ++ flat_map (misses.all_breaks_text names.now most teams.now intp) reasons.now) }
{
    for reason in reasons {
        push_all_breaks(text, names, most, teams, intp, reason)?;
    }
    Ok(())
}

/// Adds the line of a row.
fn push_row(
    text: &mut String,
    n: u16,
    names: &[Label],
    class: &Class,
    row: Row<'_>,
) -> Result<(), AllocError>
    requires few { n ≤ 40 }
    requires fits { IsTrue (class_fits n class.now) }
    ensures { OnOk result (string_bytes text.new ≡ string_bytes text.old
        ++ misses.row_line n names.now class.now (row_of row.entry)) }
{
    let line = line_of(*text.allocator(), n, names, class, row)?;
    push_line(text, "  ", &line)
}

/// Adds the lines of rows.
fn push_each_row(
    text: &mut String,
    n: u16,
    names: &[Label],
    class: &Class,
    rows: &[Row<'_>],
) -> Result<(), AllocError>
    requires few { n ≤ 40 }
    requires fits { IsTrue (class_fits n class.now) }
    ensures { OnOk result (string_bytes text.new ≡ string_bytes text.old
        ++ flat_map (misses.row_line n names.now class.now) (map row_of rows.now)) }
{
    for row in rows {
        push_row(text, n, names, class, *row)?;
    }
    Ok(())
}

/// Adds the lines of rows, `most` of them, and how many more there are.
fn push_rows(
    text: &mut String,
    n: u16,
    names: &[Label],
    most: usize,
    class: &Class,
    rows: &[Row<'_>],
) -> Result<(), AllocError>
    requires few { n ≤ 40 }
    requires fits { IsTrue (class_fits n class.now) }
    ensures { OnOk result (string_bytes text.new ≡ string_bytes text.old
        ++ misses.rows_text n names.now most class.now (map row_of rows.now)) }
{
    push_each_row(text, n, names, class, front_of(rows, most))?;
    push_more(text, "  ", " more", most, rows.len())
}

/// Adds the lines of a constraint with these reasons, in a league of n teams.
fn push_reasons(
    text: &mut String,
    n: u16,
    names: &[Label],
    most: usize,
    class: &Class,
    reasons: &[Reason],
) -> Result<(), AllocError>
    requires few { n ≤ 40 }
    requires fits { IsTrue (class_fits n class.now) }
    ensures { OnOk result (string_bytes text.new ≡ string_bytes text.old
        ++ misses.reasons_text n names.now most class.now reasons.now) }
{
    match class {
        Class::Br2 { teams, intp, .. } => push_breaks(text, names, most, teams, *intp, reasons),
        _ => {
            let rows = rows_of(*text.allocator(), reasons)?;
            push_rows(text, n, names, most, class, &rows)
        }
    }
}

/// A season of a league, with what its teams are called, and how many of each list are told.
#[derive(Clone, Copy)]
pub struct Told<'a> {
    pub league: &'a League,
    /// What each team is called, by number.
    pub names: &'a [Label],
    /// The most constraints that are told, and the most lines of each.
    pub most: usize,
    /// The games in order, their counts, and the games of each team.
    pub games: &'a [Game],
    pub cells: &'a Cells,
    pub own: &'a TeamGames,
    /// The deviation vector of each constraint.
    pub vectors: &'a Vectors,
}

/// Adds what a constraint that is missed demands, by how much it is missed, and what that costs.
fn push_head(
    text: &mut String,
    names: &[Label],
    constraint: &Constraint,
    miss: Miss,
) -> Result<(), AllocError>
    requires few { length names.now ≤ 40 }
    requires fits { IsTrue (class_fits (length names.now) constraint.now.class) }
    requires place { miss.place ≤ 20000 }
    ensures { OnOk result (string_bytes text.new ≡ string_bytes text.old
        ++ misses.head_text (length names.now) names.now constraint.now miss) }
{
    let words = constraint_words(*text.allocator(), names, miss.place + 1, constraint)?;
    let deviation = miss.deviation;
    let cost = miss.cost;
    write!(text, "{words}; missed by {deviation}, costs {cost}\n")
}

/// Adds a constraint that is missed, with its lines.
fn push_miss(
    text: &mut String,
    season: &Told<'_>,
    constraint: &Constraint,
    entries: &[u64],
    miss: Miss,
) -> Result<(), AllocError>
    requires season { IsTold season.now }
    requires fits { IsTrue (class_fits season.now.league.now.n constraint.now.class) }
    requires entries { entries.now
        ≡ vector_of season.now.league.now.n (counts_of season.now.games.now) constraint.now.class }
    requires place { miss.place ≤ 20000 }
    ensures { OnOk result (string_bytes text.new ≡ string_bytes text.old
        ++ misses.miss_text season.now.league.now.n season.now.names.now season.now.most season.now.games.now
        constraint.now miss) }
{
    let n = season.league.n();
    push_head(text, season.names, constraint, miss)?;
    let played = Season {
        cells: season.cells,
        games: season.games,
        own: season.own,
    };
    let found = reasons(*text.allocator(), &constraint.class, &played, entries)?;
    let list = found.as_slice();
    push_reasons(text, n, season.names, season.most, &constraint.class, list)
}

/// Adds the constraint at the place of a miss, with its lines.
fn push_told(text: &mut String, season: &Told<'_>, miss: Miss) -> Result<(), AllocError>
    requires { IsTold season.now }
    ensures { OnOk result (string_bytes text.new ≡ string_bytes text.old
        ++ misses.told season.now.league.now season.now.names.now season.now.most season.now.games.now miss) }
{
    let _teams = season.league.n();
    let constraints = season.league.constraints();
    if miss.place >= constraints.len() {
        return Ok(());
    }
    let entries = season.vectors.vector(miss.place);
    push_miss(text, season, &constraints[miss.place], entries, miss)
}

/// Adds these constraints that are missed, with their lines.
fn push_each_told(text: &mut String, season: &Told<'_>, order: &[Miss]) -> Result<(), AllocError>
    requires { IsTold season.now }
    ensures { OnOk result (string_bytes text.new ≡ string_bytes text.old
        ++ flat_map (misses.told season.now.league.now season.now.names.now season.now.most season.now.games.now)
        order.now) }
{
    for miss in order {
        push_told(text, season, *miss)?;
    }
    Ok(())
}

/// Adds how many constraints are missed.
fn push_counts(text: &mut String, constraints: usize, order: &[Miss]) -> Result<(), AllocError>
    ensures { OnOk result (string_bytes text.new ≡ string_bytes text.old
        ++ misses.counts_text constraints order.now) }
{
    let hard = order.iter().filter(|miss| miss.hard).count();
    let soft = order.len().saturating_sub(hard);
    let of = HowMany {
        count: constraints as u64,
        noun: "constraint",
    };
    write!(text, "missed: {hard} hard and {soft} soft of {of}\n")
}

/// What a season misses: how many constraints, and `most` of them, the gravest first, each with at most `most` lines. A
/// line says where, by how much, and by which games of the season.
///
/// # Errors
/// Only where memory runs out.
pub fn misses(alloc: Global, season: &Told<'_>) -> Result<String, AllocError>
    requires { IsTold season.now }
    ensures text { IfOk result (λ text. string_bytes text ≡ misses.misses_text season.now.league.now
        season.now.names.now season.now.most season.now.games.now) }
    ensures order { AreTold (misses.misses_of season.now.league.now season.now.games.now)
        (misses.gravest_first (misses.misses_of season.now.league.now season.now.games.now)) }
{
    let _teams = season.league.n();
    let constraints = season.league.constraints();
    let found = misses_of(alloc, constraints, season.vectors)?;
    let order = gravest_first(alloc, &found)?;
    let mut text = String::new(alloc);
    push_counts(&mut text, constraints.len(), &order)?;
    push_each_told(&mut text, season, front_of(&order, season.most))?;
    push_more(&mut text, "", " more", season.most, order.len())?;
    Ok(text)
}
