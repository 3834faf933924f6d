//! What an encoding is shown as.
ghost use Rattle.std.specs.Prelude.{◌<◌, length};
ghost use Rattle.league.specs.Counts.{slot_count};
ghost use Rattle.encoding.specs.Known.{AreKnown};

use encoding::Encoding;
use league::{SlotId, TeamId};
use rows::{Partial, RowStore, Term, slack};
use std::{fmt, io};

/// The name of a variable: of a game, or of a team's venue or break in a slot.
#[derive(Clone, Copy)]
enum Name {
    Game {
        team: u16,
        away: u16,
        slot: u16,
    },
    Own {
        kind: &'static str,
        team: u16,
        slot: u16,
    },
    None,
}

impl fmt::Display for Name {
    fn fmt<W: fmt::Write>(&self, f: &mut fmt::Formatter<W>) -> fmt::Result {
        match self {
            Name::Game { team, away, slot } => write!(f, "x({team},{away},{slot})"),
            Name::Own { kind, team, slot } => write!(f, "{kind}({team},{slot})"),
            Name::None => Ok(()),
        }
    }
}

/// Shows how many variables and rows there are.
pub fn show_size(rt: &HostRuntime, encoding: &Encoding) -> io::Result<()> {
    let (vars, rows) = (encoding.vars(), encoding.rows().len());
    println!(rt; "{vars} variables, {rows} rows")
}

/// Shows the row of a number, from 1 on.
pub fn show_row(rt: &HostRuntime, encoding: &Encoding, number: usize) -> io::Result<()> {
    let rows = encoding.rows();
    if number == 0 || number > rows.len() {
        return println!(rt; "there is no row {number}");
    }
    print!(rt; "row {number}: ")?;
    let mut sign = "";
    for term in rows.terms(number - 1) {
        show_term(rt, encoding, sign, term)?;
        sign = " + ";
    }
    println!(rt; " >= {}", rows.degree(number - 1))
}

/// Shows a sign, and a literal with its coefficient, if that isn't 1.
fn show_term(rt: &HostRuntime, encoding: &Encoding, sign: &str, term: &Term) -> io::Result<()> {
    let name = name_of(encoding, term.lit.var());
    let not = if term.lit.positive() { "" } else { "not " };
    match term.coef {
        1 => print!(rt; "{sign}{not}{name}"),
        coef => print!(rt; "{sign}{coef} {not}{name}"),
    }
}

/// Shows a variable and its name.
pub fn show_variable(rt: &HostRuntime, encoding: &Encoding, var: u32) -> io::Result<()> {
    let name = name_of(encoding, var);
    println!(rt; "variable {var}: {name}")
}

/// The name of a variable.
fn name_of(encoding: &Encoding, var: u32) -> Name {
    for team in 0..encoding.n() {
        for slot in 0..encoding.slots() {
            if let Some(kind) = kind_at(encoding, var, TeamId(team), SlotId(slot)) {
                return Name::Own { kind, team, slot };
            }
            if let Some(away) = visitor_at(encoding, var, TeamId(team), SlotId(slot)) {
                return Name::Game { team, away, slot };
            }
        }
    }
    Name::None
}

/// The kind of a variable, if it is one of a team's venue and breaks at a slot.
fn kind_at(encoding: &Encoding, var: u32, team: TeamId, slot: SlotId) -> Option<&'static str>
    requires team { team.0 < encoding.now.n }
    requires slot { slot.0 < slot_count encoding.now.n }
{
    if encoding.h(team, slot) == var {
        Some("h")
    } else if encoding.hb(team, slot) == Some(var) {
        Some("hb")
    } else if encoding.ab(team, slot) == Some(var) {
        Some("ab")
    } else {
        None
    }
}

/// Whom a team plays at home in a slot where a variable is true, if it is of such a game.
fn visitor_at(encoding: &Encoding, var: u32, home: TeamId, slot: SlotId) -> Option<u16>
    requires home { home.0 < encoding.now.n }
    requires slot { slot.0 < slot_count encoding.now.n }
{
    for away in 0..encoding.n() {
        if away != home.0 && encoding.x(home, TeamId(away), slot) == var {
            return Some(away);
        }
    }
    None
}

/// Shows which rows are in conflict while no variable has a value.
pub fn show_conflicts(rt: &HostRuntime, encoding: &Encoding) -> io::Result<()> {
    let free = Partial::new(rt.alloc(), encoding.vars())?;
    show_negative(rt, encoding.rows(), &free)
}

/// Shows which rows have a negative slack.
fn show_negative(rt: &HostRuntime, rows: &RowStore, values: &Partial) -> io::Result<()>
    requires { AreKnown (length values.now) rows.now }
{
    for place in 0..rows.len() {
        let slack = slack(rows.terms(place), rows.degree(place), values);
        if slack < 0 {
            let number = place + 1;
            println!(rt; "row {number} is in conflict alone, by slack {slack}")?;
        }
    }
    Ok(())
}
