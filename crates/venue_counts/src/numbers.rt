//! The numbers of a league's rows, from 1.
ghost use Rattle.std.specs.Prelude.{◌≡◌, ◌++◌, ◌<◌, ◌≤◌, ◌↔◌, Some, length, map, IfOk, IsTrue, Contains, slice_index};
ghost use Rattle.std.specs.List.{slice_range};
ghost use Rattle.league.specs.Counts.{slot_count};
ghost use Rattle.league.specs.Instance.{IsTeamCount, are_slots};
ghost use Rattle.rows.specs.Cardinality.{at_least, unit};
ghost use Rattle.rows.specs.Sums.{literal};
ghost use Rattle.encoding.specs.Encoding.{rows_of};
ghost use Rattle.encoding.specs.Season.{cell_rows, half_rows, meeting_rows, venue_rows};
ghost use Rattle.encoding.specs.Variables.{h_var};
ghost use Rattle.refutation.specs.Following.{row_numbered};
ghost use Rattle.venue_counts.specs.CountLogs.{slot_row, team_row};
ghost use Rattle.venue_counts.specs.Groups.{IsGroup};
ghost use Rattle.venue_counts.specs.Needs.{counts_home, need_of};

use crate::group::Group;
use crate::limit::Limit;
use encoding::{Encoding, h_at};
use rows::{Lit, RowStore, Term};
use std::alloc::{AllocError, Global};
use std::ops::Range;

/// The number of the row that at least half of the teams play at home in a slot, or away. Each slot has the two rows in
/// turn.
pub(crate) fn slot_number(encoding: &Encoding, slot: u16, home: bool) -> u64
    requires { slot < slot_count encoding.now.n }
    ensures { row_numbered (rows_of encoding.now) result ≡ Some (slot_row encoding.now.n home slot) }
{
    let phased = encoding.league().phased();
    let before = rows_before_slots(encoding.n(), encoding.slots(), phased);
    let first = before + 2 * u64::from(slot) + 1;
    if home { first } else { first + 1 }
}

/// How many rows stand before those of slots, in a league of n teams with so many slots: two for each meeting, for each
/// team in each slot and, in a phased league, for each two teams, and again two for each team in each slot.
fn rows_before_slots(n: u16, slots: u16, phased: bool) -> u64
    requires teams { IsTeamCount n }
    requires slots { slots ≡ slot_count n }
    ensures before { result ≡ length (meeting_rows n ++ cell_rows n ++ half_rows n phased ++ venue_rows n) }
    ensures most { result ≤ 20000 }
{
    let teams = u64::from(n);
    let meetings = teams * (teams - 1);
    let cells = teams * u64::from(slots);
    let before = 2 * meetings + 4 * cells;
    if phased {
        before + 2 * (meetings / 2)
    } else {
        before
    }
}

/// The number of the row that makes a team of a group play as often at the other venue as it needs: one of the constraint
/// by which it needs that.
///
/// # Errors
/// Only where memory runs out.
pub(crate) fn team_number(
    alloc: Global,
    encoding: &Encoding,
    group: &Group,
    limit: Limit,
    team: u16,
) -> Result<u64, AllocError>
    requires group { IsGroup limit encoding.now.n encoding.now.constraints group.now }
    requires team { team < encoding.now.n }
    requires some { 0 < slice_index group.now.needs.items team }
    ensures { IfOk result (λ number. row_numbered (rows_of encoding.now) number
        ≡ Some (team_row encoding.now.n (counts_home limit group.now.side) group.now.slots.now
        (need_of limit encoding.now.constraints group.now.side group.now.slots.now) team)) }
{
    let place = usize::from(team);
    let need = group.needs[place];
    let cause = group.causes[place];
    let home = limit.counts_home(group.side);
    let literals = venue_literals(alloc, encoding.n(), team, group.slots, !home)?;
    let places = encoding.rows_of_constraint(cause);
    Ok(number_of(encoding.rows(), places, &literals, u64::from(need)))
}

/// The literals that say that one of n teams plays at home in these slots, or away.
///
/// # Errors
/// Only where memory runs out.
fn venue_literals(
    alloc: Global,
    n: u16,
    team: u16,
    slots: &[u16],
    home: bool,
) -> Result<Vec<Lit>, AllocError>
    requires at_most { n ≤ 40 }
    requires team { team < n }
    requires slots { IsTrue (are_slots n slots.now) }
    ensures { IfOk result (λ literals. literals.items ≡ map (λ s. literal (h_var n team s) home) slots.now) }
{
    let mut literals = Vec::with_capacity(alloc, slots.len())?;
    for slot in slots {
        literals.push(Lit::new(h_at(n, team, *slot), home))?;
    }
    Ok(literals)
}

/// The number of the first row at these places that says that at least so many of these literals are true.
fn number_of(rows: &RowStore, places: Range<usize>, literals: &[Lit], degree: u64) -> u64
    requires order { places.start ≤ places.end }
    requires within { places.end ≤ length rows.now }
    requires there { Contains (slice_range rows.now places.start places.end) (at_least degree literals.now) }
    ensures { row_numbered rows.now result ≡ Some (at_least degree literals.now) }
{
    for k in places.start..places.end {
        if rows.degree(k) == degree && are_units(rows.terms(k), literals) {
            return k as u64 + 1;
        }
    }
    unreachable!()
}

/// Whether these are the terms of literals that each count once.
fn are_units(terms: &[Term], literals: &[Lit]) -> bool
    ensures { IsTrue result ↔ (terms.now ≡ map unit literals.now) }
{
    if terms.len() != literals.len() {
        return false;
    }
    for (k, term) in terms.iter().enumerate() {
        if !is_unit(*term, literals[k]) {
            return false;
        }
    }
    true
}

/// Whether this is the term of a literal that counts once.
fn is_unit(term: Term, literal: Lit) -> bool
    ensures { IsTrue result ↔ (term ≡ unit literal) }
{
    term.coef == 1 && term.lit == literal
}
