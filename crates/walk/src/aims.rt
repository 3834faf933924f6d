//! Where a move is aimed that is to meet a hard constraint.
ghost use Rattle.std.specs.Prelude.{◌≢◌, ◌<◌, IfSome};
ghost use Rattle.league.specs.Counts.{slot_count};

use crate::draws::{any_of, below};
use crate::subjects::{slots_of, teams_of};
use crate::weighed::WeighedParts;
use league::{Class, TeamId};
use moves::Board;
use rand_pcg::Pcg32;

/// A team whose games a move changes, and a slot in which it does.
#[derive(Clone, Copy)]
pub(crate) struct Aim {
    pub(crate) team: u16,
    pub(crate) slot: u16,
}

/// A team and a slot of a board's league of which some part of the hard constraints speaks that isn't met.
pub(crate) fn aim_at(random: &mut Pcg32, board: &Board, parts: &WeighedParts) -> Option<Aim>
    ensures team { IfSome result (λ aim. aim.team < board.now.n) }
    ensures slot { IfSome result (λ aim. aim.slot < slot_count board.now.n) }
{
    let unmet = parts.any_unmet(random)?;
    let aim = aim_in(random, board, &unmet.class)?;
    let n = board.n();
    if aim.team < n && aim.slot < 2 * (n - 1) {
        Some(aim)
    } else {
        None
    }
}

/// A team and a slot of which a part speaks.
fn aim_in(random: &mut Pcg32, board: &Board, class: &Class) -> Option<Aim> {
    match class {
        Class::Se1 { teams, .. } => aim_at_pair(random, board, teams.numbers()),
        class => {
            let team = team_in(random, class)?;
            let slot = slot_in(random, board, class)?;
            Some(Aim { team, slot })
        }
    }
}

/// One of these teams, and a slot in which it meets another of them.
fn aim_at_pair(random: &mut Pcg32, board: &Board, teams: &[u16]) -> Option<Aim> {
    let first = any_of(random, teams)?;
    let second = another(teams, first)?;
    let n = board.n();
    if first >= n || second >= n {
        return None;
    }
    let slot = if below(random, 2) == 0 {
        board.slot_of(TeamId(first), TeamId(second))
    } else {
        board.slot_of(TeamId(second), TeamId(first))
    };
    Some(Aim {
        team: first,
        slot: slot.0,
    })
}

/// The first of these teams that is another than this one.
fn another(teams: &[u16], team: u16) -> Option<u16>
    ensures { IfSome result (λ other. other ≢ team) }
{
    for other in teams {
        if *other != team {
            return Some(*other);
        }
    }
    None
}

/// A team of which a part speaks.
fn team_in(random: &mut Pcg32, class: &Class) -> Option<u16> {
    match class {
        Class::Ga1 { meetings, .. } => {
            let (home, away) = any_of(random, meetings.numbers())?;
            Some(if below(random, 2) == 0 { home } else { away })
        }
        class => any_of(random, teams_of(class)),
    }
}

/// A slot of which a part speaks: any of the season where it names none.
fn slot_in(random: &mut Pcg32, board: &Board, class: &Class) -> Option<u16> {
    match class {
        Class::Ca3 { .. } | Class::Se1 { .. } => Some(below(random, 2 * (board.n() - 1))),
        class => any_of(random, slots_of(class)),
    }
}
