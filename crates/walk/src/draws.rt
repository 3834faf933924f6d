//! Draws of moves.
ghost use Rattle.std.specs.Prelude.{◌≡◌, ℕ, ◌<◌, ◌≤◌};
ghost use Rattle.league.specs.Counts.{slot_count};
ghost use Rattle.league.specs.Instance.{IsTeamCount};
ghost use Rattle.moves.specs.Moves.{IsOfLeague};

use crate::aims::Aim;
use league::{SlotId, TeamId};
use moves::{Board, Swap};
use rand_core::utils::NextWord;
use rand_pcg::Pcg32;

/// A number below a bound.
pub(crate) fn below(random: &mut Pcg32, bound: u16) -> u16
    requires bound { 0 < bound }
    ensures below { result < bound }
{
    (random.next_word() % u32::from(bound)) as u16
}

/// One of some values, where there are any.
pub(crate) fn any_of<T: Copy>(random: &mut Pcg32, values: &[T]) -> Option<T> {
    let count = values.len();
    if count == 0 {
        return None;
    }
    values.get(random.next_word() as usize % count).copied()
}

/// Two different numbers.
#[derive(Clone, Copy)]
struct Pair {
    low: u16,
    high: u16,
}

/// Two different numbers below a bound, in order.
fn two_below(random: &mut Pcg32, bound: u16) -> Pair
    requires bound { 2 ≤ bound }
    ensures order { result.low < result.high }
    ensures below { result.high < bound }
{
    let one = below(random, bound);
    let other = below(random, bound - 1);
    if other < one {
        return Pair {
            low: other,
            high: one,
        };
    }
    Pair {
        low: one,
        high: other + 1,
    }
}

/// The first slot of a half of a season, as a half has so many.
fn half_start(random: &mut Pcg32, half: u16) -> u16
    ensures { result ≤ half }
{
    if below(random, 2) == 0 { 0 } else { half }
}

/// Two slots of a season of n teams, in order: of one half where there are phases.
fn two_slots(random: &mut Pcg32, n: u16, phased: bool) -> Pair
    requires teams { IsTeamCount n }
    ensures order { result.low < result.high }
    ensures below { result.high < slot_count n }
{
    let half = n - 1;
    if !phased || half < 2 {
        return two_below(random, 2 * half);
    }
    let start = half_start(random, half);
    let pair = two_below(random, half);
    Pair {
        low: start + pair.low,
        high: start + pair.high,
    }
}

/// A move of two teams.
pub(crate) fn home_swap(random: &mut Pcg32, n: u16) -> Swap
    requires teams { IsTeamCount n }
    ensures league { IsOfLeague n result }
{
    let teams = two_below(random, n);
    Swap::HomeSwap {
        i: TeamId(teams.low),
        j: TeamId(teams.high),
    }
}

/// A move of two slots.
fn round_swap(random: &mut Pcg32, n: u16, phased: bool) -> Swap
    requires teams { IsTeamCount n }
    ensures league { IsOfLeague n result }
{
    let slots = two_slots(random, n, phased);
    Swap::RoundSwap {
        s: SlotId(slots.low),
        t: SlotId(slots.high),
    }
}

/// A move of two teams in all slots.
fn team_swap(random: &mut Pcg32, n: u16) -> Swap
    requires teams { IsTeamCount n }
    ensures league { IsOfLeague n result }
{
    let teams = two_below(random, n);
    Swap::TeamSwap {
        i: TeamId(teams.low),
        j: TeamId(teams.high),
    }
}

/// A move of a team and two slots.
fn part_round_swap(random: &mut Pcg32, n: u16, phased: bool) -> Swap
    requires teams { IsTeamCount n }
    ensures league { IsOfLeague n result }
{
    let team = below(random, n);
    let slots = two_slots(random, n, phased);
    Swap::PartRoundSwap {
        i: TeamId(team),
        s: SlotId(slots.low),
        t: SlotId(slots.high),
    }
}

/// A move of two teams and a slot.
fn part_team_swap(random: &mut Pcg32, n: u16) -> Swap
    requires teams { IsTeamCount n }
    ensures league { IsOfLeague n result }
{
    let teams = two_below(random, n);
    let slot = below(random, 2 * (n - 1));
    Swap::PartTeamSwap {
        i: TeamId(teams.low),
        j: TeamId(teams.high),
        s: SlotId(slot),
    }
}

/// How often each kind of move is drawn: of 256 draws so many of each, and a move of two teams and a slot else.
#[derive(Clone, Copy)]
pub(crate) struct Mix {
    home: u16,
    round: u16,
    team: u16,
    part_round: u16,
}

/// Mostly moves that touch a part of two rounds or of two teams' games.
pub(crate) const PARTS: Mix = Mix {
    home: 62,
    round: 1,
    team: 2,
    part_round: 96,
};

/// More moves of whole rounds and of whole teams, which leave most breaks of the circle method's season as they are.
pub(crate) const WHOLES: Mix = Mix {
    home: 60,
    round: 8,
    team: 40,
    part_round: 80,
};

/// Moves that touch a part of two rounds or of two teams' games, and no others.
pub(crate) const PARTS_ALONE: Mix = Mix {
    home: 76,
    round: 0,
    team: 0,
    part_round: 120,
};

/// A move of a league of n teams.
pub(crate) fn drawn_move(random: &mut Pcg32, n: u16, phased: bool, mix: Mix) -> Swap
    requires teams { IsTeamCount n }
    ensures league { IsOfLeague n result }
{
    let kind = below(random, 256);
    let rounds = mix.home.saturating_add(mix.round);
    let teams = rounds.saturating_add(mix.team);
    if kind < mix.home {
        home_swap(random, n)
    } else if kind < rounds {
        round_swap(random, n, phased)
    } else if kind < teams {
        team_swap(random, n)
    } else if kind < teams.saturating_add(mix.part_round) {
        part_round_swap(random, n, phased)
    } else {
        part_team_swap(random, n)
    }
}

/// A move that changes a game of a team in a slot.
pub(crate) fn aimed_move(random: &mut Pcg32, board: &Board, aim: Aim) -> Swap
    requires team { aim.team < board.now.n }
    requires slot { aim.slot < slot_count board.now.n }
    ensures league { IsOfLeague board.now.n result }
{
    let n = board.n();
    let team = TeamId(aim.team);
    let slot = SlotId(aim.slot);
    let kind = below(random, 256);
    if kind < 62 {
        return venues_turned(team, board.opponent(team, slot));
    }
    if kind < 160 {
        return slots_exchanged(team, slot, other_slot(random, n, board.phased(), slot));
    }
    teams_exchanged(team, other_team(random, n, team), slot)
}

/// A move of two teams, in order.
pub(crate) fn venues_turned(one: TeamId, other: TeamId) -> Swap
    ensures { (n : ℕ) → one.0 < n → other.0 < n → IsOfLeague n result }
{
    if one.0 < other.0 {
        Swap::HomeSwap { i: one, j: other }
    } else {
        Swap::HomeSwap { i: other, j: one }
    }
}

/// A move of a team and two slots, in order.
fn slots_exchanged(team: TeamId, one: SlotId, other: SlotId) -> Swap
    ensures { (n : ℕ) → team.0 < n → one.0 < slot_count n → other.0 < slot_count n → IsOfLeague n result }
{
    if one.0 < other.0 {
        Swap::PartRoundSwap {
            i: team,
            s: one,
            t: other,
        }
    } else {
        Swap::PartRoundSwap {
            i: team,
            s: other,
            t: one,
        }
    }
}

/// A move of two teams, in order, and a slot.
pub(crate) fn teams_exchanged(one: TeamId, other: TeamId, slot: SlotId) -> Swap
    ensures { (n : ℕ) → one.0 < n → other.0 < n → slot.0 < slot_count n → IsOfLeague n result }
{
    if one.0 < other.0 {
        Swap::PartTeamSwap {
            i: one,
            j: other,
            s: slot,
        }
    } else {
        Swap::PartTeamSwap {
            i: other,
            j: one,
            s: slot,
        }
    }
}

/// Another team of n.
pub(crate) fn other_team(random: &mut Pcg32, n: u16, team: TeamId) -> TeamId
    requires teams { IsTeamCount n }
    ensures { result.0 < n }
{
    let other = below(random, n - 1);
    TeamId(if other < team.0 { other } else { other + 1 })
}

/// Another slot of a season of n teams: of the same half where there are phases.
fn other_slot(random: &mut Pcg32, n: u16, phased: bool, slot: SlotId) -> SlotId
    requires teams { IsTeamCount n }
    ensures { result.0 < slot_count n }
{
    let half = n - 1;
    if !phased || half < 2 {
        let other = below(random, 2 * half - 1);
        return SlotId(if other < slot.0 { other } else { other + 1 });
    }
    let start = if slot.0 < half { 0 } else { half };
    let other = start + below(random, half - 1);
    SlotId(if other < slot.0 { other } else { other + 1 })
}
