//! All moves of a league, one after another.
ghost use Rattle.std.specs.Prelude.{◌≡◌, ℕ, ◌+◌, ◌*◌, ◌-◌, ◌<◌, ◌≤◌, ◌++◌, [], ◌∷◌, map, MatchOption};
ghost use Rattle.std.specs.List.{range_with_len};
ghost use Rattle.league.specs.Counts as counts;
ghost use Rattle.league.specs.Instance.{IsTeamCount};
ghost use Rattle.moves.specs.Neighbours.{all_moves, home_swap, round_swap, team_swap};
ghost use Rattle.moves.specs.Rest.{IsListed, IsNextListed, LeadsTo, after_part_round, after_part_team};
ghost use Rattle.moves.specs.Rest.{from_part_rounds, from_part_teams, from_rounds, from_teams, moves_from};
ghost use Rattle.moves.specs.Rest.{pairs_after, pairs_from, part_round_swaps, part_team_swaps, rest_of};

use crate::swap::Swap;
use league::{SlotId, TeamId, slot_count};
use std::marker::Model;

/// The moves of a league of n teams that are still to come, legal or not: seen as the list of them.
#[derive(Drop)]
pub struct Neighbours {
    n: u16,
    next: Option<Swap>,
}

impl Model for Neighbours {
    ghost use Rattle.std.specs.Prelude.{List};
    ghost use Rattle.league.specs.Instance.{IsTeamCount};
    ghost use Rattle.moves.specs.Rest.{IsNextListed, rest_of};
    ghost use Rattle.moves.specs.declared.swap.Swap.{Swap};

    ghost Value = { List Swap };

    ghost view = { λ x. rest_of x.n x.next };

    ghost invariant = { λ x. IsTeamCount x.n × IsNextListed x.n x.next };
}

impl Neighbours {
    /// All moves of a league of n teams, kind by kind in the order of `Swap`, with all arguments i < j and s < t,
    /// ascending by the first, then the second, then the third. It takes no memory.
    pub fn new(n: u16) -> Neighbours
        requires { IsTeamCount n }
        ensures { result ≡ all_moves n }
    {
        Neighbours {
            n,
            next: Some(Swap::HomeSwap {
                i: TeamId(0),
                j: TeamId(1),
            }),
        }
    }

    /// The next move: none exactly after the last. It takes no memory.
    pub fn next(&mut self) -> Option<Swap>
        ensures { MatchOption result ((self.old ≡ []) × (self.new ≡ [])) (λ step. self.old ≡ step ∷ self.new) }
    {
        match self.next {
            Some(step) => {
                self.next = successor(self.n, step);
                Some(step)
            }
            None => None,
        }
    }
}

/// The move after a move, if there is one.
fn successor(n: u16, step: Swap) -> Option<Swap>
    requires teams { IsTeamCount n }
    requires listed { IsListed n step }
    ensures rest { moves_from n step ≡ step ∷ rest_of n result }
    ensures listed { IsNextListed n result }
{
    match step {
        Swap::HomeSwap { i, j } => after_home_swap(n, i, j),
        Swap::RoundSwap { s, t } => after_round_swap(n, s, t),
        Swap::TeamSwap { i, j } => after_team_swap(n, i, j),
        Swap::PartRoundSwap { i, s, t } => after_part_round_swap(n, i, s, t),
        Swap::PartTeamSwap { i, j, s } => after_part_team_swap(n, i, j, s),
    }
}

/// The pair of numbers below k after a pair, if there is one.
fn pair_after(k: u16, a: u16, b: u16) -> Option<(u16, u16)>
    requires order { a < b }
    requires last { b < k }
    requires few { k ≤ 78 }
    ensures { MatchOption result (pairs_after k a b ≡ [])
        (λ p. (pairs_after k a b ≡ pairs_from k p.0 p.1) × (p.0 < p.1) × (p.1 < k)) }
{
    if b + 1 < k {
        Some((a, b + 1))
    } else if a + 2 < k {
        Some((a + 1, a + 2))
    } else {
        None
    }
}

/// The move after a `HomeSwap`.
fn after_home_swap(n: u16, i: TeamId, j: TeamId) -> Option<Swap>
    requires teams { IsTeamCount n }
    requires order { i.0 < j.0 }
    requires last { j.0 < n }
    ensures { LeadsTo n (map home_swap (pairs_after n i.0 j.0) ++ from_rounds n) result }
{
    match pair_after(n, i.0, j.0) {
        Some(pair) => Some(Swap::HomeSwap {
            i: TeamId(pair.0),
            j: TeamId(pair.1),
        }),
        None => Some(Swap::RoundSwap {
            s: SlotId(0),
            t: SlotId(1),
        }),
    }
}

/// The move after a `RoundSwap`.
fn after_round_swap(n: u16, s: SlotId, t: SlotId) -> Option<Swap>
    requires teams { IsTeamCount n }
    requires order { s.0 < t.0 }
    requires last { t.0 < counts.slot_count n }
    ensures { LeadsTo n (map round_swap (pairs_after (counts.slot_count n) s.0 t.0) ++ from_teams n) result }
{
    match pair_after(slot_count(n), s.0, t.0) {
        Some(pair) => Some(Swap::RoundSwap {
            s: SlotId(pair.0),
            t: SlotId(pair.1),
        }),
        None => Some(Swap::TeamSwap {
            i: TeamId(0),
            j: TeamId(1),
        }),
    }
}

/// The move after a `TeamSwap`.
fn after_team_swap(n: u16, i: TeamId, j: TeamId) -> Option<Swap>
    requires teams { IsTeamCount n }
    requires order { i.0 < j.0 }
    requires last { j.0 < n }
    ensures { LeadsTo n (map team_swap (pairs_after n i.0 j.0) ++ from_part_rounds n) result }
{
    match pair_after(n, i.0, j.0) {
        Some(pair) => Some(Swap::TeamSwap {
            i: TeamId(pair.0),
            j: TeamId(pair.1),
        }),
        None => Some(Swap::PartRoundSwap {
            i: TeamId(0),
            s: SlotId(0),
            t: SlotId(1),
        }),
    }
}

/// The move after a `PartRoundSwap`.
fn after_part_round_swap(n: u16, i: TeamId, s: SlotId, t: SlotId) -> Option<Swap>
    requires teams { IsTeamCount n }
    requires i { i.0 < n }
    requires order { s.0 < t.0 }
    requires last { t.0 < counts.slot_count n }
    ensures { LeadsTo n (after_part_round n i.0 s.0 t.0) result }
{
    match pair_after(slot_count(n), s.0, t.0) {
        Some(pair) => Some(Swap::PartRoundSwap {
            i,
            s: SlotId(pair.0),
            t: SlotId(pair.1),
        }),
        None => after_team_of_part_rounds(n, i),
    }
}

/// The move after the last `PartRoundSwap` of a team.
fn after_team_of_part_rounds(n: u16, i: TeamId) -> Option<Swap>
    requires teams { IsTeamCount n }
    requires i { i.0 < n }
    ensures { LeadsTo n (part_round_swaps n (range_with_len (i.0 + 1) (n - (i.0 + 1))) ++ from_part_teams n) result }
{
    if i.0 + 1 < n {
        Some(Swap::PartRoundSwap {
            i: TeamId(i.0 + 1),
            s: SlotId(0),
            t: SlotId(1),
        })
    } else {
        Some(Swap::PartTeamSwap {
            i: TeamId(0),
            j: TeamId(1),
            s: SlotId(0),
        })
    }
}

/// The move after a `PartTeamSwap`.
fn after_part_team_swap(n: u16, i: TeamId, j: TeamId, s: SlotId) -> Option<Swap>
    requires teams { IsTeamCount n }
    requires order { i.0 < j.0 }
    requires last { j.0 < n }
    requires s { s.0 < counts.slot_count n }
    ensures { LeadsTo n (after_part_team n i.0 j.0 s.0) result }
{
    if s.0 + 1 < slot_count(n) {
        Some(Swap::PartTeamSwap {
            i,
            j,
            s: SlotId(s.0 + 1),
        })
    } else {
        after_pair_of_part_teams(n, i, j)
    }
}

/// The move after the last `PartTeamSwap` of a pair.
fn after_pair_of_part_teams(n: u16, i: TeamId, j: TeamId) -> Option<Swap>
    requires teams { IsTeamCount n }
    requires order { i.0 < j.0 }
    requires last { j.0 < n }
    ensures { LeadsTo n (part_team_swaps n (pairs_after n i.0 j.0)) result }
{
    match pair_after(n, i.0, j.0) {
        Some(pair) => Some(Swap::PartTeamSwap {
            i: TeamId(pair.0),
            j: TeamId(pair.1),
            s: SlotId(0),
        }),
        None => None,
    }
}
