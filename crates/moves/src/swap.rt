//! Moves: changes of some games of a double round robin. The five kinds are those of Anagnostopoulos, Michel, Van
//! Hentenryck and Vergados (2006).

use league::{SlotId, TeamId};

/// A move. It is legal where its own condition holds, which stands beside each kind, and its result is a double round
/// robin of the same league. Each legal move undoes itself.
#[derive(Clone, Copy)]
pub enum Swap {
    /// For i < j: the venues of the two games between i and j are exchanged.
    HomeSwap { i: TeamId, j: TeamId },
    /// For s < t: games of slot s get slot t, and those of t get s.
    RoundSwap { s: SlotId, t: SlotId },
    /// For i < j: in each slot in which i and j don't meet, they are exchanged in their games.
    TeamSwap { i: TeamId, j: TeamId },
    /// For s < t: of the least set of teams that holds i and, with each team, its opponents in s and in t, the games in
    /// slot s get slot t, and those in t get s.
    PartRoundSwap { i: TeamId, s: SlotId, t: SlotId },
    /// For i < j that don't meet in s: in the least set of slots that holds s and, with each slot r, the one in which j
    /// meets at the same venue whom i meets in r, teams i and j are exchanged in their games.
    PartTeamSwap { i: TeamId, j: TeamId, s: SlotId },
}
