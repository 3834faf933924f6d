//! Walks along the games of a board that mark the least set of teams, or of slots, that a move takes with it. The teams
//! that are marked so are a Kempe chain of the games of two slots.
ghost use Rattle.std.specs.Prelude.{◌≡◌, ◌≢◌, ℕ, ◌<◌, ◌==◌, slice_index_or, true, false};
ghost use Rattle.league.specs.Counts.{slot_count};
ghost use Rattle.league.specs.Sets.{is_in};
ghost use Rattle.moves.specs.Moves.{do_meet, follows, slots_linked, teams_linked};
ghost use Rattle.moves.specs.Parts.{IsClosedSlots, IsClosedTeams};
ghost use Rattle.moves.specs.Round.{round_counts};

use crate::board::Board;
use league::{SlotId, TeamId};

/// The least set of teams that holds a team and, with each team, its opponents in two slots. It takes no memory.
pub(crate) fn linked_teams(board: &Board, team: TeamId, s: SlotId, t: SlotId) -> [bool; 40]
    requires team { team.0 < board.now.n }
    requires s { s.0 < slot_count board.now.n }
    requires t { t.0 < slot_count board.now.n }
    ensures linked { (a : ℕ) → slice_index_or result a false
        ≡ is_in a (teams_linked board.now.n (round_counts board.now) team.0 s.0 t.0) }
    ensures closed { IsClosedTeams board.now.n (round_counts board.now) s.0 t.0 (λ a. slice_index_or result a false) }
    ensures start { slice_index_or result team.0 false ≡ true }
{
    let _most = board.n();
    let mut marks = [false; 40];
    let mut next = team;
    'walk: while !marks[next.0 as usize] {
        let met = board.opponent(next, s);
        marks[next.0 as usize] = true;
        marks[met.0 as usize] = true;
        next = board.opponent(met, t);
    }
    marks
}

/// The least set of slots that holds a slot in which two teams don't meet and, with each slot, the one that follows it:
/// the slot in which the second team meets at the same venue whom the first meets. It takes no memory.
pub(crate) fn linked_slots(board: &Board, i: TeamId, j: TeamId, slot: SlotId) -> [bool; 78]
    requires i { i.0 < board.now.n }
    requires j { j.0 < board.now.n }
    requires slot { slot.0 < slot_count board.now.n }
    requires differ { i.0 ≢ j.0 }
    requires apart { do_meet (round_counts board.now) i.0 j.0 slot.0 ≡ false }
    ensures linked { (r : ℕ) → slice_index_or result r false
        ≡ is_in r (slots_linked board.now.n (round_counts board.now) i.0 j.0 slot.0) }
    ensures closed { IsClosedSlots board.now.n (round_counts board.now) i.0 j.0 (λ r. slice_index_or result r false) }
    ensures start { slice_index_or result slot.0 false ≡ true }
{
    let _most = board.n();
    let mut marks = [false; 78];
    let mut next = slot;
    'cycle: while !marks[next.0 as usize] {
        marks[next.0 as usize] = true;
        next = next_slot(board, i, j, next);
    }
    marks
}

/// The slot in which the second team meets at the same venue whom the first meets in a slot.
fn next_slot(board: &Board, i: TeamId, j: TeamId, slot: SlotId) -> SlotId
    requires i { i.0 < board.now.n }
    requires j { j.0 < board.now.n }
    requires slot { slot.0 < slot_count board.now.n }
    requires differ { i.0 ≢ j.0 }
    requires apart { do_meet (round_counts board.now) i.0 j.0 slot.0 ≡ false }
    ensures below { result.0 < slot_count board.now.n }
    ensures apart { do_meet (round_counts board.now) i.0 j.0 result.0 ≡ false }
    ensures follows { (q : ℕ) → follows board.now.n (round_counts board.now) i.0 j.0 slot.0 q ≡ (q == result.0) }
{
    let _round = board.n();
    let game = board.game(i, slot);
    if game.home.0 == i.0 {
        board.slot_of(j, game.away)
    } else {
        board.slot_of(game.home, j)
    }
}
