//! Whether a move is legal, and the games that it takes out and puts in.
ghost use Rattle.std.specs.Prelude.{◌≡◌, ◌≢◌, ℕ, ◌<◌, ◌↔◌, [], true, false, slice_index_or, IsTrue};
ghost use Rattle.std.specs.List.{All};
ghost use Rattle.league.specs.Counts.{slot_count};
ghost use Rattle.league.specs.Instance.{IsGame};
ghost use Rattle.moves.specs.Moves.{IsLegal, IsOfLeague, moved};
ghost use Rattle.moves.specs.Outcome.{IsEditOf, IsOutcome};
ghost use Rattle.moves.specs.Parts.{IsClosedSlots, IsClosedTeams, slots_exchanged, teams_exchanged};
ghost use Rattle.moves.specs.Round.{AreApart, IsEdit, round_counts};
ghost use Rattle.moves.specs.declared.swap.Swap.TheVariants.{HomeSwap, RoundSwap, TeamSwap};
ghost use Rattle.moves.specs.declared.swap.Swap.TheVariants.{PartRoundSwap, PartTeamSwap};

use crate::board::Board;
use crate::edit::Edit;
use crate::slots::{are_exchangeable, exchange_slots};
use crate::swap::Swap;
use crate::teams::{exchange_teams, keep_phases, slots_apart};
use crate::turn::turn;
use crate::walks::{linked_slots, linked_teams};
use league::{SlotId, TeamId};

/// Whether a move of teams and slots of a board's league is legal on the board: then the edit becomes the games that
/// the move takes out and puts in, none of them in both lists, and else it becomes empty. A legal move that changes no
/// game has an empty edit too. It takes no memory, and looks at the games alone that the move touches, and not at the
/// season.
pub fn edit_of(step: &Swap, board: &Board, edit: &mut Edit) -> bool
    requires league { IsOfLeague board.now.n step.now }
    requires n { edit.old.n ≡ board.now.n }
    ensures n { edit.new.n ≡ edit.old.n }
    ensures legal { IsTrue result ↔ IsLegal board.now.n board.now.phased (round_counts board.now) step.now }

    // Taking `out` off the board and adding `into` gives the move's relabelling.
    ensures edit { result ≡ true
        → IsEdit (round_counts board.now) (moved board.now.n (round_counts board.now) step.now) edit.new }
    ensures apart { AreApart edit.new }
    ensures out_fit { All (IsGame board.now.n) edit.new.out }
    ensures fit { All (IsGame board.now.n) edit.new.into }
    ensures none { result ≡ false → (edit.new.out ≡ []) × (edit.new.into ≡ []) }
{
    let _round = board.n();
    edit.clear();
    match *step {
        Swap::HomeSwap { i, j } => home_swap(board, i, j, edit),
        Swap::RoundSwap { s, t } => round_swap(board, s, t, edit),
        Swap::TeamSwap { i, j } => team_swap(board, i, j, edit),
        Swap::PartRoundSwap { i, s, t } => part_round_swap(board, i, s, t, edit),
        Swap::PartTeamSwap { i, j, s } => part_team_swap(board, i, j, s, edit),
    }
}

/// The edit of a `HomeSwap`.
fn home_swap(board: &Board, i: TeamId, j: TeamId, edit: &mut Edit) -> bool
    requires empty { edit.old ≡ record { n = board.now.n; out = []; into = [] } }
    requires i { i.0 < board.now.n }
    requires j { j.0 < board.now.n }
    ensures { IsEditOf board.now.n board.now.phased (round_counts board.now) (HomeSwap i j) result edit.new }
{
    let _round = board.n();
    if i.0 >= j.0 {
        return false;
    }
    turn(board, i, j, edit);
    turn(board, j, i, edit);
    true
}

/// The edit of a `RoundSwap`.
fn round_swap(board: &Board, s: SlotId, t: SlotId, edit: &mut Edit) -> bool
    requires empty { edit.old ≡ record { n = board.now.n; out = []; into = [] } }
    requires s { s.0 < slot_count board.now.n }
    requires t { t.0 < slot_count board.now.n }
    ensures { IsEditOf board.now.n board.now.phased (round_counts board.now) (RoundSwap s t) result edit.new }
{
    let _round = board.n();
    if s.0 >= t.0 {
        return false;
    }
    let marks = [true; 40];
    exchange_slots_if_legal(board, &marks, s, t, edit)
}

/// The edit of a `TeamSwap`.
fn team_swap(board: &Board, i: TeamId, j: TeamId, edit: &mut Edit) -> bool
    requires empty { edit.old ≡ record { n = board.now.n; out = []; into = [] } }
    requires i { i.0 < board.now.n }
    requires j { j.0 < board.now.n }
    ensures { IsEditOf board.now.n board.now.phased (round_counts board.now) (TeamSwap i j) result edit.new }
{
    let _round = board.n();
    if i.0 >= j.0 {
        return false;
    }
    let marks = slots_apart(board, i, j);
    exchange_teams_if_legal(board, &marks, i, j, edit)
}

/// The edit of a `PartRoundSwap`.
fn part_round_swap(board: &Board, i: TeamId, s: SlotId, t: SlotId, edit: &mut Edit) -> bool
    requires empty { edit.old ≡ record { n = board.now.n; out = []; into = [] } }
    requires i { i.0 < board.now.n }
    requires s { s.0 < slot_count board.now.n }
    requires t { t.0 < slot_count board.now.n }
    ensures { IsEditOf board.now.n board.now.phased (round_counts board.now) (PartRoundSwap i s t) result edit.new }
{
    if s.0 >= t.0 {
        return false;
    }
    let marks = linked_teams(board, i, s, t);
    exchange_slots_if_legal(board, &marks, s, t, edit)
}

/// The edit of a `PartTeamSwap`.
fn part_team_swap(board: &Board, i: TeamId, j: TeamId, s: SlotId, edit: &mut Edit) -> bool
    requires empty { edit.old ≡ record { n = board.now.n; out = []; into = [] } }
    requires i { i.0 < board.now.n }
    requires j { j.0 < board.now.n }
    requires s { s.0 < slot_count board.now.n }
    ensures { IsEditOf board.now.n board.now.phased (round_counts board.now) (PartTeamSwap i j s) result edit.new }
{
    if i.0 >= j.0 || board.opponent(i, s).0 == j.0 {
        return false;
    }
    let marks = linked_slots(board, i, j, s);
    exchange_teams_if_legal(board, &marks, i, j, edit)
}

/// The edit that exchanges two slots in the games of these teams, which are closed under meeting in them, where that
/// leads to a double round robin.
fn exchange_slots_if_legal(
    board: &Board,
    marks: &[bool; 40],
    s: SlotId,
    t: SlotId,
    edit: &mut Edit,
) -> bool
    requires empty { edit.old ≡ record { n = board.now.n; out = []; into = [] } }
    requires order { s.0 < t.0 }
    requires t { t.0 < slot_count board.now.n }
    requires closed { IsClosedTeams board.now.n (round_counts board.now) s.0 t.0
        (λ a. slice_index_or marks.now a false) }
    ensures { IsOutcome board.now.n board.now.phased (round_counts board.now)
        (slots_exchanged (λ a. slice_index_or marks.now a false) s.0 t.0 (round_counts board.now)) result edit.new }
{
    let _round = board.n();
    if !are_exchangeable(board, marks, s, t) {
        return false;
    }
    exchange_slots(board, marks, s, t, edit);
    true
}

/// The edit that exchanges two teams in these slots, which are closed under following and in which they don't meet,
/// where that leads to a double round robin.
fn exchange_teams_if_legal(
    board: &Board,
    marks: &[bool; 78],
    i: TeamId,
    j: TeamId,
    edit: &mut Edit,
) -> bool
    requires empty { edit.old ≡ record { n = board.now.n; out = []; into = [] } }
    requires order { i.0 < j.0 }
    requires j { j.0 < board.now.n }
    requires closed { IsClosedSlots board.now.n (round_counts board.now) i.0 j.0
        (λ r. slice_index_or marks.now r false) }
    ensures { IsOutcome board.now.n board.now.phased (round_counts board.now)
        (teams_exchanged (λ r. slice_index_or marks.now r false) i.0 j.0 (round_counts board.now)) result edit.new }
{
    let _round = board.n();
    if !keep_phases(board, marks, i, j) {
        return false;
    }
    exchange_teams(board, marks, i, j, edit);
    true
}
