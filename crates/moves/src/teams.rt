//! Moves that exchange two teams in some slots.
ghost use Rattle.std.specs.Prelude.{◌≡◌, ◌≢◌, ℕ, ◌+◌, ◌*◌, ◌<◌, ◌≤◌, ◌&&◌, ◌||◌, ◌==◌, ◌↔◌};
ghost use Rattle.std.specs.Prelude.{not, if◌then◌else◌, [], length, true, false, slice_index_or, IsTrue};
ghost use Rattle.league.specs.Counts.{counts_of, slot_count};
ghost use Rattle.moves.specs.Moves.{do_meet, exchange};
ghost use Rattle.moves.specs.Parts.{KeepPhases, MeetAlike, early_games, teams_exchanged};
ghost use Rattle.moves.specs.Round.{AreApart, IsEdit, round_counts};

use crate::board::Board;
use crate::edit::Edit;
use league::{Game, SlotId, TeamId, slot_count};

/// Whether exchanging two teams in these slots, in which they don't meet, leads to a double round robin: where there
/// are no phases, or where both meet the same teams in those of the slots that are in the first half.
pub(crate) fn keep_phases(board: &Board, marks: &[bool; 78], i: TeamId, j: TeamId) -> bool
    requires i { i.0 < board.now.n }
    requires j { j.0 < board.now.n }
    requires differ { i.0 ≢ j.0 }
    requires apart { (r : ℕ) → r < slot_count board.now.n → slice_index_or marks.now r false ≡ true
        → do_meet (round_counts board.now) i.0 j.0 r ≡ false }
    ensures { IsTrue result ↔ KeepPhases board.now.n board.now.phased (round_counts board.now) i.0 j.0
        (λ r. slice_index_or marks.now r false) }
{
    !board.phased() || meet_alike(board, marks, i, j)
}

/// Whether in these slots of the first half the second team meets all that the first meets.
fn meet_alike(board: &Board, marks: &[bool; 78], i: TeamId, j: TeamId) -> bool
    requires i { i.0 < board.now.n }
    requires j { j.0 < board.now.n }
    requires differ { i.0 ≢ j.0 }
    requires apart { (r : ℕ) → r < slot_count board.now.n → slice_index_or marks.now r false ≡ true
        → do_meet (round_counts board.now) i.0 j.0 r ≡ false }
    ensures { IsTrue result ↔ MeetAlike board.now.n (round_counts board.now) i.0 j.0
        (λ r. slice_index_or marks.now r false) }
{
    for slot in 0..board.n() - 1 {
        if marks[slot as usize] {
            let met = board.opponent(i, SlotId(slot));
            if !meets_early(board, marks, j, met) {
                return false;
            }
        }
    }
    true
}

/// Whether two teams meet in one of these slots of the first half.
fn meets_early(board: &Board, marks: &[bool; 78], j: TeamId, k: TeamId) -> bool
    requires j { j.0 < board.now.n }
    requires k { k.0 < board.now.n }
    requires differ { j.0 ≢ k.0 }
    ensures { IsTrue result ↔ (1 ≤ early_games board.now.n (round_counts board.now)
        (λ r. slice_index_or marks.now r false) j.0 k.0) }
{
    let half = board.n() - 1;
    let home = board.slot_of(j, k);
    let away = board.slot_of(k, j);
    is_early_mark(half, marks, home) || is_early_mark(half, marks, away)
}

/// Whether a slot is among these, and before the end of the first half.
fn is_early_mark(half: u16, marks: &[bool; 78], slot: SlotId) -> bool
    requires { slot.0 < 78 }
    ensures { IsTrue result ↔ ((slot.0 < half) × (slice_index_or marks.now slot.0 false ≡ true)) }
{
    slot.0 < half && marks[slot.0 as usize]
}

/// The slots in which two teams don't meet.
pub(crate) fn slots_apart(board: &Board, i: TeamId, j: TeamId) -> [bool; 78]
    requires i { i.0 < board.now.n }
    requires j { j.0 < board.now.n }
    requires differ { i.0 ≢ j.0 }
    ensures { (r : ℕ) → r < slot_count board.now.n
        → slice_index_or result r false ≡ not (do_meet (round_counts board.now) i.0 j.0 r) }
{
    let _most = board.n();
    let mut marks = [true; 78];
    let home = board.slot_of(i, j);
    let away = board.slot_of(j, i);
    marks[home.0 as usize] = false;
    marks[away.0 as usize] = false;
    marks
}

/// Takes out the games of two teams in these slots, and puts in those with the teams exchanged. It takes no memory.
pub(crate) fn exchange_teams(
    board: &Board,
    marks: &[bool; 78],
    i: TeamId,
    j: TeamId,
    edit: &mut Edit,
)
    requires empty { edit.old ≡ record { n = board.now.n; out = []; into = [] } }
    requires i { i.0 < board.now.n }
    requires j { j.0 < board.now.n }
    requires differ { i.0 ≢ j.0 }
    requires apart { (r : ℕ) → r < slot_count board.now.n → slice_index_or marks.now r false ≡ true
        → do_meet (round_counts board.now) i.0 j.0 r ≡ false }
    ensures n { edit.new.n ≡ board.now.n }
    ensures edit { IsEdit (round_counts board.now)
        (teams_exchanged (λ r. slice_index_or marks.now r false) i.0 j.0 (round_counts board.now)) edit.new }
    ensures apart { AreApart edit.new }
{
    for slot in 0..slot_count(board.n()) {
        if marks[slot as usize] {
            trade(board, i, j, SlotId(slot), edit);
            trade(board, j, i, SlotId(slot), edit);
        }
    }
}

/// Takes out the game of a team in a slot, and puts it in with another team in its place.
fn trade(board: &Board, i: TeamId, j: TeamId, slot: SlotId, edit: &mut Edit)
    requires i { i.0 < board.now.n }
    requires slot { slot.0 < slot_count board.now.n }
    requires differ { i.0 ≢ j.0 }
    requires apart { do_meet (round_counts board.now) i.0 j.0 slot.0 ≡ false }
    requires out { length edit.old.out < 4 * edit.old.n }
    requires into { length edit.old.into < 4 * edit.old.n }
    ensures n { edit.new.n ≡ edit.old.n }
    ensures out { (a b r : ℕ) → counts_of edit.new.out a b r ≡ counts_of edit.old.out a b r
        + (if (r == slot.0) && ((a == i.0) || (b == i.0)) then round_counts board.now a b slot.0 else 0) }
    ensures into { (a b r : ℕ) → counts_of edit.new.into a b r ≡ counts_of edit.old.into a b r
        + (if (r == slot.0) && ((a == j.0) || (b == j.0))
        then round_counts board.now (exchange i.0 j.0 a) (exchange i.0 j.0 b) slot.0
        else 0) }
    ensures out_length { length edit.new.out ≤ length edit.old.out + 1 }
    ensures into_length { length edit.new.into ≤ length edit.old.into + 1 }
{
    let game = board.game(i, slot);
    let after = with_team(game, i, j);
    edit.replace(game, after);
}

/// A game of a team, with another team in its place.
fn with_team(game: Game, i: TeamId, j: TeamId) -> Game
    ensures home { result.home.0 ≡ (if game.home.0 == i.0 then j.0 else game.home.0) }
    ensures away { result.away.0 ≡ (if game.home.0 == i.0 then game.away.0 else j.0) }
    ensures slot { result.slot.0 ≡ game.slot.0 }
{
    if game.home.0 == i.0 {
        Game {
            home: j,
            away: game.away,
            slot: game.slot,
        }
    } else {
        Game {
            home: game.home,
            away: j,
            slot: game.slot,
        }
    }
}
