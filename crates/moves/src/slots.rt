//! Moves that exchange two slots in the games of some teams.
ghost use Rattle.std.specs.Prelude.{◌≡◌, ◌≢◌, ℕ, ◌+◌, ◌*◌, ◌<◌, ◌≤◌, ◌&&◌, ◌==◌, ◌↔◌};
ghost use Rattle.std.specs.Prelude.{if◌then◌else◌, [], length, slice_index_or, false, IsTrue};
ghost use Rattle.league.specs.Counts.{counts_of, slot_count};
ghost use Rattle.moves.specs.Parts.{AreExchangeable, HaveSamePairs, is_early, slots_exchanged};
ghost use Rattle.moves.specs.Moves.{do_meet};
ghost use Rattle.moves.specs.Round.{AreApart, IsEdit, round_counts};

use crate::board::Board;
use crate::edit::Edit;
use league::{Game, SlotId, TeamId};

/// Whether exchanging two slots in the games of these teams, which are closed under meeting in them, leads to a double
/// round robin: where there are no phases, in slots of one half, or where each of the teams has one opponent in both.
pub(crate) fn are_exchangeable(board: &Board, marks: &[bool; 40], s: SlotId, t: SlotId) -> bool
    requires s { s.0 < slot_count board.now.n }
    requires t { t.0 < slot_count board.now.n }
    ensures { IsTrue result ↔ AreExchangeable board.now.n board.now.phased (round_counts board.now) s.0 t.0
        (λ a. slice_index_or marks.now a false) }
{
    !board.phased() || are_in_one_half(board, s, t) || have_same_pairs(board, marks, s, t)
}

/// Whether two slots are in one half of the season.
pub(crate) fn are_in_one_half(board: &Board, s: SlotId, t: SlotId) -> bool
    ensures { IsTrue result ↔ (is_early board.now.n s.0 ≡ is_early board.now.n t.0) }
{
    let half = board.n() - 1;
    (s.0 < half) == (t.0 < half)
}

/// Whether each of these teams has the same opponent in two slots.
fn have_same_pairs(board: &Board, marks: &[bool; 40], s: SlotId, t: SlotId) -> bool
    requires s { s.0 < slot_count board.now.n }
    requires t { t.0 < slot_count board.now.n }
    ensures { IsTrue result ↔ HaveSamePairs board.now.n (round_counts board.now) s.0 t.0
        (λ a. slice_index_or marks.now a false) }
{
    for team in 0..board.n() {
        if marks[team as usize] && !has_one_opponent(board, TeamId(team), s, t) {
            return false;
        }
    }
    true
}

/// Whether a team has the same opponent in two slots.
pub(crate) fn has_one_opponent(board: &Board, team: TeamId, s: SlotId, t: SlotId) -> bool
    requires team { team.0 < board.now.n }
    requires s { s.0 < slot_count board.now.n }
    requires t { t.0 < slot_count board.now.n }
    ensures { IsTrue result ↔ ((b : ℕ) → b < board.now.n → do_meet (round_counts board.now) team.0 b s.0
        ≡ do_meet (round_counts board.now) team.0 b t.0) }
{
    board.opponent(team, s).0 == board.opponent(team, t).0
}

/// Takes out the games of these teams in two slots, and puts each in at the other slot. It takes no memory.
pub(crate) fn exchange_slots(
    board: &Board,
    marks: &[bool; 40],
    s: SlotId,
    t: SlotId,
    edit: &mut Edit,
)
    requires empty { edit.old ≡ record { n = board.now.n; out = []; into = [] } }
    requires order { s.0 < t.0 }
    requires t { t.0 < slot_count board.now.n }
    ensures n { edit.new.n ≡ board.now.n }
    ensures edit { IsEdit (round_counts board.now)
        (slots_exchanged (λ a. slice_index_or marks.now a false) s.0 t.0 (round_counts board.now)) edit.new }
    ensures apart { AreApart edit.new }
{
    for team in 0..board.n() {
        if marks[team as usize] {
            put_off(board, TeamId(team), s, t, edit);
            put_off(board, TeamId(team), t, s, edit);
        }
    }
}

/// Takes out the game in slot s of a team that is at home there, and puts it in at slot t.
fn put_off(board: &Board, team: TeamId, s: SlotId, t: SlotId, edit: &mut Edit)
    requires team { team.0 < board.now.n }
    requires s { s.0 < slot_count board.now.n }
    requires out { length edit.old.out < 4 * edit.old.n }
    requires into { length edit.old.into < 4 * edit.old.n }
    ensures n { edit.new.n ≡ edit.old.n }
    ensures out { (a b r : ℕ) → counts_of edit.new.out a b r ≡ counts_of edit.old.out a b r
        + (if (a == team.0) && (r == s.0) then round_counts board.now a b s.0 else 0) }
    ensures into { (a b r : ℕ) → counts_of edit.new.into a b r ≡ counts_of edit.old.into a b r
        + (if (a == team.0) && (r == t.0) then round_counts board.now a b s.0 else 0) }
    ensures out_length { length edit.new.out ≤ length edit.old.out + 1 }
    ensures into_length { length edit.new.into ≤ length edit.old.into + 1 }
{
    let game = board.game(team, s);
    if game.home == team {
        let later = Game {
            home: game.home,
            away: game.away,
            slot: t,
        };
        edit.replace(game, later);
    }
}
