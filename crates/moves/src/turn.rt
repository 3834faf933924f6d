//! The move that exchanges the venues of two teams.
ghost use Rattle.std.specs.Prelude.{◌≡◌, ◌≢◌, ℕ, ◌+◌, ◌*◌, ◌<◌, ◌≤◌, ◌&&◌, ◌==◌, if◌then◌else◌, length};
ghost use Rattle.league.specs.Counts.{counts_of};
ghost use Rattle.moves.specs.Round.{round_counts};

use crate::board::Board;
use crate::edit::Edit;
use league::{Game, TeamId};

/// Takes out the game of a team at home to another, and puts it in with the venues exchanged. It takes no memory.
pub(crate) fn turn(board: &Board, home: TeamId, away: TeamId, edit: &mut Edit)
    requires home { home.0 < board.now.n }
    requires away { away.0 < board.now.n }
    requires differ { home.0 ≢ away.0 }
    requires out { length edit.old.out < 4 * edit.old.n }
    requires into { length edit.old.into < 4 * edit.old.n }
    ensures n { edit.new.n ≡ edit.old.n }
    ensures out { (a b r : ℕ) → counts_of edit.new.out a b r ≡ counts_of edit.old.out a b r
        + (if (a == home.0) && (b == away.0) then round_counts board.now home.0 away.0 r else 0) }
    ensures into { (a b r : ℕ) → counts_of edit.new.into a b r ≡ counts_of edit.old.into a b r
        + (if (a == away.0) && (b == home.0) then round_counts board.now home.0 away.0 r else 0) }
    ensures out_length { length edit.new.out ≤ length edit.old.out + 1 }
    ensures into_length { length edit.new.into ≤ length edit.old.into + 1 }
{
    let slot = board.slot_of(home, away);
    let before = Game { home, away, slot };
    let after = Game {
        home: away,
        away: home,
        slot,
    };
    edit.replace(before, after);
}
