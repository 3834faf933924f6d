//! All moves, and whether one lowers the score.
ghost use Rattle.std.specs.Prelude.{◌≡◌, ◌↔◌, true, IfOk, IsTrue};
ghost use Rattle.league.specs.Instance.{IsTeamCount};
ghost use Rattle.rule_core.specs.Table.{table_counts};
ghost use Rattle.moves.specs.Moves.{IsOfLeague};
ghost use Rattle.moves.specs.Neighbours as listed;
ghost use Rattle.moves.specs.Round.{round_counts};
ghost use Rattle.descent.specs.Score.{score_on};
ghost use Rattle.descent.specs.Settled.{IsLowering};
ghost use Rattle.descent.specs.Walks.{IsFullEdit, KeepsGames};

use crate::score::lowers;
use crate::tally::Tally;
use moves::{Board, Edit, Neighbours, Swap, edit_of};
use rule_core::{Rule, Steps};
use std::alloc::{AllocError, Global};

/// All moves of a league of n teams, in their order.
///
/// # Errors
/// Only where memory runs out.
pub fn all_moves(alloc: Global, n: u16) -> Result<Vec<Swap>, AllocError>
    requires { IsTeamCount n }
    ensures { IfOk result (λ moves. moves.items ≡ listed.all_moves n) }
{
    let mut moves = Vec::new(alloc);
    let mut rest = Neighbours::new(n);
    'rest: while let Some(step) = rest.next() {
        moves.push(step)?;
    }
    Ok(moves)
}

/// Whether a move is legal and lowers the score of a tally's games, which stand on a board. Then the edit is that of
/// the move. The tally has the same games as before.
pub(crate) fn is_lowering<R: Rule<L>, L>(
    step: Swap,
    board: &Board,
    edit: &mut Edit,
    tally: &mut Tally<R>,
    steps: &mut Steps<L>,
) -> bool
    requires league { IsOfLeague board.now.n step }
    requires n { edit.old.n ≡ board.now.n }
    requires teams { tally.old.table.n ≡ board.now.n }
    requires counts { table_counts tally.old.table ≡ round_counts board.now }
    ensures n { edit.new.n ≡ edit.old.n }
    ensures keeps { KeepsGames tally.old tally.new }
    ensures lowers { IsTrue result ↔ IsLowering board.now.n board.now.phased
        (score_on R.Entries tally.old.weights) (round_counts board.now) step }
    ensures edit { result ≡ true → IsFullEdit board.now.n (round_counts board.now) step edit.new }
{
    if !edit_of(&step, board, edit) {
        return false;
    }
    lowers(tally, edit, steps)
}
