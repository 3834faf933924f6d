//! The tally of a league's canonical season: worked moves, and descents.
ghost use Rattle.std.specs.Prelude.{◌≡◌, ℕ, ◌≤◌, true, length};
ghost use Rattle.std.specs.List.{All};
ghost use Rattle.league.specs.Counts.{counts_of};
ghost use Rattle.league.specs.Instance.{IsGame};
ghost use Rattle.league.specs.Structure.{IsRoundRobin};
ghost use Rattle.rule_core.specs.Table.{table_counts};
ghost use Rattle.moves.specs.Round.{round_counts};

use crate::canonical::boards::is_legal;
use crate::canonical::swaps::step_of;
use crate::canonical::tried::show_tried;
use crate::telling::number_in;
use descent::{Tally, descend, league_tally};
use deviation::AnyRule;
use league::{League, Schedule};
use moves::{Board, Edit};
use rule_core::{Plain, Steps};
use std::alloc::{AllocError, Global};
use std::io;

/// Shows where a descent of at most so many moves leads, each of which keeps the two phases.
pub fn show_descent(
    rt: &HostRuntime,
    league: &League,
    season: &Schedule,
    asked: &str,
) -> io::Result<()>
    requires round_robin { IsRoundRobin league.now.n true (counts_of season.now) }
    requires fit { All (IsGame league.now.n) season.now }
    requires few { length season.now ≤ 10000 }
{
    let mut steps = Steps::<Plain>::start();
    let mut tally = league_tally(rt.alloc(), league, 0, season.games(), &mut steps)?;
    show_descended(rt, &mut tally, number_in(asked).0 as u64)
}

/// Shows what a tally keeps before and after a descent of at most so many moves.
fn show_descended(rt: &HostRuntime, tally: &mut Tally<AnyRule>, limit: u64) -> io::Result<()>
    requires { IsRoundRobin tally.old.table.n true (table_counts tally.old.table) }
{
    show_sums(rt, "before", tally)?;
    let (moves, settled) = go_down(rt.alloc(), tally, limit)?;
    println!(rt; "  moves {moves}, settled: {settled}")?;
    show_sums(rt, "after", tally)
}

/// Goes down by at most so many moves. Gives how many were made, and whether no move leads further down.
fn go_down(
    alloc: Global,
    tally: &mut Tally<AnyRule>,
    limit: u64,
) -> Result<(usize, bool), AllocError>
    requires { IsRoundRobin tally.old.table.n true (table_counts tally.old.table) }
{
    let mut steps = Steps::<Plain>::start();
    let descent = descend(alloc, true, tally, limit, &mut steps)?;
    Ok((descent.trail().len(), descent.settled()))
}

/// Shows the move of such words beside the tally of a season, or all moves where there are no words.
pub fn show_moves(
    rt: &HostRuntime,
    league: &League,
    season: &Schedule,
    board: &Board,
    edit: &mut Edit,
    asked: &str,
) -> io::Result<()>
    requires fit { All (IsGame league.now.n) season.now }
    requires few { length season.now ≤ 10000 }
    requires edit { edit.old.n ≡ board.now.n }
    requires teams { board.now.n ≡ league.now.n }
    requires same { (i j s : ℕ) → counts_of season.now i j s ≡ round_counts board.now i j s }
{
    let mut steps = Steps::<Plain>::start();
    let mut tally = league_tally(rt.alloc(), league, 0, season.games(), &mut steps)?;
    if asked.is_empty() {
        show_tried(rt, league, season, board, &mut tally, edit)
    } else if is_legal(board, step_of(asked), edit) {
        show_weighed(rt, &mut tally, edit)
    } else {
        println!(rt; "  not legal")
    }
}

/// Shows what a tally keeps, what it weighs of an edit, what it keeps after the edit, and after it was taken back.
fn show_weighed(rt: &HostRuntime, tally: &mut Tally<AnyRule>, edit: &Edit) -> io::Result<()>
    requires out_fit { All (IsGame tally.old.table.n) edit.now.out }
    requires into_fit { All (IsGame tally.old.table.n) edit.now.into }
    requires there { (i j s : ℕ) → counts_of edit.now.out i j s ≤ table_counts tally.old.table i j s }
{
    let mut steps = Steps::<Plain>::start();
    show_kept(rt, "before", tally)?;
    let sums = tally.weigh(edit, &mut steps);
    let (infeasibility, objective) = (sums.infeasibility, sums.objective);
    println!(rt; "  weighed: infeasibility {infeasibility}, objective {objective}")?;
    show_kept(rt, "after that", tally)?;
    tally.apply(edit, &mut steps);
    show_kept(rt, "applied", tally)?;
    tally.undo(edit, &mut steps);
    show_kept(rt, "undone", tally)
}

/// Shows the vectors that a tally keeps, and its sums.
fn show_kept(rt: &HostRuntime, title: &str, tally: &Tally<AnyRule>) -> io::Result<()> {
    for k in 0..tally.rule_count() {
        println!(rt; "  {title}: entries {:?}", tally.vector(k))?;
    }
    show_sums(rt, title, tally)
}

/// Shows what the rules of a tally cost.
fn show_sums(rt: &HostRuntime, title: &str, tally: &Tally<AnyRule>) -> io::Result<()> {
    let (infeasibility, objective) = (tally.infeasibility(), tally.objective());
    println!(rt; "  {title}: infeasibility {infeasibility}, objective {objective}")
}
