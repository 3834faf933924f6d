//! All legal moves of a canonical season beside its tally, each counted afresh.
ghost use Rattle.std.specs.Prelude.{◌≡◌, ℕ, ◌≤◌, OnOk, length};
ghost use Rattle.std.specs.List.{All};
ghost use Rattle.league.specs.Counts.{counts_of};
ghost use Rattle.league.specs.Instance.{IsGame};
ghost use Rattle.rule_core.specs.Table.{table_counts};
ghost use Rattle.moves.specs.Round.{round_counts};

use crate::canonical::boards::is_legal;
use crate::canonical::counting::changed;
use descent::{Sums, Tally};
use deviation::{AnyRule, Assessment, assess};
use league::{League, Schedule};
use moves::{Board, Edit, Neighbours};
use rule_core::{Plain, Steps};
use std::alloc::{AllocError, Global};
use std::io;

/// How many legal moves were tried, and for how many of them a tally weighs and keeps what is counted afresh, and is as
/// it was once they are taken back.
#[derive(Clone, Copy)]
struct Compared {
    legal: u64,
    weighed: u64,
    kept: u64,
    back: u64,
}

impl Compared {
    /// The counts of this and of other moves.
    fn and(self, other: Compared) -> Compared {
        Compared {
            legal: self.legal.saturating_add(other.legal),
            weighed: self.weighed.saturating_add(other.weighed),
            kept: self.kept.saturating_add(other.kept),
            back: self.back.saturating_add(other.back),
        }
    }
}

/// Shows how many moves of a season are legal, and after how many of them a tally is exact.
pub fn show_tried(
    rt: &HostRuntime,
    league: &League,
    season: &Schedule,
    board: &Board,
    tally: &mut Tally<AnyRule>,
    edit: &mut Edit,
) -> io::Result<()>
    requires fit { All (IsGame league.now.n) season.now }
    requires few { length season.now ≤ 10000 }
    requires edit { edit.old.n ≡ board.now.n }
    requires teams { board.now.n ≡ league.now.n }
    requires tally { tally.old.table.n ≡ league.now.n }
    requires same { (i j s : ℕ) → table_counts tally.old.table i j s ≡ round_counts board.now i j s }
{
    let before = assess(rt.alloc(), league, season)?;
    let mut all = Compared {
        legal: 0,
        weighed: 0,
        kept: 0,
        back: 0,
    };
    let mut steps = Neighbours::new(board.n());
    'steps: while let Some(step) = steps.next() {
        if is_legal(board, step, edit) {
            all = all.and(try_edit(rt.alloc(), league, season, &before, tally, edit)?);
        }
    }
    let (legal, weighed, kept, back) = (all.legal, all.weighed, all.kept, all.back);
    println!(rt;
        "  {legal} legal, {weighed} weighed as counted, {kept} kept as counted, {back} taken back"
    )
}

/// Weighs an edit, makes it and takes it back, and compares with what is counted afresh and with what was before.
fn try_edit(
    alloc: Global,
    league: &League,
    season: &Schedule,
    before: &Assessment,
    tally: &mut Tally<AnyRule>,
    edit: &Edit,
) -> Result<Compared, AllocError>
    requires out_fit { All (IsGame tally.old.table.n) edit.now.out }
    requires into_fit { All (IsGame tally.old.table.n) edit.now.into }
    requires there { (i j s : ℕ) → counts_of edit.now.out i j s ≤ table_counts tally.old.table i j s }
    ensures n { OnOk result (tally.new.table.n ≡ tally.old.table.n) }
    ensures same { OnOk result ((i j s : ℕ) → table_counts tally.new.table i j s ≡ table_counts tally.old.table i j s) }
{
    let mut steps = Steps::<Plain>::start();
    let sums = tally.weigh(edit, &mut steps);
    tally.apply(edit, &mut steps);
    let (weighed, kept) = compare(alloc, league, season, edit, tally, &sums)?;
    tally.undo(edit, &mut steps);
    Ok(Compared {
        legal: 1,
        weighed: weighed as u64,
        kept: kept as u64,
        back: is_as_counted(tally, before) as u64,
    })
}

/// Whether a tally weighed an edit of a season as what is counted afresh after it, and whether it keeps that.
fn compare(
    alloc: Global,
    league: &League,
    season: &Schedule,
    edit: &Edit,
    tally: &Tally<AnyRule>,
    sums: &Sums,
) -> Result<(bool, bool), AllocError> {
    let after = changed(alloc, league.n(), season, edit)?;
    if after.len() > 10_000 {
        return Ok((false, false));
    }
    let fresh = assess(alloc, league, &after)?;
    let is_weighed = sums.infeasibility == fresh.infeasibility && sums.objective == fresh.objective;
    Ok((is_weighed, is_as_counted(tally, &fresh)))
}

/// Whether a tally keeps what is counted afresh.
fn is_as_counted(tally: &Tally<AnyRule>, fresh: &Assessment) -> bool {
    if tally.rule_count() != fresh.vectors.len() {
        return false;
    }
    for k in 0..tally.rule_count() {
        if tally.vector(k) != fresh.vectors.vector(k) {
            return false;
        }
    }
    tally.infeasibility() == fresh.infeasibility && tally.objective() == fresh.objective
}
