//! Whether a move leaves the first slots alone and betters a season.
ghost use Rattle.std.specs.Prelude.{◌≡◌, ◌↔◌, ℕ, ◌+◌, ◌<◌, ◌≤◌, true, IsTrue, MatchOption};
ghost use Rattle.std.specs.List.{All, list_all};
ghost use Rattle.rule_core.specs.Table.{table_counts};
ghost use Rattle.league.specs.Accepted.{objective};
ghost use Rattle.league.specs.Counts.{counts_of};
ghost use Rattle.league.specs.Instance.{IsGame};
ghost use Rattle.descent.specs.Walks.{IsFullEdit, KeepsGames};
ghost use Rattle.moves.specs.Moves.{IsOfLeague};
ghost use Rattle.descent.specs.Tallies.{IsAtMost};
ghost use Rattle.resume.specs.Alone as alone;
ghost use Rattle.resume.specs.Changed as changed;
ghost use Rattle.resume.specs.Changed.{IsNearer};
ghost use Rattle.resume.specs.Walks as walks;
ghost use Rattle.resume.specs.Walks.{IsBetter, IsGround};

use crate::ground::Ground;
use descent::{Sums, Tally};
use league::Game;
use moves::{Edit, Swap, edit_of};
use rule_core::{Cells, Entries, Rule, Steps};

/// Whether each of some games takes place from slot k on.
fn are_open(games: &[Game], k: u16) -> bool
    ensures { result ≡ list_all (changed.is_open k) games.now }
{
    games.iter().all(|game| game.slot.0 >= k)
}

/// Whether no game of an edit takes place below slot k.
fn leaves_alone(edit: &Edit, k: u16) -> bool
    ensures { result ≡ alone.leaves_alone k edit.now }
{
    are_open(edit.out(), k) && are_open(edit.into_games(), k)
}

/// How often some games stand among those that are counted, in all.
fn times_in(cells: &Cells, games: &[Game]) -> u128
    requires fit { All (IsGame cells.now.n) games.now }
    ensures { result ≡ walks.times_in (table_counts cells.now) games.now }
{
    let mut sum = 0;
    for game in games {
        sum += u128::from(cells.at(game.home, game.away, game.slot));
    }
    sum
}

/// Whether no game of an old plan that is still to come is missing among those that are counted.
fn none_changed(cells: &Cells, games: &[Game], k: u16) -> bool
    requires fit { All (IsGame cells.now.n) games.now }
    ensures { IsTrue result ↔ (changed.changed_on k games.now (table_counts cells.now) ≡ 0) }
{
    for game in games {
        if game.slot.0 >= k && cells.at(game.home, game.away, game.slot) == 0 {
            return false;
        }
    }
    true
}

/// Whether a season changes no game of the old plan and costs nothing. None is nearer.
pub(crate) fn is_least<R: Entries>(ground: &Ground<'_>, tally: &Tally<R>) -> bool
    requires ground { IsGround R.Entries ground.now tally.now }
    ensures { IsTrue result ↔ ((changed.changed_on ground.now.plan.k ground.now.plan.games.now
        (table_counts tally.now.table) ≡ 0)
        × (objective ground.now.plan.league.now (table_counts tally.now.table) ≡ 0)) }
{
    tally.objective() == 0 && none_changed(tally.cells(), ground.plan.games, ground.plan.k)
}

/// What a nearer season costs at most, where so many games of the old plan are taken out and put in; none where none is
/// nearer, whatever it costs.
fn most_sums(out: u128, into: u128, objective: u128) -> Option<Sums>
    ensures { MatchOption result ((cost : ℕ) → IsNearer out cost into objective → ⊥)
        (λ most. (most.infeasibility ≡ 0)
        × ((cost : ℕ) → IsAtMost most.objective cost ↔ IsNearer out cost into objective)) }
{
    if out > into || (out == into && objective == 0) {
        return None;
    }
    Some(Sums {
        infeasibility: 0,
        objective: if out < into { u128::MAX } else { objective - 1 },
    })
}

/// Whether a move is legal, leaves the first slots alone and betters a season. Then the edit is that of the move. The
/// tally has the same games as before.
pub(crate) fn is_better<R: Rule<L>, L>(
    step: Swap,
    ground: &Ground<'_>,
    edit: &mut Edit,
    tally: &mut Tally<R>,
    steps: &mut Steps<L>,
) -> bool
    requires league { IsOfLeague ground.now.plan.league.now.n step }
    requires ground { IsGround R.Entries ground.now tally.old }
    requires edit_for { edit.old.n ≡ ground.now.plan.league.now.n }
    ensures edit_for { edit.new.n ≡ edit.old.n }
    ensures keeps { KeepsGames tally.old tally.new }
    ensures better { IsTrue result ↔ IsBetter ground.now.plan (table_counts tally.old.table) step }
    ensures edit { result ≡ true
        → IsFullEdit ground.now.plan.league.now.n (table_counts tally.old.table) step edit.new }
{
    // For its contract: the games on the board are a double round robin.
    let _phased = ground.board.phased();
    if !edit_of(&step, &ground.board, edit) {
        return false;
    }
    if !leaves_alone(edit, ground.plan.k) {
        return false;
    }
    is_nearer(ground, edit, tally, steps)
}

/// Whether an edit that leaves the first slots alone leads to a season that meets each hard constraint and is nearer
/// the old plan. The tally has the same games as before.
fn is_nearer<R: Rule<L>, L>(
    ground: &Ground<'_>,
    edit: &Edit,
    tally: &mut Tally<R>,
    steps: &mut Steps<L>,
) -> bool
    requires ground { IsGround R.Entries ground.now tally.old }
    requires out_fit { All (IsGame ground.now.plan.league.now.n) edit.now.out }
    requires into_fit { All (IsGame ground.now.plan.league.now.n) edit.now.into }
    requires there { (i j s : ℕ) → counts_of edit.now.out i j s ≤ table_counts tally.old.table i j s }
    ensures keeps { KeepsGames tally.old tally.new }
    ensures nearer { IsTrue result ↔ walks.LeadsNearer ground.now.plan (table_counts tally.old.table) edit.now }
{
    let out = times_in(&ground.old, edit.out());
    let into = times_in(&ground.old, edit.into_games());
    match most_sums(out, into, tally.objective()) {
        None => false,
        Some(most) => tally.weigh_within(edit, most, steps).is_some(),
    }
}
