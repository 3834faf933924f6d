//! An edit of the counts: some games are taken off, and some are put on.
ghost use Rattle.std.specs.Prelude.{◌≡◌, ℕ, ◌+◌, ◌≤◌, length};
ghost use Rattle.std.specs.List.{All, sum};
ghost use Rattle.league.specs.Counts.{counts_of};
ghost use Rattle.league.specs.Instance.{IsGame};
ghost use Rattle.rule_core.specs.Table.{table_counts};
ghost use Rattle.descent.specs.Tallies.{with_games};

use league::Game;
use rule_core::Cells;

/// Takes games off the counts, each of which is there as often as it is listed.
fn take_off(cells: &mut Cells, games: &[Game])
    requires fit { All (IsGame cells.old.n) games.now }
    requires there { (i j s : ℕ) → counts_of games.now i j s ≤ table_counts cells.old i j s }
    ensures n { cells.new.n ≡ cells.old.n }
    ensures counts { (i j s : ℕ)
        → table_counts cells.new i j s + counts_of games.now i j s ≡ table_counts cells.old i j s }
    ensures total { sum cells.new.list + length games.now ≡ sum cells.old.list }
{
    for game in games {
        cells.remove(*game);
    }
}

/// Puts games on the counts, at most 10,000 in all.
fn put_on(cells: &mut Cells, games: &[Game])
    requires fit { All (IsGame cells.old.n) games.now }
    requires room { sum cells.old.list + length games.now ≤ 10000 }
    ensures n { cells.new.n ≡ cells.old.n }
    ensures counts { (i j s : ℕ)
        → table_counts cells.new i j s ≡ table_counts cells.old i j s + counts_of games.now i j s }
    ensures total { sum cells.new.list ≡ sum cells.old.list + length games.now }
{
    for game in games {
        cells.add(*game);
    }
}

/// Takes the games of one list off the counts, and puts those of another on.
pub(crate) fn exchange_games(cells: &mut Cells, out: &[Game], into: &[Game])
    requires out_fit { All (IsGame cells.old.n) out.now }
    requires into_fit { All (IsGame cells.old.n) into.now }
    requires there { (i j s : ℕ) → counts_of out.now i j s ≤ table_counts cells.old i j s }
    requires room { sum cells.old.list + length into.now ≤ 10000 + length out.now }
    ensures n { cells.new.n ≡ cells.old.n }
    ensures total { sum cells.new.list + length out.now ≡ sum cells.old.list + length into.now }
    ensures counts { (i j s : ℕ) → table_counts cells.new i j s + counts_of out.now i j s
        ≡ table_counts cells.old i j s + counts_of into.now i j s }
    ensures same { with_games (table_counts cells.new) out.now ≡ with_games (table_counts cells.old) into.now }
{
    take_off(cells, out);
    put_on(cells, into);
}
