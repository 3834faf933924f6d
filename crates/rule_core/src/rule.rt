//! What a constraint's class is, once it is made ready for evaluation.
ghost use Rattle.std.specs.Prelude.{◌≡◌, ◌<◌, ◌≤◌, ◌+◌, ◌++◌, ℕ, Bool, false, List, [], length, map, Contains};
ghost use Rattle.std.specs.Prelude.{vec_capacity, vec_len};
ghost use Rattle.std.specs.List.{All, range_with_len};
ghost use Rattle.std.specs.List.Sorted.{IsStrictlyIncreasing};
ghost use Rattle.league.specs.Counts.{Counts, one_more};
ghost use Rattle.league.specs.Instance.{IsGame};
ghost use Rattle.league.specs.declared.game.Game.{Game};
ghost use Rattle.rule_core.specs.Table.{table_counts};

use crate::cells::Cells;
use crate::keys::Keys;
use crate::steps::Steps;
use league::{Game, TeamId};

/// The entries of a constraint's deviation vector, and which of them a game can change. No call takes memory.
///
/// An entry is a number for each key and each table of counts: so equal counts have equal entries, whatever the order
/// of the games was.
pub trait Entries: Drop {
    ghost team_count: { Self → ℕ };

    ghost term_count: { Self → ℕ };

    ghost reach_of: { Self → ℕ };

    ghost entry: { Self → ℕ → Counts → ℕ };

    ghost touches: { Self → Game → List ℕ };

    ghost watched: { Self → ℕ → Bool };

    /// The number of teams of the league.
    fn teams(&self) -> u16
        ensures { result ≡ team_count self.now };

    /// The number of entries. Their keys are the numbers below it.
    fn terms(&self) -> usize
        ensures { result ≡ term_count self.now };

    /// The most keys that one game touches.
    fn reach(&self) -> usize
        ensures { result ≡ reach_of self.now };

    /// Adds the keys whose entries the game can change to the list.
    fn touched(&self, game: Game, keys: &mut Keys)
        requires fits { IsGame (team_count self.now) game }
        requires spare { length keys.old.list + reach_of self.now ≤ keys.old.room }
        ensures room { keys.new.room ≡ keys.old.room }
        ensures list { keys.new.list ≡ keys.old.list ++ touches self.now game };

    /// Whether a team is watched: a game of two teams that aren't can change no entry.
    fn watches(&self, team: TeamId) -> bool
        requires team { team.0 < team_count self.now }
        ensures { result ≡ watched self.now team.0 };

    ghost few: { (r : Self) (g : Game) → IsGame (team_count r) g → length (touches r g) ≤ reach_of r };

    ghost below: { (r : Self) (g : Game) → IsGame (team_count r) g → All (λ k. k < term_count r) (touches r g) };

    ghost ascending: { (r : Self) (g : Game) → IsGame (team_count r) g → IsStrictlyIncreasing (touches r g) };

    ghost frame: { (r : Self) (g : Game) (m : Counts) (k : ℕ) → IsGame (team_count r) g → k < term_count r
        → (Contains (touches r g) k → ⊥) → entry r k (one_more m g) ≡ entry r k m };

    ghost quiet: { (r : Self) (g : Game) → IsGame (team_count r) g → watched r g.home.0 ≡ false
        → watched r g.away.0 ≡ false → touches r g ≡ [] };
}

/// Entries that can be evaluated, each at the price of one step in the ledger `L`.
pub trait Rule<L>: Entries {
    /// The entry of a key on these counts.
    fn term(&self, key: usize, cells: &Cells, steps: &mut Steps<L>) -> u64
        requires key { key < Self.term_count self.now }
        requires teams { cells.now.n ≡ Self.team_count self.now }
        ensures entry { result ≡ Self.entry self.now key (table_counts cells.now) }
        ensures tick { steps.new ≡ steps.old + 1 };

    /// Adds all entries to a list that has room for them, in the order of their keys. It takes no memory.
    fn every(&self, cells: &Cells, entries: &mut Vec<u64>, steps: &mut Steps<L>)
        requires teams { cells.now.n ≡ Self.team_count self.now }
        requires room { vec_len entries.old + Self.term_count self.now ≤ vec_capacity entries.old }
        ensures entries { entries.new.items ≡ entries.old.items
            ++ map (λ k. Self.entry self.now k (table_counts cells.now)) (range_with_len 0 (Self.term_count self.now)) }
        ensures ticks { steps.new ≡ steps.old + Self.term_count self.now }
    {
        for key in 0..self.terms() {
            entries.push_reserved(self.term(key, cells, steps));
        }
    }
}
