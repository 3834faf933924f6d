//! The bench at which the keys that a change touches are found.
ghost use Rattle.std.specs.Prelude.{◌≡◌, ◌<◌, length, IfOk};
ghost use Rattle.std.specs.List.{All, flat_map};
ghost use Rattle.league.specs.Instance.{IsGame};
ghost use Rattle.descent.specs.Bench.{HasFound, HasRoom, IsCleared};
ghost use Rattle.descent.specs.ByTeam.{games_at};
ghost use Rattle.descent.specs.KeySet.{AreAdded};

use crate::by_team::GameList;
use crate::key_set::KeySet;
use league::{Game, TeamId};
use rule_core::{Entries, Keys};
use std::alloc::{AllocError, Global};

/// Scratch for one rule after another: the keys that one game touches, and the different keys that were found so far.
#[derive(Drop)]
pub(crate) struct Bench {
    pub(crate) keys: Keys,
    pub(crate) found: KeySet,
}

impl Bench {
    /// A clean bench with room for so many keys of a game, and for each key below a bound.
    pub(crate) fn new(alloc: Global, reach: usize, terms: usize) -> Result<Bench, AllocError>
        ensures { IfOk result (IsCleared reach terms) }
    {
        Ok(Bench {
            keys: Keys::new(alloc, reach)?,
            found: KeySet::new(alloc, terms)?,
        })
    }

    /// Finds the keys of a rule that a game touches.
    #[inline(always)]
    fn add_game<R: Entries>(&mut self, rule: &R, game: Game)
        requires room { HasRoom R.Entries rule.now self.old }
        requires fits { IsGame (R.team_count rule.now) game }
        ensures { HasFound (R.touches rule.now game) self.old self.new }
    {
        self.keys.clear();
        rule.touched(game, &mut self.keys);
        add_keys(&mut self.found, &self.keys);
    }

    /// Finds the keys of a rule that some games touch.
    #[inline(always)]
    pub(crate) fn add_games<R: Entries>(&mut self, rule: &R, games: &[Game])
        requires room { HasRoom R.Entries rule.now self.old }
        requires fit { All (IsGame (R.team_count rule.now)) games.now }
        ensures { HasFound (flat_map (R.touches rule.now) games.now) self.old self.new }
    {
        for game in games {
            self.add_game(rule, *game);
        }
    }

    /// Finds the keys of a rule that the games touch that are listed at some teams.
    #[inline(always)]
    pub(crate) fn add_teams<R: Entries>(&mut self, rule: &R, teams: &[TeamId], lists: &[GameList])
        requires room { HasRoom R.Entries rule.now self.old }
        requires teams { All (λ t. t.0 < length lists.now) teams.now }
        requires fit { All (λ l. All (IsGame (R.team_count rule.now)) l.list) lists.now }
        ensures { HasFound (flat_map (λ t. flat_map (R.touches rule.now) (games_at lists.now t.0)) teams.now)
            self.old self.new }
    {
        for team in teams {
            let listed = &lists[usize::from(team.0)];
            self.add_games(rule, listed.games());
        }
    }
}

/// Adds some keys to a set, each unless it is there.
#[inline(always)]
fn add_keys(found: &mut KeySet, keys: &Keys)
    requires { All (λ k. k < found.old.room) keys.now.list }
    ensures { AreAdded keys.now.list found.old found.new }
{
    for place in 0..keys.len() {
        found.insert(keys.get(place));
    }
}
