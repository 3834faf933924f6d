//! An edit of the games, and the counts to which it led.
ghost use Rattle.std.specs.Prelude.{◌≡◌, ◌≤◌, [], ◌++◌};
ghost use Rattle.std.specs.List.{All, flat_map};
ghost use Rattle.league.specs.Instance.{IsGame};
ghost use Rattle.descent.specs.Bench.{HasFound, HasTouched};
ghost use Rattle.descent.specs.Change.{AreListed, games_of};
ghost use Rattle.descent.specs.Ready.{IsReady};

use crate::bench::Bench;
use crate::by_team::GameList;
use crate::kept::Kept;
use league::Game;
use rule_core::{Cells, Entries};
use std::marker::Model;

/// The games that were taken off the counts and put on them, all of which fit the league, the same games listed by
/// team, and the counts after that. Where there are too many games for the lists, there is no list.
#[derive(Drop)]
pub(crate) struct Change<'a> {
    out: &'a [Game],
    into: &'a [Game],
    by_team: &'a [GameList],
    cells: &'a Cells,
}

impl<'a> Model for Change<'a> {
    ghost use Rattle.descent.specs.Change.{AreListed, Changed};

    ghost Value = { Changed };

    ghost view = { λ c. record { out = c.out.now; into = c.into.now; table = c.cells.now } };

    ghost invariant = { λ c. AreListed c.cells.now.n c.out.now c.into.now c.by_team.now };
}

impl<'a> Change<'a> {
    /// The change by these games to these counts.
    pub(crate) fn new(
        out: &'a [Game],
        into: &'a [Game],
        by_team: &'a [GameList],
        cells: &'a Cells,
    ) -> Change<'a>
        requires { AreListed cells.now.n out.now into.now by_team.now }
        ensures { result ≡ record { out = out.now; into = into.now; table = cells.now } }
    {
        Change {
            out,
            into,
            by_team,
            cells,
        }
    }

    /// The counts to which the change led.
    #[inline(always)]
    pub(crate) fn cells(&self) -> &Cells
        ensures { result.now ≡ self.now.table }
    {
        self.cells
    }

    /// Finds the keys of a rule that the change touches at a clean bench, each once.
    #[inline(always)]
    pub(crate) fn find_keys<R: Entries>(&self, kept: &Kept<R>, bench: &mut Bench)
        requires ready { IsReady R.Entries self.now.table.n bench.old.found.room kept.now }
        requires reach { R.reach_of kept.now.weighted.rule ≤ bench.old.keys.room }
        requires clean { bench.old.found.list ≡ [] }
        ensures touched { HasTouched R.Entries kept.now.weighted.rule (games_of self.now) bench.old bench.new }
        ensures out_fit { All (IsGame (R.team_count kept.now.weighted.rule)) self.now.out }
        ensures into_fit { All (IsGame (R.team_count kept.now.weighted.rule)) self.now.into }
    {
        self.add_keys(kept, bench);
        let _found = bench.found.len();
    }

    /// Adds the keys of a rule that the change touches. A rule that watches few teams is asked for the games of these
    /// alone, where the games are listed by team.
    #[inline(always)]
    fn add_keys<R: Entries>(&self, kept: &Kept<R>, bench: &mut Bench)
        requires ready { IsReady R.Entries self.now.table.n bench.old.found.room kept.now }
        requires reach { R.reach_of kept.now.weighted.rule ≤ bench.old.keys.room }
        ensures found { HasFound (flat_map (R.touches kept.now.weighted.rule) self.now.out
            ++ flat_map (R.touches kept.now.weighted.rule) self.now.into) bench.old bench.new }
        ensures out_fit { All (IsGame (R.team_count kept.now.weighted.rule)) self.now.out }
        ensures into_fit { All (IsGame (R.team_count kept.now.weighted.rule)) self.now.into }
    {
        let rule = &kept.weighted.rule;
        if kept.watches_few(self.by_team.len()) {
            bench.add_teams(rule, &kept.watched, self.by_team);
            return;
        }
        bench.add_games(rule, self.out);
        bench.add_games(rule, self.into);
    }
}
