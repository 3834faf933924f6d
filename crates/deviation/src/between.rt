//! The meetings of some teams with others: which they are, and which teams can be at home in them.
ghost use Rattle.std.specs.Prelude.{◌≡◌, IfOk};
ghost use Rattle.std.specs.List.{filter};
ghost use Rattle.league.specs.Capacity.{is_between};
ghost use Rattle.league.specs.Counts.{teams_of};
ghost use Rattle.deviation.specs.Between as specs;

use crate::opponents::Opponents;
use league::{Side, TeamId};
use std::alloc::{AllocError, Global};

impl Opponents {
    /// Whether a meeting is one of the teams with the others: two look-ups, or four for both sides.
    pub(crate) fn meet(&self, home: TeamId, away: TeamId) -> bool
        ensures { result ≡ is_between self.now.side self.now.teams1 self.now.teams2 (home.0, away.0) }
    {
        let home = home.0;
        let away = away.0;
        match self.side {
            Side::H => self.teams1.has(home) && self.teams2.has(away),
            Side::A => self.teams1.has(away) && self.teams2.has(home),
            Side::Both => {
                (self.teams1.has(home) && self.teams2.has(away))
                    || (self.teams1.has(away) && self.teams2.has(home))
            }
        }
    }

    /// The teams of a league of n teams that can be at home in one of these meetings, in ascending order.
    pub(crate) fn hosts(&self, alloc: Global, n: u16) -> Result<Vec<u16>, AllocError>
        ensures { IfOk result (λ hosts. hosts.items
            ≡ filter (specs.can_host self.now.side self.now.teams1 self.now.teams2) (teams_of n)) }
    {
        let mut hosts = Vec::new(alloc);
        for team in 0..n {
            if self.can_host(team) {
                hosts.push(team)?;
            }
        }
        Ok(hosts)
    }

    /// Whether a team can be at home in one of these meetings.
    fn can_host(&self, team: u16) -> bool
        ensures { result ≡ specs.can_host self.now.side self.now.teams1 self.now.teams2 team }
    {
        match self.side {
            Side::H => self.teams1.has(team),
            Side::A => self.teams2.has(team),
            Side::Both => self.teams1.has(team) || self.teams2.has(team),
        }
    }
}
