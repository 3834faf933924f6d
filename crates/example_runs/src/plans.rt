//! The plans that the search of `resume` finds before they are made better: near the old plan.
ghost use Rattle.std.specs.Prelude.{◌≤◌, length};
ghost use Rattle.std.specs.List.{All};
ghost use Rattle.league.specs.Instance.{IsGame};

use league::{League, Schedule, slot_count};
use resume::{Resumed, resume};
use robin_watch::Unwatched;
use robinx::{INSTANCE_LIMIT, SOLUTION_LIMIT, read_instance, read_solution};
use std::{fs, io};

/// The file of the season.
const SEASON: &str = "four-teams-season.xml";

/// How many slots are played.
const PLAYED: u16 = 2;

/// Shows the plan that is found for the league of a file, of four teams.
pub fn show_plan(rt: &HostRuntime, name: &str) -> io::Result<()> {
    let bytes = fs::read(rt, name)?;
    let few = bytes.len().min(INSTANCE_LIMIT);
    match read_instance(rt.alloc(), &bytes[..few]) {
        Ok(league) => show_resumed(rt, &league),
        Err(_) => println!(rt; "no league"),
    }
}

/// Shows the plan that is found for a league from the season on.
fn show_resumed(rt: &HostRuntime, league: &League) -> io::Result<()> {
    let bytes = fs::read(rt, SEASON)?;
    let few = bytes.len().min(SOLUTION_LIMIT);
    match read_solution(rt.alloc(), &bytes[..few], league) {
        Ok(played) => show_found(rt, league, &played),
        Err(_) => println!(rt; "no season"),
    }
}

/// Shows the plan that is found for a league where the first slots of a season are played.
fn show_found(rt: &HostRuntime, league: &League, played: &Schedule) -> io::Result<()>
    requires fit { All (IsGame league.now.n) played.now }
    requires few { length played.now ≤ 10000 }
{
    let k = slot_count(league.n()).min(PLAYED);
    match resume(rt.alloc(), league, played, k, None, &Unwatched) {
        Ok(
            Resumed::Schedule {
                schedule,
                objective,
            },
        ) => show_games(rt, &schedule, objective, k),
        _ => println!(rt; "no plan"),
    }
}

/// Shows the number of a plan's games, its objective, and its games of the first k slots.
fn show_games(rt: &HostRuntime, plan: &Schedule, objective: u128, k: u16) -> io::Result<()> {
    print!(rt; "{} games, objective {objective}; played:", plan.len())?;
    for game in plan.games() {
        if game.slot.0 < k {
            let (home, away, slot) = (game.home.0, game.away.0, game.slot.0);
            print!(rt; " ({home},{away},{slot})")?;
        }
    }
    rt.println("")
}
