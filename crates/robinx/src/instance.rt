// Instance files and solution files.
ghost use Rattle.std.specs.Prelude.{◌≤◌, length, IfOk};
ghost use Rattle.std.specs.List.{All};
ghost use Rattle.robinx.specs.Pieces.{pieces};
ghost use Rattle.league.specs.Instance.{IsGame};
ghost use Rattle.robinx.specs.InstanceFile.{instance_of};
ghost use Rattle.robinx.specs.SolutionFile.{solution_of};
ghost use Rattle.robinx.specs.Answers.{Says};

use crate::draft::Draft;
use crate::element::Element;
use crate::fault::ReadFault;
use crate::games::Games;
use crate::reader::TagReader;
use crate::walk::read_file;
use league::{League, Schedule};
use std::alloc::Global;

/// The most bytes that an instance file may have: 16 MiB (own limit).
pub const INSTANCE_LIMIT: usize = 16_777_216;

/// The most bytes that a solution file may have: 1 MiB (own limit).
pub const SOLUTION_LIMIT: usize = 1_048_576;

/// The league that an instance file of at most `INSTANCE_LIMIT` bytes says (RobinX, as the International Timetabling
/// Competition 2021 uses it): n even and from 2 to 40 teams in a double round robin, phased or not, with at most
/// 20,000 constraints of its nine classes.
///
/// # Errors
/// `Form` exactly where the file has a fault: its first one, with its line. `Mem` where memory runs out.
pub fn read_instance(alloc: Global, bytes: &[u8]) -> Result<League, ReadFault>
    requires { length bytes.now ≤ INSTANCE_LIMIT }
    ensures { Says (instance_of (pieces bytes.now)) result }
{
    let mut draft = Draft::new(alloc);
    read_file(
        alloc,
        TagReader::new(bytes),
        Element::InstanceFile,
        &mut draft,
    )?;
    Ok(draft.into_league())
}

/// The schedule that a solution file (RobinX) of at most `SOLUTION_LIMIT` bytes says, for this league: at most 10,000
/// games of two of its teams in one of its slots, in file order.
///
/// # Errors
/// `Form` exactly where the file has a fault: its first one, with its line. `Mem` where memory runs out.
pub fn read_solution(alloc: Global, bytes: &[u8], league: &League) -> Result<Schedule, ReadFault>
    requires { length bytes.now ≤ SOLUTION_LIMIT }
    ensures value { Says (solution_of league.now.n (pieces bytes.now)) result }
    ensures few { IfOk result (λ games. length games ≤ 10000) }
    ensures fit { IfOk result (All (IsGame league.now.n)) }
{
    let mut games = Games::new(alloc, league.n());
    read_file(
        alloc,
        TagReader::new(bytes),
        Element::SolutionFile,
        &mut games,
    )?;
    Ok(games.into_schedule())
}
