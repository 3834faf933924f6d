//! What a season lacks of a double round robin, in words.
ghost use Rattle.std.specs.Prelude.{◌≡◌, ◌++◌, ◌≤◌, string_bytes, IfOk, OnOk};
ghost use Rattle.std.specs.List.{filter, flat_map, range_with_len};
ghost use Rattle.season_misses.specs.Lacks as lacks;

use crate::cut::push_cut;
use crate::game_words::{games_text, name_at};
use crate::label::Label;
use league::{Game, League, Wrongs, slot_count};
use std::alloc::{AllocError, Global};

/// A kind of what may be there just once: a home team's game with an away team, a team's game in a slot, and two teams'
/// game in the first half.
#[derive(Clone, Copy)]
pub enum Lack {
    Meeting,
    Cell,
    Early,
}

/// Whether a game is one of team i at home to team j, of team i in slot j, or of the two teams in the first half.
fn is_of(lack: Lack, n: u16, i: u16, j: u16, game: Game) -> bool
    ensures { result ≡ lacks.is_of lack n i j game }
{
    let (home, away, slot) = (game.home.0, game.away.0, game.slot.0);
    match lack {
        Lack::Meeting => home == i && away == j,
        Lack::Cell => (home == i || away == i) && slot == j,
        Lack::Early => {
            let there = home == i && away == j;
            let back = home == j && away == i;
            (there || back) && slot < n.saturating_sub(1)
        }
    }
}

/// Whether there is to be one such game.
fn is_wanted(lack: Lack, i: u16, j: u16) -> bool
    ensures { result ≡ lacks.is_wanted lack i j }
{
    match lack {
        Lack::Meeting => i != j,
        Lack::Cell => true,
        Lack::Early => i < j,
    }
}

/// Which game is to be there.
fn place_text(
    alloc: Global,
    lack: Lack,
    names: &[Label],
    i: u16,
    j: u16,
) -> Result<String, AllocError>
    ensures { IfOk result (λ text. string_bytes text ≡ lacks.place_text lack names.now i j) }
{
    let first = name_at(names, i);
    let second = name_at(names, j);
    match lack {
        Lack::Meeting => format!(in alloc; "{first} at home to {second}"),
        Lack::Cell => format!(in alloc; "{first} in slot {j}"),
        Lack::Early => format!(in alloc; "{first} and {second} in the first half"),
    }
}

/// How often: times, or games.
fn unit_text(lack: Lack) -> &'static str
    ensures { result.now ≡ lacks.unit_text lack }
{
    match lack {
        Lack::Meeting => " times, ",
        Lack::Cell | Lack::Early => " games, ",
    }
}

/// How many games there are, which aren't one.
fn found_text(
    alloc: Global,
    lack: Lack,
    names: &[Label],
    found: &[Game],
) -> Result<String, AllocError>
    ensures { IfOk result (λ text. string_bytes text ≡ lacks.found_text lack names.now found.now) }
{
    if found.is_empty() {
        return String::from_str(alloc, "no game");
    }
    let count = found.len();
    let unit = unit_text(lack);
    let games = games_text(alloc, names, found)?;
    format!(in alloc; "{count}{unit}{games}")
}

/// The games of which there is to be one.
fn games_of(
    alloc: Global,
    lack: Lack,
    n: u16,
    games: &[Game],
    i: u16,
    j: u16,
) -> Result<Vec<Game>, AllocError>
    ensures { IfOk result (λ found. found.items ≡ filter (lacks.is_of lack n i j) games.now) }
{
    let found = games.iter().copied();
    let found = found.filter(|game| is_of(lack, n, i, j, *game));
    found.collect(alloc)
}

/// A season of a league of n teams, with what the teams are called.
#[derive(Clone, Copy)]
pub(crate) struct Named<'a> {
    pub(crate) n: u16,
    pub(crate) names: &'a [Label],
    pub(crate) games: &'a [Game],
}

/// Adds the line on what is to be there, unless one such game was found.
fn push_found(
    lines: &mut Vec<Label>,
    lack: Lack,
    names: &[Label],
    i: u16,
    j: u16,
    found: &[Game],
) -> Result<(), AllocError>
    ensures { OnOk result (lines.new.items
        ≡ lines.old.items ++ lacks.line_unless_one lack names.now i j found.now) }
{
    if found.len() == 1 {
        return Ok(());
    }
    let alloc = *lines.allocator();
    let place = place_text(alloc, lack, names, i, j)?;
    let there = found_text(alloc, lack, names, found)?;
    lines.push(Label::new(format!(in alloc; "{place}: {there}")?))?;
    Ok(())
}

/// Adds the line on what is to be there, unless it is.
fn push_lack(
    lines: &mut Vec<Label>,
    lack: Lack,
    season: Named<'_>,
    i: u16,
    j: u16,
) -> Result<(), AllocError>
    ensures { OnOk result (lines.new.items ≡ lines.old.items
        ++ lacks.lack_at lack season.entry.n season.entry.names.now season.entry.games.now i j) }
{
    if !is_wanted(lack, i, j) {
        return Ok(());
    }
    let found = games_of(*lines.allocator(), lack, season.n, season.games, i, j)?;
    push_found(lines, lack, season.names, i, j, &found)
}

/// Adds the lines of a team, with other teams or with slots.
fn push_team(
    lines: &mut Vec<Label>,
    lack: Lack,
    season: Named<'_>,
    i: u16,
    seconds: u16,
) -> Result<(), AllocError>
    ensures { OnOk result (lines.new.items ≡ lines.old.items ++ flat_map
        (lacks.lack_at lack season.entry.n season.entry.names.now season.entry.games.now i)
        (range_with_len 0 seconds)) }
{
    for j in 0..seconds {
        push_lack(lines, lack, season, i, j)?;
    }
    Ok(())
}

/// Adds the lines of all teams, with other teams or with slots.
fn push_teams(
    lines: &mut Vec<Label>,
    lack: Lack,
    season: Named<'_>,
    seconds: u16,
) -> Result<(), AllocError>
    ensures { OnOk result (lines.new.items ≡ lines.old.items ++ lacks.lacks_at lack season.entry.n
        season.entry.names.now season.entry.games.now (range_with_len 0 season.entry.n) (range_with_len 0 seconds)) }
{
    for i in 0..season.n {
        push_team(lines, lack, season, i, seconds)?;
    }
    Ok(())
}

/// Adds all lines, of a league that is phased or not.
fn push_lacks(lines: &mut Vec<Label>, phased: bool, season: Named<'_>) -> Result<(), AllocError>
    requires { season.n ≤ 40 }
    ensures { OnOk result (lines.new.items ≡ lines.old.items
        ++ lacks.lacks season.entry.n phased season.entry.names.now season.entry.games.now) }
{
    push_teams(lines, Lack::Meeting, season, season.n)?;
    push_teams(lines, Lack::Cell, season, slot_count(season.n))?;
    if phased {
        push_teams(lines, Lack::Early, season, season.n)?;
    }
    Ok(())
}

/// Whether nothing is wrong.
fn is_whole(wrongs: Wrongs) -> bool
    ensures { result ≡ lacks.is_whole wrongs }
{
    wrongs.pairs_wrong == 0 && wrongs.cells_wrong == 0 && wrongs.phases_wrong == 0
}

/// What games in order lack of a double round robin of their league, `most` lines of it, and an empty line; nothing
/// where these counts of what is wrong are 0. The names are those of all teams, by number.
///
/// # Errors
/// Only where memory runs out.
pub fn lacks(
    alloc: Global,
    league: &League,
    names: &[Label],
    most: usize,
    games: &[Game],
    wrongs: Wrongs,
) -> Result<String, AllocError>
    ensures { IfOk result (λ text. string_bytes text ≡ lacks.lacks_text league.now.n league.now.phased names.now most
        games.now wrongs) }
{
    if is_whole(wrongs) {
        return Ok(String::new(alloc));
    }
    let n = league.n();
    let mut lines = Vec::new(alloc);
    push_lacks(&mut lines, league.phased(), Named { n, names, games })?;
    let mut text = String::from_str(alloc, "no double round robin:\n")?;
    push_cut(&mut text, "  ", " more", most, &lines)?;
    text.push_str("\n")?;
    Ok(text)
}
