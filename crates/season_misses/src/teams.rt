//! Which teams.
ghost use Rattle.std.specs.Prelude.{◌≡◌, ◌<◌, length, map, string_bytes, IfOk, IsTrue};
ghost use Rattle.std.specs.List.{All};
ghost use Rattle.league.specs.Instance.{are_teams};
ghost use Rattle.season_misses.specs.Phrases as phrases;

use crate::label::Label;
use crate::lists::listed;
use league::TeamSet;
use std::alloc::{AllocError, Global};

/// The name of a team.
pub(crate) fn name_of(names: &[Label], team: u16) -> &str
    requires { team < length names.now }
    ensures { result.now ≡ phrases.name_of names.now team }
{
    names[team as usize].text()
}

/// The names of some teams.
fn names_of(alloc: Global, names: &[Label], teams: &[u16]) -> Result<Vec<Label>, AllocError>
    requires { All (λ t. t < length names.now) teams.now }
    ensures { IfOk result (λ found. found.items ≡ map (phrases.name_of names.now) teams.now) }
{
    let mut found = Vec::new(alloc);
    for team in teams {
        let name = String::from_str(alloc, name_of(names, *team))?;
        found.push(Label::new(name))?;
    }
    Ok(found)
}

/// Some teams by their names, with a text before and one after where they are two or more.
fn teams_text(
    alloc: Global,
    names: &[Label],
    front: &str,
    word: &str,
    back: &str,
    teams: &[u16],
) -> Result<String, AllocError>
    requires { All (λ t. t < length names.now) teams.now }
    ensures { IfOk result (λ text. string_bytes text
        ≡ phrases.teams_text names.now front.now word.now back.now teams.now) }
{
    match teams {
        [] => String::from_str(alloc, "no team"),
        [team] => String::from_str(alloc, name_of(names, *team)),
        _ => {
            let found = names_of(alloc, names, teams)?;
            let list = listed(alloc, word, &found)?;
            format!(in alloc; "{front}{list}{back}")
        }
    }
}

/// Each of some teams.
pub(crate) fn each_team(
    alloc: Global,
    names: &[Label],
    teams: &TeamSet,
) -> Result<String, AllocError>
    requires { IsTrue (are_teams (length names.now) teams.now) }
    ensures { IfOk result (λ text. string_bytes text ≡ phrases.each_team (length names.now) names.now teams.now) }
{
    if teams.len() == names.len() {
        return String::from_str(alloc, "each team");
    }
    teams_text(alloc, names, "each of ", "and", "", teams.numbers())
}

/// Some teams together.
pub(crate) fn all_teams(
    alloc: Global,
    names: &[Label],
    teams: &TeamSet,
) -> Result<String, AllocError>
    requires { IsTrue (are_teams (length names.now) teams.now) }
    ensures { IfOk result (λ text. string_bytes text ≡ phrases.all_teams (length names.now) names.now teams.now) }
{
    if teams.len() == names.len() {
        return String::from_str(alloc, "all teams together");
    }
    teams_text(alloc, names, "", "and", " together", teams.numbers())
}

/// Each two of some teams.
pub(crate) fn two_teams(
    alloc: Global,
    names: &[Label],
    teams: &TeamSet,
) -> Result<String, AllocError>
    requires { IsTrue (are_teams (length names.now) teams.now) }
    ensures { IfOk result (λ text. string_bytes text ≡ phrases.two_teams (length names.now) names.now teams.now) }
{
    if teams.len() == names.len() {
        return String::from_str(alloc, "each two teams");
    }
    let text = teams_text(alloc, names, "", "and", "", teams.numbers())?;
    if teams.len() == 2 {
        return Ok(text);
    }
    format!(in alloc; "each two of {text}")
}

/// Against some teams: nothing is said where it is all.
pub(crate) fn against_teams(
    alloc: Global,
    names: &[Label],
    teams: &TeamSet,
) -> Result<String, AllocError>
    requires { IsTrue (are_teams (length names.now) teams.now) }
    ensures { IfOk result (λ text. string_bytes text ≡ phrases.against_teams (length names.now) names.now teams.now) }
{
    if teams.len() == names.len() {
        return Ok(String::new(alloc));
    }
    let text = teams_text(alloc, names, "", "or", "", teams.numbers())?;
    format!(in alloc; " against {text}")
}
