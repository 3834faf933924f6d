//! What teams are called: their names, with their numbers where two are shown alike.
ghost use Rattle.std.specs.Prelude.{◌≡◌, ◌++◌, IfOk, bytes_eq, codes, decimal, length, map, string_bytes};
ghost use Rattle.std.specs.List.{list_any};
ghost use Rattle.league.specs.Counts.{teams_of};
ghost use Rattle.robinx.specs.Names as names;

use std::alloc::{AllocError, Global};

/// A team by its name, or that it is the team of this number.
fn shown(alloc: Global, name: &str, team: usize) -> Result<String, AllocError>
    ensures { IfOk result (λ text. string_bytes text
        ≡ names.or_else name.now (codes "team " ++ decimal team)) }
{
    if name.is_empty() {
        return format!(in alloc; "team {team}");
    }
    String::from_str(alloc, name)
}

/// All teams as they are shown.
fn all_shown(alloc: Global, teams: &[String]) -> Result<Vec<String>, AllocError>
    ensures { IfOk result (λ texts. map string_bytes texts.items
        ≡ names.all_shown (map string_bytes teams.now)) }
{
    let mut texts = Vec::new(alloc);
    for team in 0..teams.len() {
        texts.push(shown(alloc, &teams[team], team)?)?;
    }
    Ok(texts)
}

/// Whether one of these texts is this one.
fn contains(texts: &[String], text: &str) -> bool
    ensures { result ≡ list_any (λ other. bytes_eq text.now (string_bytes other)) texts.now }
{
    texts.iter().any(|other| text == other.as_str())
}

/// Whether no two texts are the same.
fn are_distinct(texts: &[String]) -> bool
    ensures { result ≡ names.are_distinct (map string_bytes texts.now) }
{
    let mut rest = texts;
    'rest: while let [text, others @ ..] = rest {
        if contains(others, text) {
            return false;
        }
        rest = others;
    }
    true
}

/// A name, with the team's number before it unless all names are distinct.
fn labelled(alloc: Global, distinct: bool, team: usize, name: &str) -> Result<String, AllocError>
    ensures { IfOk result (λ text. string_bytes text ≡ names.labelled distinct team name.now) }
{
    if distinct {
        return String::from_str(alloc, name);
    }
    format!(in alloc; "#{team} {name}")
}

/// What all teams are called.
pub(crate) fn labels(alloc: Global, teams: &[String]) -> Result<Vec<String>, AllocError>
    ensures { IfOk result (λ labels. map string_bytes labels.items
        ≡ map (names.label_among (map string_bytes teams.now)) (teams_of (length teams.now))) }
{
    let texts = all_shown(alloc, teams)?;
    let distinct = are_distinct(&texts);
    let mut labels = Vec::new(alloc);
    for team in 0..texts.len() {
        labels.push(labelled(alloc, distinct, team, &texts[team])?)?;
    }
    Ok(labels)
}
