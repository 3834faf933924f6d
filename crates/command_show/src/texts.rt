//! The text of a season.
ghost use Rattle.std.specs.Prelude.{◌≡◌, ◌≤◌, ◌++◌, length, string_bytes, IfOk};
ghost use Rattle.std.specs.List.{All};
ghost use Rattle.league.specs.Instance.{IsGame};
ghost use Rattle.league.specs.Order.{IsInOrder};
ghost use Rattle.robinx.specs.Names.{IsNames};
ghost use Rattle.command_check.specs.Assessed.{IsAssessmentOf};
ghost use Rattle.season_misses.specs.SeenTold.{IsTold};
ghost use Rattle.command_show.specs.Show as show;

use crate::csv::season_csv;
use crate::form::Form;
use crate::grid::season_grid;
use crate::season::Season;
use command_check::{structure_line, verdict};
use deviation::{Assessment, counted};
use league::{League, Schedule, TeamId};
use robinx::Names;
use season_misses::{Label, TeamGames, Told, lacks, misses};
use std::alloc::{AllocError, Global};

/// What the teams of a league of n teams are called.
pub(crate) fn labels_of(alloc: Global, names: &Names, n: u16) -> Result<Vec<Label>, AllocError>
    requires { IsNames n names.now }
    ensures { IfOk result (λ labels. labels.items ≡ show.labels_of n names.now) }
{
    let mut labels = Vec::new(alloc);
    for team in 0..n {
        let name = names.label(TeamId(team));
        labels.push(Label::new(String::from_str(alloc, name)?))?;
    }
    Ok(labels)
}

/// The last lines.
fn totals(alloc: Global, assessed: &Assessment) -> Result<String, AllocError>
    ensures { IfOk result (λ text. string_bytes text ≡ show.totals_text assessed.now.structure
        assessed.now.infeasibility assessed.now.objective assessed.now.feasible) }
{
    let structure = structure_line(alloc, assessed.structure)?;
    let verdict = verdict(
        alloc,
        assessed.infeasibility,
        assessed.objective,
        assessed.feasible,
    )?;
    format!(in alloc; "{structure}{verdict}")
}

/// What stands below the grid.
fn words_below(alloc: Global, told: &Told<'_>, assessed: &Assessment) -> Result<String, AllocError>
    requires { IsTold told.now }
    ensures { IfOk result (λ text. string_bytes text ≡ show.words_text told.now.league.now told.now.names.now
        told.now.most told.now.games.now assessed.now.structure assessed.now.infeasibility assessed.now.objective
        assessed.now.feasible) }
{
    let lacks = lacks(
        alloc,
        told.league,
        told.names,
        told.most,
        told.games,
        assessed.structure,
    )?;
    let misses = misses(alloc, told)?;
    let totals = totals(alloc, assessed)?;
    format!(in alloc; "\n{lacks}{misses}\n{totals}")
}

/// The grid of a season with its words below, for a page of a width: `most` lines of each list.
fn shown_text(
    alloc: Global,
    league: &League,
    names: &Names,
    schedule: &Schedule,
    assessed: &Assessment,
    page: Page,
) -> Result<Vec<u8>, AllocError>
    requires names { IsNames league.now.n names.now }
    requires few { length schedule.now ≤ 10000 }
    requires fit { All (IsGame league.now.n) schedule.now }
    requires in_order { IsInOrder schedule.now }
    requires assessed { IsAssessmentOf league.now schedule.now assessed.now }
    ensures { IfOk result (λ text. text.items ≡ show.shown_text league.now names.now schedule.now page.most page.width
        assessed.now.feasible) }
{
    let games = schedule.games();
    let cells = counted(alloc, league.n(), games)?;
    let labels = labels_of(alloc, names, league.n())?;
    let own = TeamGames::of(alloc, league.n(), games)?;
    let told = Told {
        league,
        names: labels.as_slice(),
        most: page.most as usize,
        games,
        cells: &cells,
        own: &own,
        vectors: &assessed.vectors,
    };
    told_text(alloc, names, &told, assessed, page.width)
}

/// The grid of a season that is told, for a page of a width, with its words below.
fn told_text(
    alloc: Global,
    names: &Names,
    told: &Told<'_>,
    assessed: &Assessment,
    width: u32,
) -> Result<Vec<u8>, AllocError>
    requires names { IsNames told.now.league.now.n names.now }
    requires told { IsTold told.now }
    ensures { IfOk result (λ text. text.items
        ≡ show.grid_of told.now.league.now names.now told.now.games.now width
        ++ show.words_text told.now.league.now told.now.names.now told.now.most told.now.games.now
        assessed.now.structure assessed.now.infeasibility assessed.now.objective assessed.now.feasible) }
{
    let season = Season {
        cells: told.cells,
        names,
        phased: told.league.phased(),
    };
    let mut text = season_grid(alloc, &season, width)?;
    let words = words_below(alloc, told, assessed)?;
    text.extend_from_slice(words.as_bytes())?;
    Ok(text)
}

/// How much of a text is shown: the most lines of each list, and the width of the page.
#[derive(Clone, Copy)]
struct Page {
    most: u32,
    width: u32,
}

/// The text of a season in a form.
pub(crate) fn form_text(
    alloc: Global,
    league: &League,
    names: &Names,
    schedule: &Schedule,
    assessed: &Assessment,
    form: Form,
) -> Result<Vec<u8>, AllocError>
    requires names { IsNames league.now.n names.now }
    requires few { length schedule.now ≤ 10000 }
    requires fit { All (IsGame league.now.n) schedule.now }
    requires in_order { IsInOrder schedule.now }
    requires assessed { IsAssessmentOf league.now schedule.now assessed.now }
    ensures { IfOk result (λ text. text.items ≡ show.form_text form league.now names.now schedule.now
        assessed.now.feasible) }
{
    match form {
        Form::Text { most, width } => {
            shown_text(
                alloc,
                league,
                names,
                schedule,
                assessed,
                Page { most, width },
            )
        }
        Form::Csv => season_csv(alloc, names, schedule.games()),
    }
}
