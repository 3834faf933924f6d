//! The answer to a season.
ghost use Rattle.std.specs.Prelude.{◌≡◌, ◌≤◌, length, if◌then◌else◌, IfOk};
ghost use Rattle.std.specs.List.{All};
ghost use Rattle.league.specs.Instance.{IsGame};
ghost use Rattle.robinx.specs.Names.{IsNames};
ghost use Rattle.answers.specs.SeenReply.{answer_of};
ghost use Rattle.command_show.specs.Show as show;
ghost use Rattle.command_show.specs.Show.{IsShown};

use crate::form::Form;
use crate::texts::form_text;
use answers::{Reply, Status};
use deviation::assess;
use league::{League, Schedule};
use robinx::Names;
use std::alloc::{AllocError, Global};

/// How a run ends that judged a season.
fn status_of(feasible: bool) -> Status
    ensures { result ≡ (if feasible then Status.Yes else Status.No) }
{
    if feasible { Status::Yes } else { Status::No }
}

/// Judges a season by its league, and makes its text.
pub(crate) fn shown_reply(
    alloc: Global,
    league: &League,
    names: &Names,
    schedule: Schedule,
    form: Form,
) -> Result<Reply, AllocError>
    requires names { IsNames league.now.n names.now }
    requires few { length schedule ≤ 10000 }
    requires fit { All (IsGame league.now.n) schedule }
    ensures { IfOk result (λ reply. IsShown league.now (show.form_text form league.now names.now) schedule
        (answer_of reply)) }
{
    let mut schedule = schedule;
    schedule.put_in_order();
    let assessed = assess(alloc, league, &schedule)?;
    let text = form_text(alloc, league, names, &schedule, &assessed, form)?;
    Ok(Reply {
        status: status_of(assessed.feasible),
        text,
    })
}
