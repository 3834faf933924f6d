//! Lists of literals, as the definitions list them.
ghost use Rattle.std.specs.Prelude.{◌≡◌, ◌<◌, ◌≤◌, ◌++◌, map, OnOk};
ghost use Rattle.std.specs.List.{All};
ghost use Rattle.league.specs.Counts.{slot_count};
ghost use Rattle.rows.specs.Literals.{yes};
ghost use Rattle.rows.specs.Sums.{literal};
ghost use Rattle.encoding.specs.Ascending.{AreMeetings, AreSlots, IsMeeting};
ghost use Rattle.encoding.specs.Lists.{games_in};
ghost use Rattle.encoding.specs.Variables.{h_var, x_var};

use crate::variables::{h_at, x_at};
use rows::Lit;
use std::alloc::AllocError;

/// Adds the games of some meetings in some slots.
pub(crate) fn add_games(
    literals: &mut Vec<Lit>,
    n: u16,
    meetings: &[(u16, u16)],
    slots: &[u16],
) -> Result<(), AllocError>
    requires teams { n ≤ 40 }
    requires meetings { AreMeetings n meetings.now }
    requires slots { AreSlots n slots.now }
    ensures { OnOk result (literals.new.items ≡ literals.old.items ++ games_in n meetings.now slots.now) }
{
    for meeting in meetings {
        add_games_of(literals, n, *meeting, slots)?;
    }
    Ok(())
}

/// Adds the games of a meeting in some slots.
fn add_games_of(
    literals: &mut Vec<Lit>,
    n: u16,
    meeting: (u16, u16),
    slots: &[u16],
) -> Result<(), AllocError>
    requires teams { n ≤ 40 }
    requires meeting { IsMeeting n meeting }
    requires slots { AreSlots n slots.now }
    ensures { OnOk result (literals.new.items
        ≡ literals.old.items ++ map (λ s. yes (x_var n meeting.0 meeting.1 s)) slots.now) }
{
    for slot in slots {
        literals.push(Lit::new(x_at(n, meeting.0, meeting.1, *slot), true))?;
    }
    Ok(())
}

/// Adds that a team is at home in some slots, or that it is away.
pub(crate) fn add_venue(
    literals: &mut Vec<Lit>,
    n: u16,
    team: u16,
    home: bool,
    slots: &[u16],
) -> Result<(), AllocError>
    requires teams { n ≤ 40 }
    requires team { team < n }
    requires slots { AreSlots n slots.now }
    ensures { OnOk result
        (literals.new.items ≡ literals.old.items ++ map (λ s. literal (h_var n team s) home) slots.now) }
{
    for slot in slots {
        literals.push(Lit::new(h_at(n, team, *slot), home))?;
    }
    Ok(())
}

/// Adds that some teams are at home in a slot.
pub(crate) fn add_teams_at_home(
    literals: &mut Vec<Lit>,
    n: u16,
    teams: &[u16],
    slot: u16,
) -> Result<(), AllocError>
    requires count { n ≤ 40 }
    requires teams { All (λ t. t < n) teams.now }
    requires slot { slot < slot_count n }
    ensures { OnOk result (literals.new.items ≡ literals.old.items ++ map (λ i. yes (h_var n i slot)) teams.now) }
{
    for team in teams {
        literals.push(Lit::new(h_at(n, *team, slot), true))?;
    }
    Ok(())
}
