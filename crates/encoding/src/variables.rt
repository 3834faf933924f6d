//! The numbers of variables.
ghost use Rattle.std.specs.Prelude.{◌≡◌, ◌≢◌, ◌+◌, ◌-◌, ◌*◌, ◌<◌, ◌≤◌};
ghost use Rattle.league.specs.Counts as counts;
ghost use Rattle.encoding.specs.Variables as variables;
ghost use Rattle.encoding.specs.Variables.{ab_var, h_var, hb_var, x_var};

use league::{Class, Constraint, slot_count};

/// How many games a league of n teams can have: each meeting in each slot.
pub fn x_count(n: u16) -> u32
    requires { n ≤ 40 }
    ensures count { result ≡ variables.x_count n }
    ensures at_most { result ≤ 121680 }
{
    u32::from(n) * u32::from(n.saturating_sub(1)) * u32::from(slot_count(n))
}

/// The variable of a game.
pub fn x_at(n: u16, home: u16, away: u16, slot: u16) -> u32
    requires at_most { n ≤ 40 }
    requires home { home < n }
    requires away { away < n }
    requires differ { home ≢ away }
    requires slot { slot < counts.slot_count n }
    ensures var { result ≡ x_var n home away slot }
    ensures at_least { 1 ≤ result }
    ensures at_most { result ≤ variables.x_count n }
    ensures few { result ≤ 121680 }
{
    let place = place_beside(home, away);
    let meeting = u32::from(home) * u32::from(n - 1) + u32::from(place);
    1 + meeting * u32::from(slot_count(n)) + u32::from(slot)
}

/// The place of a team among the teams other than another.
fn place_beside(team: u16, other: u16) -> u16
    requires { team ≢ other }
    ensures { result ≡ variables.place_beside team other }
{
    if other < team { other } else { other - 1 }
}

/// How many venues a season of n teams has: one for each team and slot.
pub fn h_count(n: u16) -> u32
    requires { n ≤ 40 }
    ensures count { result ≡ variables.h_count n }
    ensures at_most { result ≤ 3120 }
{
    u32::from(n) * u32::from(slot_count(n))
}

/// How many places there are for a home break: one for each team and slot from 1 on.
pub fn hb_count(n: u16) -> u32
    requires { n ≤ 40 }
    ensures count { result ≡ variables.hb_count n }
    ensures at_most { result ≤ 3080 }
{
    u32::from(n) * u32::from(slot_count(n).saturating_sub(1))
}

/// The variable of a team's home game in a slot.
pub fn h_at(n: u16, team: u16, slot: u16) -> u32
    requires at_most { n ≤ 40 }
    requires team { team < n }
    requires slot { slot < counts.slot_count n }
    ensures var { result ≡ h_var n team slot }
    ensures at_least { 1 ≤ result }
    ensures at_most { result ≤ variables.x_count n + variables.h_count n }
    ensures few { result ≤ 124800 }
{
    1 + x_count(n) + u32::from(team) * u32::from(slot_count(n)) + u32::from(slot)
}

/// The variable of a team's home break at a slot, from slot 1 on.
pub fn hb_at(n: u16, team: u16, slot: u16) -> u32
    requires at_most { n ≤ 40 }
    requires team { team < n }
    requires later { 0 < slot }
    requires slot { slot < counts.slot_count n }
    ensures var { result ≡ hb_var n team slot }
    ensures at_least { 1 ≤ result }
    ensures at_most { result ≤ variables.x_count n + variables.h_count n + variables.hb_count n }
    ensures few { result ≤ 127880 }
{
    let slots = u32::from(slot_count(n));
    let venues = u32::from(n) * slots;
    1 + x_count(n) + venues + u32::from(team) * (slots - 1) + u32::from(slot - 1)
}

/// The variable of a team's away break at a slot, from slot 1 on.
pub fn ab_at(n: u16, team: u16, slot: u16) -> u32
    requires at_most { n ≤ 40 }
    requires team { team < n }
    requires later { 0 < slot }
    requires slot { slot < counts.slot_count n }
    ensures var { result ≡ ab_var n team slot }
    ensures at_least { 1 ≤ result }
    ensures at_most { result ≤ variables.x_count n + variables.h_count n + 2 * variables.hb_count n }
    ensures few { result ≤ 130960 }
{
    let breaks = u32::from(n) * (u32::from(slot_count(n)) - 1);
    hb_at(n, team, slot) + breaks
}

/// Whether some hard constraint bounds breaks.
pub fn has_breaks(constraints: &[Constraint]) -> bool
    ensures { result ≡ variables.has_breaks constraints.now }
{
    constraints.iter().any(|constraint| constraint.hard && bounds_breaks(&constraint.class))
}

/// Whether a class bounds breaks.
fn bounds_breaks(class: &Class) -> bool
    ensures { result ≡ variables.bounds_breaks class.now }
{
    match class {
        Class::Br1 { .. } | Class::Br2 { .. } => true,
        _ => false,
    }
}
