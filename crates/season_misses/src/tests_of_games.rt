//! Which games count: the tests of single games.
ghost use Rattle.std.specs.Prelude.{◌≡◌};
ghost use Rattle.league.specs.Capacity.{is_between};
ghost use Rattle.league.specs.Sets.{is_in};
ghost use Rattle.rule_core.specs.Meetings.{is_listed};
ghost use Rattle.rule_core.specs.Touched.{plays_against, plays_on};
ghost use Rattle.season_misses.specs.Counting as counting;

use league::{Game, PairSet, Side, SlotId, TeamId, TeamSet};

/// A team on a side.
#[derive(Clone, Copy)]
pub(crate) struct Player {
    pub(crate) team: u16,
    pub(crate) side: Side,
}

/// Whether a number is one of these.
fn has(numbers: &[u16], number: u16) -> bool
    ensures { result ≡ is_in number numbers.now }
{
    numbers.iter().any(|other| *other == number)
}

/// Whether a team plays a game on a side.
pub(crate) fn is_on(side: Side, game: Game, team: u16) -> bool
    ensures { result ≡ plays_on side game team }
{
    match side {
        Side::H => team == game.home.0,
        Side::A => team == game.away.0,
        Side::Both => team == game.home.0 || team == game.away.0,
    }
}

/// Whether a team plays a game on a side against one of these teams.
pub(crate) fn is_against(side: Side, others: &TeamSet, game: Game, team: u16) -> bool
    ensures { result ≡ plays_against side others.now game team }
{
    let at_home = team == game.home.0 && has(others.numbers(), game.away.0);
    let away = team == game.away.0 && has(others.numbers(), game.home.0);
    match side {
        Side::H => at_home,
        Side::A => away,
        Side::Both => at_home || away,
    }
}

/// Whether a game is one of some teams with others, where the side is that of the first.
fn is_of(side: Side, teams1: &TeamSet, teams2: &TeamSet, game: Game) -> bool
    ensures { result ≡ is_between side teams1.now teams2.now (game.home.0, game.away.0) }
{
    let (home, away) = (game.home.0, game.away.0);
    let at_home = has(teams1.numbers(), home) && has(teams2.numbers(), away);
    let is_away = has(teams1.numbers(), away) && has(teams2.numbers(), home);
    match side {
        Side::H => at_home,
        Side::A => is_away,
        Side::Both => at_home || is_away,
    }
}

/// Whether the meeting of a game is one of these.
fn is_meeting(meetings: &PairSet, game: Game) -> bool
    ensures { result ≡ is_listed meetings.now game.home.0 game.away.0 }
{
    meetings
        .numbers()
        .iter()
        .any(|pair| pair.0 == game.home.0 && pair.1 == game.away.0)
}

/// Whether a game counts for CA1.
pub(crate) fn counts_in_ca1(player: Player, slots: &[u16], game: Game) -> bool
    ensures { result ≡ counting.counts_in_ca1 player.side slots.now player.team game }
{
    is_on(player.side, game, player.team) && has(slots, game.slot.0)
}

/// Whether a game counts for CA2.
pub(crate) fn counts_in_ca2(player: Player, others: &TeamSet, slots: &[u16], game: Game) -> bool
    ensures { result ≡ counting.counts_in_ca2 others.now player.side slots.now player.team game }
{
    is_against(player.side, others, game, player.team) && has(slots, game.slot.0)
}

/// Whether a game is in the window of `intp` slots from a slot on.
pub(crate) fn is_in_window(intp: u32, first: u16, game: Game) -> bool
    ensures { result ≡ counting.is_in_window intp first game }
{
    let slot = game.slot.0;
    first <= slot && u64::from(slot) < u64::from(first) + u64::from(intp)
}

/// Whether a game counts for CA4.
pub(crate) fn counts_in_ca4(
    side: Side,
    teams1: &TeamSet,
    teams2: &TeamSet,
    slots: &[u16],
    game: Game,
) -> bool
    ensures { result ≡ counting.counts_in_ca4 teams1.now teams2.now side slots.now game }
{
    has(slots, game.slot.0) && is_of(side, teams1, teams2, game)
}

/// Whether a game counts for GA1.
pub(crate) fn counts_in_ga1(meetings: &PairSet, slots: &[u16], game: Game) -> bool
    ensures { result ≡ counting.counts_in_ga1 meetings.now slots.now game }
{
    has(slots, game.slot.0) && is_meeting(meetings, game)
}

/// Whether a game counts for a break at a slot.
pub(crate) fn counts_in_break(player: Player, slot: SlotId, game: Game) -> bool
    ensures { result ≡ counting.counts_in_break player.side player.team slot.0 game }
{
    let before = u32::from(game.slot.0) + 1 == u32::from(slot.0);
    is_on(player.side, game, player.team) && (before || game.slot == slot)
}

/// Whether a game counts for FA2, after a slot.
pub(crate) fn counts_in_fa2(team: TeamId, slot: u16, game: Game) -> bool
    ensures { result ≡ counting.counts_in_fa2 team.0 slot game }
{
    team == game.home && game.slot.0 <= slot
}

/// Whether a game counts for SE1.
pub(crate) fn counts_in_se1(first: TeamId, second: TeamId, game: Game) -> bool
    ensures { result ≡ counting.counts_in_se1 (first.0, second.0) game }
{
    let at_first = first == game.home && second == game.away;
    let at_second = second == game.home && first == game.away;
    at_first || at_second
}
