//! What each team does in each slot: at most one game stands in its place.
ghost use Rattle.std.specs.Prelude.{◌≡◌, ◌≢◌, ◌<◌, ◌≤◌, ◌+◌, ◌*◌, if◌then◌else◌, length};
ghost use Rattle.rule_core.specs.Opponents as opponents;
ghost use Rattle.rule_core.specs.Opponents.{IsPut, hosts_any, is_away, is_home, place_at, visits_any};
ghost use Rattle.rule_core.specs.Places.{hosts, visits};
ghost use Rattle.rule_core.specs.declared.place.Place.TheVariants.{Away, Free, Home};

use crate::listed::Listed;
use league::{Game, SlotId, TeamId};

/// What a team does in a slot in which it has at most one game.
#[derive(Clone, Copy, Debug, PartialEq, Eq)]
pub enum Place {
    /// The team plays no game.
    Free,
    /// The team is at home to this one.
    Home(TeamId),
    /// The team is away at this one.
    Away(TeamId),
}

impl Place {
    /// Whether the team plays no game.
    pub(crate) fn is_free(self) -> bool
        ensures { result ≡ opponents.is_free self }
    {
        match self {
            Place::Free => true,
            Place::Home(_) | Place::Away(_) => false,
        }
    }

    /// Whether the team is at home to another.
    pub(crate) fn is_home_to(self, guest: TeamId) -> bool
        ensures { result ≡ hosts self guest.0 }
    {
        match self {
            Place::Home(other) => other.0 == guest.0,
            Place::Free | Place::Away(_) => false,
        }
    }

    /// The home games of the team: one or none.
    pub(crate) fn home_games(self) -> u32
        ensures { result ≡ (if is_home self then 1 else 0) }
    {
        match self {
            Place::Home(_) => 1,
            Place::Free | Place::Away(_) => 0,
        }
    }

    /// The away games of the team: one or none.
    pub(crate) fn away_games(self) -> u32
        ensures { result ≡ (if is_away self then 1 else 0) }
    {
        match self {
            Place::Away(_) => 1,
            Place::Free | Place::Home(_) => 0,
        }
    }

    /// The games of the team with another: one or none.
    pub(crate) fn games_with(self, other: TeamId) -> u32
        ensures games { result
            ≡ (if hosts self other.0 then 1 else 0) + (if visits self other.0 then 1 else 0) }
        ensures at_most { result ≤ 1 }
    {
        match self {
            Place::Free => 0,
            Place::Home(guest) => once_if(guest.0 == other.0),
            Place::Away(host) => once_if(host.0 == other.0),
        }
    }

    /// The home games of the team against one of some others: one or none.
    pub(crate) fn games_at_home_to(self, others: &Listed) -> u32
        ensures { result ≡ (if hosts_any others.now self then 1 else 0) }
    {
        match self {
            Place::Home(guest) => once_if(others.has(guest.0)),
            Place::Free | Place::Away(_) => 0,
        }
    }

    /// The away games of the team against one of some others: one or none.
    pub(crate) fn games_away_at(self, others: &Listed) -> u32
        ensures { result ≡ (if visits_any others.now self then 1 else 0) }
    {
        match self {
            Place::Away(host) => once_if(others.has(host.0)),
            Place::Free | Place::Home(_) => 0,
        }
    }
}

/// One where a test passes, or else none.
pub(crate) fn once_if(passes: bool) -> u32
    ensures once { result ≡ (if passes then 1 else 0) }
    ensures at_most { result ≤ 1 }
{
    if passes { 1 } else { 0 }
}

/// The place of a team in a slot, in rows of so many slots.
pub(crate) fn read_place(places: &Vec<Place>, slots: usize, team: TeamId, slot: SlotId) -> Place
    requires slot { slot.0 < slots }
    requires place { team.0 * slots + slot.0 < length places.now.items }
    ensures { result ≡ place_at slots places.now.items team.0 slot.0 }
{
    places[team.0 as usize * slots + slot.0 as usize]
}

/// Puts a game where both its teams are free.
pub(crate) fn put(places: &mut Vec<Place>, slots: usize, game: Game)
    requires slot { game.slot.0 < slots }
    requires home { game.home.0 * slots + game.slot.0 < length places.old.items }
    requires away { game.away.0 * slots + game.slot.0 < length places.old.items }
    requires differ { game.home.0 ≢ game.away.0 }
    requires home_free { place_at slots places.old.items game.home.0 game.slot.0 ≡ Free }
    requires away_free { place_at slots places.old.items game.away.0 game.slot.0 ≡ Free }
    ensures put { IsPut game (place_at slots places.old.items) (place_at slots places.new.items) }
    ensures size { length places.new.items ≡ length places.old.items }
{
    let slot = game.slot.0 as usize;
    places[game.home.0 as usize * slots + slot] = Place::Home(game.away);
    places[game.away.0 as usize * slots + slot] = Place::Away(game.home);
}

/// Takes a game off, and leaves both its teams free.
pub(crate) fn take_off(places: &mut Vec<Place>, slots: usize, game: Game)
    requires slot { game.slot.0 < slots }
    requires home { game.home.0 * slots + game.slot.0 < length places.old.items }
    requires away { game.away.0 * slots + game.slot.0 < length places.old.items }
    requires differ { game.home.0 ≢ game.away.0 }
    requires at_home { place_at slots places.old.items game.home.0 game.slot.0 ≡ Home game.away }
    requires is_away { place_at slots places.old.items game.away.0 game.slot.0 ≡ Away game.home }
    ensures put { IsPut game (place_at slots places.new.items) (place_at slots places.old.items) }
    ensures size { length places.new.items ≡ length places.old.items }
{
    let slot = game.slot.0 as usize;
    places[game.home.0 as usize * slots + slot] = Place::Free;
    places[game.away.0 as usize * slots + slot] = Place::Free;
}
