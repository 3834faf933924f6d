//! How often the games are played for which the table has no place: counts by slot, then home team, then away team,
//! which reach as far as the last slot that has such a game.
ghost use Rattle.std.specs.Prelude.{◌≡◌, ◌<◌, ◌≤◌, ◌+◌, ◌*◌, ℕ, length, slice_index_or, vec_capacity};
ghost use Rattle.std.specs.List.{All, sum_by};
ghost use Rattle.league.specs.Counts.{one_more};
ghost use Rattle.rule_core.specs.Spare.{spare_counts, spare_place};

use league::{Game, SlotId, TeamId};

/// How many counts a slot has: one for each home team and each away team.
pub(crate) const GAMES_IN_SLOT: usize = 1600;

/// Where a game is counted.
fn place_of(game: Game) -> usize
    ensures { result ≡ spare_place game.home.0 game.away.0 game.slot.0 }
{
    (game.slot.0 as usize * 40 + game.home.0 as usize) * 40 + game.away.0 as usize
}

/// How often a game is counted.
pub(crate) fn copies(spare: &Vec<u16>, game: Game) -> u32
    requires few { spare_counts spare.now.items game.home.0 game.away.0 game.slot.0 ≤ 10000 }
    requires home { game.home.0 < 40 }
    requires away { game.away.0 < 40 }
    ensures count { result ≡ spare_counts spare.now.items game.home.0 game.away.0 game.slot.0 }
    ensures at_most { result ≤ 10000 }
{
    let place = place_of(game);
    if place < spare.len() {
        u32::from(spare[place])
    } else {
        0
    }
}

/// How often a team is counted at home to one of some others, in a slot.
#[cold]
#[inline(never)]
pub(crate) fn copies_at_home(spare: &Vec<u16>, team: TeamId, others: &[u16], slot: SlotId) -> u32
    requires few { (j : ℕ) → spare_counts spare.now.items team.0 j slot.0 ≤ 10000 }
    requires team { team.0 < 40 }
    requires others { All (λ j. j < 40) others.now }
    requires few_others { length others.now ≤ 78 }
    ensures games { result ≡ sum_by (λ j. spare_counts spare.now.items team.0 j slot.0) others.now }
    ensures at_most { result ≤ 780000 }
{
    let mut games: u32 = 0;
    for other in others {
        let game = Game {
            home: team,
            away: TeamId(*other),
            slot,
        };
        games += copies(spare, game);
    }
    games
}

/// How often a team is counted away at one of some others, in a slot.
#[cold]
#[inline(never)]
pub(crate) fn copies_away(spare: &Vec<u16>, team: TeamId, others: &[u16], slot: SlotId) -> u32
    requires few { (j : ℕ) → spare_counts spare.now.items j team.0 slot.0 ≤ 10000 }
    requires team { team.0 < 40 }
    requires others { All (λ j. j < 40) others.now }
    requires few_others { length others.now ≤ 78 }
    ensures games { result ≡ sum_by (λ j. spare_counts spare.now.items j team.0 slot.0) others.now }
    ensures at_most { result ≤ 780000 }
{
    let mut games: u32 = 0;
    for other in others {
        let game = Game {
            home: TeamId(*other),
            away: team,
            slot,
        };
        games += copies(spare, game);
    }
    games
}

/// Counts a game once more. It takes no memory.
pub(crate) fn add_copy(spare: &mut Vec<u16>, game: Game)
    requires home { game.home.0 < 40 }
    requires away { game.away.0 < 40 }
    requires few { (i j s : ℕ) → spare_counts spare.old.items i j s ≤ 10000 }
    requires room { (game.slot.0 + 1) * 1600 ≤ vec_capacity spare.old }
    ensures counts { (i j s : ℕ) → spare_counts spare.new.items i j s
        ≡ one_more (spare_counts spare.old.items) game i j s }
    ensures short { (slots : ℕ) → game.slot.0 < slots → length spare.old.items ≤ slots * 1600
        → length spare.new.items ≤ slots * 1600 }
    ensures room { vec_capacity spare.old ≤ vec_capacity spare.new }
{
    reach(spare, (game.slot.0 as usize + 1) * GAMES_IN_SLOT);
    spare[place_of(game)] += 1;
}

/// Makes the list at least so long, with zeros at its end. It takes no memory.
fn reach(spare: &mut Vec<u16>, end: usize)
    requires room { end ≤ vec_capacity spare.old }
    ensures same { (k : ℕ) → slice_index_or spare.new.items k 0 ≡ slice_index_or spare.old.items k 0 }
    ensures reached { end ≤ length spare.new.items }
    ensures short { (k : ℕ) → length spare.old.items ≤ k → end ≤ k → length spare.new.items ≤ k }
    ensures room { vec_capacity spare.old ≤ vec_capacity spare.new }
{
    'zeros: for _place in spare.len()..end {
        spare.push_reserved(0);
    }
}

/// Counts a game once less.
pub(crate) fn take_copy(spare: &mut Vec<u16>, game: Game)
    requires home { game.home.0 < 40 }
    requires away { game.away.0 < 40 }
    requires there { 0 < spare_counts spare.old.items game.home.0 game.away.0 game.slot.0 }
    ensures counts { (i j s : ℕ) → spare_counts spare.old.items i j s
        ≡ one_more (spare_counts spare.new.items) game i j s }
    ensures short { length spare.new.items ≡ length spare.old.items }
    ensures room { vec_capacity spare.old ≤ vec_capacity spare.new }
{
    spare[place_of(game)] -= 1;
}
