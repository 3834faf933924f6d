//! The table with its spare games, while games come and go.
ghost use Rattle.std.specs.Prelude.{◌≡◌, ◌<◌, ◌≤◌, ◌*◌, ℕ, vec_capacity};
ghost use Rattle.league.specs.Counts as counts;
ghost use Rattle.league.specs.Counts.{one_more};
ghost use Rattle.league.specs.Instance.{IsGame, IsTeamCount};
ghost use Rattle.rule_core.specs.Tables.{AreOpponents, kept_counts};

use crate::place::{Place, put, read_place, take_off};
use crate::spare::{add_copy, take_copy};
use league::{Game, slot_count};

/// Counts a game once more: in the table where both its teams are free, or else as a spare one. It takes no memory.
pub(crate) fn keep(n: u16, places: &mut Vec<Place>, spare: &mut Vec<u16>, game: Game)
    requires teams { IsTeamCount n }
    requires fits { IsGame n game }
    requires table { AreOpponents n places.old.items spare.old.items }
    requires few { (i j s : ℕ) → kept_counts n places.old.items spare.old.items i j s ≤ 10000 }
    requires room { counts.slot_count n * 1600 ≤ vec_capacity spare.old }
    ensures table { AreOpponents n places.new.items spare.new.items }
    ensures counts { (i j s : ℕ) → kept_counts n places.new.items spare.new.items i j s
        ≡ one_more (kept_counts n places.old.items spare.old.items) game i j s }
    ensures room { vec_capacity spare.old ≤ vec_capacity spare.new }
{
    let slots = slot_count(n) as usize;
    let home = read_place(places, slots, game.home, game.slot);
    let away = read_place(places, slots, game.away, game.slot);
    if home.is_free() && away.is_free() {
        put(places, slots, game);
    } else {
        add_copy(spare, game);
    }
}

/// Counts a game once less: in the table if it stands there, or else as a spare one. It takes no memory. A spare game
/// stays one, even if places become free.
pub(crate) fn let_go(n: u16, places: &mut Vec<Place>, spare: &mut Vec<u16>, game: Game)
    requires teams { IsTeamCount n }
    requires fits { IsGame n game }
    requires table { AreOpponents n places.old.items spare.old.items }
    requires there { 0 < kept_counts n places.old.items spare.old.items game.home.0 game.away.0 game.slot.0 }
    ensures table { AreOpponents n places.new.items spare.new.items }
    ensures counts { (i j s : ℕ) → kept_counts n places.old.items spare.old.items i j s
        ≡ one_more (kept_counts n places.new.items spare.new.items) game i j s }
    ensures room { vec_capacity spare.old ≤ vec_capacity spare.new }
{
    let slots = slot_count(n) as usize;
    let home = read_place(places, slots, game.home, game.slot);
    if home.is_home_to(game.away) {
        take_off(places, slots, game);
    } else {
        take_copy(spare, game);
    }
}
