//! A board: a double round robin as tables, so that every question of a move is a look-up.
ghost use Rattle.std.specs.Prelude.{◌≡◌, ◌≢◌, ℕ, ◌+◌, ◌*◌, ◌<◌, ◌≤◌, ◌&&◌, ◌||◌, ◌==◌};
ghost use Rattle.std.specs.Prelude.{if◌then◌else◌, length, true, false, IfOk};
ghost use Rattle.std.specs.List.{All};
ghost use Rattle.league.specs.Counts.{counts_of, is_game, slot_count};
ghost use Rattle.league.specs.Instance.{IsGame, IsTeamCount};
ghost use Rattle.league.specs.Structure.{IsRoundRobin};
ghost use Rattle.moves.specs.Moves.{do_meet};
ghost use Rattle.moves.specs.Places.{ArePlaced, IsRound, is_of};
ghost use Rattle.moves.specs.Round.{IsEdit, edited, entry, round_counts};

use crate::edit::Edit;
use crate::place::{SLOTS, TEAMS, place_all};
use league::{Game, Schedule, SlotId, TeamId};
use std::alloc::{AllocError, Global};
use std::marker::Model;

/// A double round robin of n teams, perhaps phased: for each team and slot the team's game, and for each two teams the
/// slot in which the first is at home to the second. It is seen as n, whether it is phased, and the table of games,
/// from which `round_counts` says how often each game is played.
#[derive(Drop)]
pub struct Board {
    n: u16,
    phased: bool,
    games: Vec<Game>,
    slots: Vec<u16>,
}

impl Model for Board {
    ghost use Rattle.moves.specs.Places.{IsRound, IsSlotTable};
    ghost use Rattle.moves.specs.Round.{Round, round_counts};

    ghost Value = { Round };

    ghost view = { λ b. record { n = b.n; phased = b.phased; games = b.games.items } };

    ghost invariant = { λ b.
        IsRound (record { n = b.n; phased = b.phased; games = b.games.items })
        × IsSlotTable b.n (round_counts (record { n = b.n; phased = b.phased; games = b.games.items })) b.slots.items };
}

impl Board {
    /// The board of a double round robin of n teams, perhaps phased.
    ///
    /// # Errors
    /// Only where memory runs out.
    pub fn new(
        alloc: Global,
        n: u16,
        phased: bool,
        schedule: &Schedule,
    ) -> Result<Board, AllocError>
        requires teams { IsTeamCount n }
        requires fit { All (IsGame n) schedule.now }
        requires round_robin { IsRoundRobin n phased (counts_of schedule.now) }
        ensures n { IfOk result (λ board. board.n ≡ n) }
        ensures phased { IfOk result (λ board. board.phased ≡ phased) }
        ensures counts { IfOk result (λ board. round_counts board ≡ counts_of schedule.now) }
    {
        let filler = Game {
            home: TeamId(0),
            away: TeamId(0),
            slot: SlotId(0),
        };
        let mut games = vec![in alloc; filler; 3120]?;
        let mut slots = vec![in alloc; 0u16; 1600]?;
        place_all(&mut games, &mut slots, schedule.games());
        Ok(Board {
            n,
            phased,
            games,
            slots,
        })
    }

    /// Takes the games of an edit off the board and puts the others in, where a double round robin results, as it does
    /// of the edit of a legal move. It takes no memory.
    pub fn apply(&mut self, edit: &Edit)
        requires there { (i j s : ℕ) → counts_of edit.now.out i j s ≤ round_counts self.old i j s }
        requires fit { All (IsGame self.old.n) edit.now.into }
        requires round_robin { IsRoundRobin self.old.n self.old.phased (edited (round_counts self.old) edit.now) }
        ensures n { self.new.n ≡ self.old.n }
        ensures phased { self.new.phased ≡ self.old.phased }
        ensures counts { round_counts self.new ≡ edited (round_counts self.old) edit.now }
    {
        place_all(&mut self.games, &mut self.slots, edit.into_games());
    }

    /// The number of teams: even, from 2 to 40.
    pub fn n(&self) -> u16
        ensures n { result ≡ self.now.n }
        ensures teams { IsTeamCount self.now.n }
        ensures round { IsRound self.now }
    {
        self.n
    }

    /// Whether each two teams meet once in each half of the season.
    pub fn phased(&self) -> bool
        ensures phased { result ≡ self.now.phased }
        ensures round_robin { IsRoundRobin self.now.n self.now.phased (round_counts self.now) }
    {
        self.phased
    }

    /// The game of a team in a slot.
    pub fn game(&self, team: TeamId, slot: SlotId) -> Game
        requires team { team.0 < self.now.n }
        requires slot { slot.0 < slot_count self.now.n }
        ensures fits { IsGame self.now.n result }
        ensures of { is_of team.0 slot.0 result ≡ true }

        // The team has no other game in the slot.
        ensures only { (a b : ℕ) → (if (a == team.0) || (b == team.0) then round_counts self.now a b slot.0 else 0)
            ≡ (if is_game a b slot.0 result then 1 else 0) }
    {
        self.games[team.0 as usize * SLOTS + slot.0 as usize]
    }

    /// The team that a team meets in a slot.
    pub fn opponent(&self, team: TeamId, slot: SlotId) -> TeamId
        requires team { team.0 < self.now.n }
        requires slot { slot.0 < slot_count self.now.n }
        ensures below { result.0 < self.now.n }
        ensures differ { result.0 ≢ team.0 }
        ensures meets { (j : ℕ) → do_meet (round_counts self.now) team.0 j slot.0 ≡ (j == result.0) }
    {
        let game = self.game(team, slot);
        if game.home == team {
            game.away
        } else {
            game.home
        }
    }

    /// The slot in which a team is at home to another.
    pub fn slot_of(&self, home: TeamId, away: TeamId) -> SlotId
        requires home { home.0 < self.now.n }
        requires away { away.0 < self.now.n }
        requires differ { home.0 ≢ away.0 }
        ensures below { result.0 < slot_count self.now.n }
        ensures at { (s : ℕ) → round_counts self.now home.0 away.0 s ≡ (if s == result.0 then 1 else 0) }
    {
        SlotId(self.slots[home.0 as usize * TEAMS + away.0 as usize])
    }
}
