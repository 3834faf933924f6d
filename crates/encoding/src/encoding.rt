//! Encodings.
ghost use Rattle.std.specs.Prelude.{◌≡◌, ◌≢◌, ℕ, ◌+◌, ◌<◌, ◌≤◌, ◌↔◌, true, length, Some, IsSome, IfSome};
ghost use Rattle.std.specs.List.{slice_range};
ghost use Rattle.league.specs.Counts as counts;
ghost use Rattle.league.specs.Instance.{IsInstance};
ghost use Rattle.encoding.specs.Encoding.{rows_of};
ghost use Rattle.encoding.specs.Known.{AreKnown};
ghost use Rattle.encoding.specs.RowRanges.{IsRowOf, first_row, rows_of_constraint};
ghost use Rattle.encoding.specs.Variables.{ab_var, h_var, has_breaks, hb_var, var_count, x_var};

use crate::places::count_at_most;
use crate::variables::{ab_at, h_at, h_count, hb_at, hb_count, x_at, x_count};
use league::{League, SlotId, TeamId, slot_count};
use rows::RowStore;
use std::marker::Model;
use std::ops::Range;

/// A league's rows and variables: seen as the league. It keeps a copy of the league.
pub struct Encoding {
    pub(crate) league: League,
    pub(crate) rows: RowStore,
    pub(crate) breaks: bool,
    /// Where the rows of each constraint begin, and behind that where the last row ends.
    pub(crate) starts: Vec<usize>,
}

impl Drop for Encoding {
    fn drop(self) {
        let Encoding {
            league: _,
            rows: _,
            breaks: _,
            starts: _,
        } = self;
    }
}

impl Model for Encoding {
    ghost use Rattle.league.specs.Instance.{Instance};
    ghost use Rattle.encoding.specs.Encoded.{IsEncoded};

    ghost Value = { Instance };

    ghost view = { λ e. e.league };

    ghost invariant = { λ e. IsEncoded e.league e.rows e.breaks e.starts.items };
}

impl Encoding {
    /// The league whose rows these are.
    pub fn league(&self) -> &League
        ensures { result.now ≡ self.now }
    {
        &self.league
    }

    /// The rows of the league, in order.
    pub fn rows(&self) -> &RowStore
        ensures { result.now ≡ rows_of self.now }
    {
        &self.rows
    }

    /// The places in `rows`, from 0, of the rows of the constraint at place k of the league. There is none where the
    /// constraint is soft or demands nothing.
    pub fn rows_of_constraint(&self, k: usize) -> Range<usize>
        requires { k < length self.now.constraints }
        ensures start { result.start ≡ first_row self.now k }
        ensures end { result.end ≡ first_row self.now (k + 1) }
        ensures ordered { result.start ≤ result.end }
        ensures within { result.end ≤ length (rows_of self.now) }

        // The rows at these places are those that the constraint's class demands.
        ensures rows { slice_range (rows_of self.now) result.start result.end ≡ rows_of_constraint self.now k }
    {
        let start = self.starts[k];
        let end = self.starts[k + 1];
        start..end
    }

    /// The place in the league, from 0, of the constraint whose row stands at a place in `rows`. There is none for a row
    /// of the season or of breaks, nor where no row stands.
    pub fn constraint_of(&self, row: usize) -> Option<usize>
        ensures whose { IfSome result (λ k. IsRowOf self.now k row) }
        ensures each { (k : ℕ) → IsRowOf self.now k row → result ≡ Some k }
    {
        let begun = count_at_most(&self.starts, row);
        if begun == 0 || begun == self.starts.len() {
            return None;
        }
        Some(begun - 1)
    }

    /// The number of teams: even, from 2 to 40.
    pub fn n(&self) -> u16
        ensures n { result ≡ self.now.n }
        ensures instance { IsInstance self.now }
    {
        self.league.n()
    }

    /// The number of slots of the season: 2(n - 1).
    pub fn slots(&self) -> u16
        ensures slots { result ≡ counts.slot_count self.now.n }
        ensures instance { IsInstance self.now }
    {
        slot_count(self.league.n())
    }

    /// Whether breaks have variables: some hard constraint bounds them.
    pub fn has_breaks(&self) -> bool
        ensures { result ≡ has_breaks self.now.constraints }
    {
        self.breaks
    }

    /// The number of variables, at most 130,960.
    pub fn vars(&self) -> u32
        ensures vars { result ≡ var_count self.now }
        ensures at_most { result ≤ 130960 }
        ensures instance { IsInstance self.now }

        // The rows speak of no other variables.
        ensures known { AreKnown (var_count self.now) (rows_of self.now) }
    {
        let n = self.league.n();
        let breaks = if self.breaks { 2 * hb_count(n) } else { 0 };
        x_count(n) + h_count(n) + breaks
    }

    /// The variable, from 1 to `vars`, that is true where the game of `home` at home to `away`, another team, takes
    /// place in the slot.
    pub fn x(&self, home: TeamId, away: TeamId, slot: SlotId) -> u32
        requires home { home.0 < self.now.n }
        requires away { away.0 < self.now.n }
        requires differ { home.0 ≢ away.0 }
        requires slot { slot.0 < counts.slot_count self.now.n }
        ensures var { result ≡ x_var self.now.n home.0 away.0 slot.0 }
        ensures at_least { 1 ≤ result }
        ensures at_most { result ≤ var_count self.now }
    {
        x_at(self.league.n(), home.0, away.0, slot.0)
    }

    /// The variable, from 1 to `vars`, that is true where the team plays at home in the slot.
    pub fn h(&self, team: TeamId, slot: SlotId) -> u32
        requires team { team.0 < self.now.n }
        requires slot { slot.0 < counts.slot_count self.now.n }
        ensures var { result ≡ h_var self.now.n team.0 slot.0 }
        ensures at_least { 1 ≤ result }
        ensures at_most { result ≤ var_count self.now }
    {
        h_at(self.league.n(), team.0, slot.0)
    }

    /// The variable that is true where the team has a home break at the slot: none at slot 0, or where breaks have no
    /// variables.
    pub fn hb(&self, team: TeamId, slot: SlotId) -> Option<u32>
        requires team { team.0 < self.now.n }
        requires slot { slot.0 < counts.slot_count self.now.n }
        ensures some { IsSome result ↔ (0 < slot.0) × (has_breaks self.now.constraints ≡ true) }
        ensures var { IfSome result (λ var. var ≡ hb_var self.now.n team.0 slot.0) }
        ensures at_least { IfSome result (λ var. 1 ≤ var) }
        ensures at_most { IfSome result (λ var. var ≤ var_count self.now) }
    {
        if slot.0 == 0 || !self.breaks {
            return None;
        }
        Some(hb_at(self.league.n(), team.0, slot.0))
    }

    /// The variable that is true where the team has an away break at the slot: none at slot 0, or where breaks have no
    /// variables.
    pub fn ab(&self, team: TeamId, slot: SlotId) -> Option<u32>
        requires team { team.0 < self.now.n }
        requires slot { slot.0 < counts.slot_count self.now.n }
        ensures some { IsSome result ↔ (0 < slot.0) × (has_breaks self.now.constraints ≡ true) }
        ensures var { IfSome result (λ var. var ≡ ab_var self.now.n team.0 slot.0) }
        ensures at_least { IfSome result (λ var. 1 ≤ var) }
        ensures at_most { IfSome result (λ var. var ≤ var_count self.now) }
    {
        if slot.0 == 0 || !self.breaks {
            return None;
        }
        Some(ab_at(self.league.n(), team.0, slot.0))
    }
}
