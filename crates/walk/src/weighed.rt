//! A league's constraints in parts: by how much each isn't met, and what that weighs.
use crate::draws::any_of;
use crate::lists::{SLOTS, TEAMS, bit};
use crate::measure::Measure;
use crate::number_set::NumberSet;
use crate::parts::{MOST, add_parts};
use crate::plays::Plays;
use crate::spots::Spots;
use crate::watches::{Mark, Watches};
use crate::weights::{Weighing, Weight};
use descent::Score;
use league::{Constraint, Game, League};
use moves::{Board, Edit};
use rand_pcg::Pcg32;
use std::alloc::{AllocError, Global};

/// What a part weighs, and what it measures; what it counts, and by how much a move changes that, modulo 2^32; by how
/// much it isn't met, and by how much it wouldn't be after a move.
#[derive(Drop)]
struct Part {
    weight: Weight,
    measure: Measure,
    count: u32,
    change: u32,
    deviation: u64,
    then: u64,
}

impl Part {
    /// A part of a league of n teams that measures what a constraint demands, with a weight. Nothing was counted yet.
    ///
    /// # Errors
    /// Only where memory runs out.
    fn of(alloc: Global, n: u16, weight: Weight, demand: &Constraint) -> Result<Part, AllocError> {
        Ok(Part {
            weight,
            measure: Measure::of(alloc, n, demand)?,
            count: 0,
            change: 0,
            deviation: 0,
            then: 0,
        })
    }

    /// Whether it is a part of a hard constraint, and isn't met.
    fn is_unmet(&self) -> bool {
        self.weight.is_hard() && self.deviation > 0
    }

    /// A sum of weights that has its own, where it changes as it would after the move.
    fn changed(&mut self, sum: u64, plays: &Plays) -> u64 {
        let count = self.count.wrapping_add(self.change);
        self.then = self.measure.deviation(count, plays);
        sum.saturating_sub(self.weight.weigh(self.deviation))
            .saturating_add(self.weight.weigh(self.then))
    }

    /// Takes over what it came to. Says whether it became unmet or met.
    fn take(&mut self) -> bool {
        let unmet = self.is_unmet();
        self.count = self.count.wrapping_add(self.change);
        self.deviation = self.then;
        self.is_unmet() != unmet
    }
}

/// The parts of a league's constraints with their weights, those of hard constraints that aren't met, what all weigh
/// together on the games that they follow, and how much that may be at the goal of a walk. In a walk that cools slowly
/// the goal is that fewer parts are unmet than at the end of any stretch. Soft constraints are weighed, too, or not. A
/// move asks only those parts that its games, venues and breaks can change.
pub(crate) struct WeighedParts {
    demands: Vec<Constraint>,
    parts: Vec<Part>,
    plays: Plays,
    watches: Watches,
    spots: Spots,
    found: NumberSet,
    unmet: NumberSet,
    sum: u64,
    goal: u64,
    fewest: Option<usize>,
    are_soft: bool,
}

impl Drop for WeighedParts {
    fn drop(self) {
        let WeighedParts {
            demands: _,
            parts: _,
            plays: _,
            watches: _,
            spots: _,
            found: _,
            unmet: _,
            sum: _,
            goal: _,
            fewest: _,
            are_soft: _,
        } = self;
    }
}

impl WeighedParts {
    /// The parts of a league's constraints that are weighed, with the weights at the start. Nothing was counted yet, and
    /// any weight is low enough for the goal.
    ///
    /// # Errors
    /// Only where memory runs out.
    pub(crate) fn new(
        alloc: Global,
        league: &League,
        weighing: Weighing,
    ) -> Result<WeighedParts, AllocError> {
        let n = league.n();
        let (demands, parts) = listed_parts(alloc, league, weighing)?;
        let (watches, spots) = lists_of(alloc, n, &demands)?;
        let (plays, found, unmet) = room_for(alloc, n, demands.len())?;
        Ok(WeighedParts {
            demands,
            parts,
            plays,
            watches,
            spots,
            found,
            unmet,
            sum: 0,
            goal: u64::MAX,
            fewest: weighing.fewest(),
            are_soft: weighing.is_of_soft(),
        })
    }

    /// The parts of a league's constraints that are weighed, counted on the games of a board.
    ///
    /// # Errors
    /// Only where memory runs out.
    pub(crate) fn on(
        alloc: Global,
        league: &League,
        weighing: Weighing,
        board: &Board,
    ) -> Result<WeighedParts, AllocError> {
        let mut parts = WeighedParts::new(alloc, league, weighing)?;
        parts.count(board);
        Ok(parts)
    }

    /// Counts all parts on the games of a board.
    pub(crate) fn count(&mut self, board: &Board) {
        let n = board.n();
        self.plays.take(board);
        for home in 0..n {
            for away in 0..n {
                let slot = self.plays.slot_of(home, away);
                self.count_meeting(home, away, slot, true);
            }
            self.count_venues(home, None);
        }
        self.sum = 0;
        self.unmet.clear();
        for (number, part) in self.parts.iter_mut().enumerate() {
            part.count = part.change;
            part.deviation = part.measure.deviation(part.count, &self.plays);
            self.sum = self.sum.saturating_add(part.weight.weigh(part.deviation));
            if part.is_unmet() {
                self.unmet.add(number);
            }
        }
        self.forget();
    }

    /// What all parts would weigh after an edit.
    pub(crate) fn weigh_edit(&mut self, edit: &Edit) -> u64 {
        self.count_games(edit.out(), edit.into_games());
        let then = self.weigh(u64::MAX);
        self.plays.put_back(edit.out());
        self.forget();
        then.unwrap_or(u64::MAX)
    }

    /// Follows an edit, where the parts cost at most so much more after it. Says whether they do.
    pub(crate) fn follow(&mut self, edit: &Edit, more: u64) -> bool {
        self.follow_games(edit.out(), edit.into_games(), more)
    }

    /// Follows a move that takes these games out and puts those in, where the parts cost at most so much more after it.
    /// Says whether they do.
    pub(crate) fn follow_games(&mut self, out: &[Game], into: &[Game], more: u64) -> bool {
        self.count_games(out, into);
        let then = self.weigh(self.sum.saturating_add(more));
        match then {
            Some(sum) => self.keep(out, sum),
            None => self.plays.put_back(out),
        }
        self.forget();
        then.is_some()
    }

    /// Follows an edit, where the parts weigh at most so much after it. Says whether they do.
    pub(crate) fn follow_within(&mut self, edit: &Edit, most: u128) -> bool {
        let more = most.saturating_sub(u128::from(self.sum));
        self.follow(edit, u64::try_from(more).unwrap_or(u64::MAX))
    }

    /// Takes games out and puts others in, and finds the parts that this changes.
    fn count_games(&mut self, out: &[Game], into: &[Game]) {
        for game in out {
            self.count_meeting(game.home.0, game.away.0, game.slot.0, false);
        }
        for game in into {
            self.count_meeting(game.home.0, game.away.0, game.slot.0, true);
            self.plays.put(*game);
        }
        self.count_turned();
        self.find_leads();
    }

    /// Changes the counts of the parts that count two teams' game in a slot: by one more, or one less.
    fn count_meeting(&mut self, home: u16, away: u16, slot: u16, more: bool) {
        let slot = bit(slot);
        for watch in self.watches.of_meeting(home, away) {
            if watch.slots & slot != 0 {
                change(&mut self.parts, &mut self.found, watch.number, more);
            }
        }
    }

    /// Changes the counts of the parts that count the venues and breaks of the teams whose venues changed.
    fn count_turned(&mut self) {
        'teams: for place in 0..TEAMS {
            let Some(team) = self.plays.turned_at(place) else {
                return;
            };
            let before = self.plays.homes_before(team);
            self.count_venues(team, Some(before));
        }
    }

    /// Finds the parts that compare the home games of the teams whose venues changed. They take longest to ask, so they
    /// are found last.
    fn find_leads(&mut self) {
        if !self.watches.have_leads() {
            return;
        }
        self.plays.recount();
        for team in self.plays.turned() {
            self.found.add_all(self.watches.of_leads(*team));
        }
    }

    /// Changes the counts of the parts that count a team's venues and breaks: to those of its home slots, from those of
    /// its home slots before, or from nothing.
    fn count_venues(&mut self, team: u16, before: Option<u128>) {
        let homes = self.plays.homes(team);
        for mark in Mark::ALL {
            let was = match before {
                Some(before) => self.plays.marked(mark, before),
                None => 0,
            };
            let now = self.plays.marked(mark, homes);
            self.count_marks(mark, team, was, now);
        }
    }

    /// Changes the counts of the parts that count a mark of a team, which it had in some slots and has in others.
    fn count_marks(&mut self, mark: Mark, team: u16, was: u128, now: u128) {
        let mut rest = was ^ now;
        'slots: for _slot in 0..SLOTS {
            if rest == 0 {
                return;
            }
            let slot = u16::try_from(rest.trailing_zeros()).unwrap_or(SLOTS);
            rest &= rest.wrapping_sub(1);
            let more = now & bit(slot) != 0;
            for number in self.watches.of_mark(mark, team, slot) {
                change(&mut self.parts, &mut self.found, *number, more);
            }
        }
    }

    /// What all parts would weigh after the move, if that is at most so much. The unmet parts that were found come
    /// first, since no others can come to weigh less.
    fn weigh(&mut self, most: u64) -> Option<u64> {
        let mut sum = self.sum;
        for number in self.found.numbers() {
            sum = changed(&mut self.parts, *number, false, sum, &self.plays);
        }
        for number in self.found.numbers() {
            if sum > most {
                return None;
            }
            sum = changed(&mut self.parts, *number, true, sum, &self.plays);
        }
        if sum > most { None } else { Some(sum) }
    }

    /// Takes over what the parts that were found come to after a move that took these games out.
    fn keep(&mut self, out: &[Game], sum: u64) {
        self.sum = sum;
        let mut turned = false;
        for number in self.found.numbers() {
            if let Some(part) = self.parts.get_mut(*number)
                && part.take()
            {
                turned = true;
            }
        }
        if turned {
            self.list_unmet(out);
        }
    }

    /// Lists again which parts are unmet, of those that these games can change.
    fn list_unmet(&mut self, out: &[Game]) {
        for game in out {
            let of_home = self.spots.of_cell(game.home, game.slot);
            let of_away = self.spots.of_cell(game.away, game.slot);
            let of_meeting = self.spots.of_meeting(game.home, game.away);
            list_again(&self.parts, &mut self.unmet, of_home);
            list_again(&self.parts, &mut self.unmet, of_away);
            list_again(&self.parts, &mut self.unmet, of_meeting);
        }
    }

    /// Forgets what a move changed, which was made or taken back.
    fn forget(&mut self) {
        for number in self.found.numbers() {
            if let Some(part) = self.parts.get_mut(*number) {
                part.change = 0;
            }
        }
        self.found.clear();
        self.plays.settle();
    }

    /// Whether no constraint was left out.
    pub(crate) fn are_all(&self) -> bool {
        self.parts.len() < MOST
    }

    /// Whether few enough parts of hard constraints are unmet, mostly none, and all parts weigh little enough.
    pub(crate) fn are_at_goal(&self) -> bool {
        let fewest = self.fewest.unwrap_or(1).max(1);
        self.unmet.numbers().len() < fewest && self.sum <= self.goal
    }

    /// From now on all parts weigh little enough where it is at most so much.
    pub(crate) fn set_goal(&mut self, goal: u64) {
        self.goal = goal;
    }

    /// What all parts weigh.
    pub(crate) fn sum(&self) -> u64 {
        self.sum
    }

    /// What the constraints cost as far as it is known: the hard ones by their penalties, and the soft ones what all
    /// parts weigh, where they are weighed.
    pub(crate) fn score(&self) -> Score {
        let objective = if self.are_soft {
            u128::from(self.sum)
        } else {
            u128::MAX
        };
        Score {
            infeasibility: self.price(),
            objective,
        }
    }

    /// What the parts of hard constraints cost by their penalties.
    fn price(&self) -> u128 {
        let mut sum = 0u128;
        for part in &self.parts {
            sum = sum.saturating_add(part.weight.price(part.deviation));
        }
        sum
    }

    /// At the end of a stretch, makes each weight greater or smaller by whether its part is met.
    pub(crate) fn adapt(&mut self) {
        if let Some(fewest) = self.fewest {
            self.fewest = Some(fewest.min(self.unmet.numbers().len()));
        }
        for part in self.parts.iter_mut() {
            part.weight = part.weight.adapted(part.deviation == 0);
        }
    }

    /// What some part of a hard constraint demands that isn't met.
    pub(crate) fn any_unmet(&self, random: &mut Pcg32) -> Option<&Constraint> {
        let number = any_of(random, self.unmet.numbers())?;
        self.demands.get(number)
    }
}

/// What the parts of a league's constraints demand that are weighed, and these parts.
///
/// # Errors
/// Only where memory runs out.
fn listed_parts(
    alloc: Global,
    league: &League,
    weighing: Weighing,
) -> Result<(Vec<Constraint>, Vec<Part>), AllocError> {
    let mut demands = Vec::new(alloc);
    let mut parts = Vec::new(alloc);
    list_parts(alloc, league, weighing, &mut demands, &mut parts)?;
    Ok((demands, parts))
}

/// Lists what the parts of a league's constraints demand that are weighed, and these parts.
///
/// # Errors
/// Only where memory runs out.
fn list_parts(
    alloc: Global,
    league: &League,
    weighing: Weighing,
    demands: &mut Vec<Constraint>,
    parts: &mut Vec<Part>,
) -> Result<(), AllocError> {
    let n = league.n();
    for constraint in league.constraints() {
        if let Some(weight) = weighing.weight(constraint) {
            add_parts(alloc, n, constraint, demands)?;
            measure_parts(alloc, n, weight, demands, parts)?;
        }
    }
    Ok(())
}

/// Adds parts of a weight, which measure those of these demands that have none yet.
///
/// # Errors
/// Only where memory runs out.
fn measure_parts(
    alloc: Global,
    n: u16,
    weight: Weight,
    demands: &[Constraint],
    parts: &mut Vec<Part>,
) -> Result<(), AllocError> {
    for place in parts.len()..demands.len() {
        parts.push(Part::of(alloc, n, weight, &demands[place])?)?;
    }
    Ok(())
}

/// Which of these parts watch each game, and which of them it can change.
///
/// # Errors
/// Only where memory runs out.
fn lists_of(alloc: Global, n: u16, demands: &[Constraint]) -> Result<(Watches, Spots), AllocError> {
    Ok((
        Watches::new(alloc, n, demands)?,
        Spots::new(alloc, demands)?,
    ))
}

/// No games yet of a league of n teams, and room for two sets of its parts.
///
/// # Errors
/// Only where memory runs out.
fn room_for(
    alloc: Global,
    n: u16,
    parts: usize,
) -> Result<(Plays, NumberSet, NumberSet), AllocError> {
    Ok((
        Plays::new(alloc, n)?,
        NumberSet::new(alloc, parts)?,
        NumberSet::new(alloc, parts)?,
    ))
}

/// Changes what a part counts by one more, or one less.
fn change(parts: &mut [Part], found: &mut NumberSet, number: usize, more: bool) {
    if let Some(part) = parts.get_mut(number) {
        found.add(number);
        part.change = if more {
            part.change.wrapping_add(1)
        } else {
            part.change.wrapping_sub(1)
        };
    }
}

/// A sum of weights that has a part's, where the part changes as it would after the move: of those that are met, or of
/// those that aren't.
fn changed(parts: &mut [Part], number: usize, met: bool, sum: u64, plays: &Plays) -> u64 {
    match parts.get_mut(number) {
        Some(part) if (part.deviation == 0) == met => part.changed(sum, plays),
        _ => sum,
    }
}

/// Lists these parts among the unmet ones, or takes them out.
fn list_again(parts: &[Part], unmet: &mut NumberSet, numbers: &[usize]) {
    for number in numbers {
        if let Some(part) = parts.get(*number) {
            if part.is_unmet() {
                unmet.add(*number);
            } else {
                unmet.remove(*number);
            }
        }
    }
}
