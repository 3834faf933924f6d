//! How far a run has come, as far as a watch has heard.
ghost use Rattle.std.specs.Prelude.{◌≤◌, IfSome};

use crate::aim::Aim;
use crate::stage::Stage;
use crate::turns::Turns;
use robin_watch::{News, Phase};

/// The best season of which a watch has heard.
#[derive(Clone, Copy)]
pub(crate) struct Best {
    pub(crate) objective: u128,
    /// When it came, in milliseconds.
    pub(crate) at: u128,
}

/// How far a run has come, as far as a watch has heard.
#[derive(Clone, Copy)]
pub(crate) struct Heard {
    pub(crate) aim: Aim,
    pub(crate) stage: Stage,
    /// The turns of this stage, where any are counted.
    pub(crate) turns: Option<Turns>,
    pub(crate) best: Option<Best>,
}

impl Heard {
    /// Nothing was heard yet: a run begins with counts.
    pub(crate) fn nothing() -> Heard {
        Heard {
            aim: Aim::Season,
            stage: Stage::Counts,
            turns: None,
            best: None,
        }
    }

    /// What is known behind news that came at this time, in milliseconds.
    pub(crate) fn with_news(self, news: News, at: u128) -> Heard {
        match news {
            News::Ready => self,
            News::Try { number } => self.with_aim(Aim::Try { number }, self.stage),
            News::Phase(phase) => self.in_phase(phase, at),
            News::Search { learnt, limit } => self.in_search().turned(learnt, limit, at),
            News::Hard { tried, cost: 0 } => self.at_season(tried, at),
            News::Hard { tried, cost } => self.walked(Stage::HardWalk { cost }, tried, at),
            News::Down { made } => self.with_down(made, at),
            News::Bound { objective } => self.with_aim(Aim::Bound { objective }, Stage::Search),
            News::Members { left } => self.with_aim(Aim::Member { left }, Stage::Counts),
        }
    }

    /// What is known behind a season that costs so much and came at this time, after so many moves tried if it came in
    /// a walk. A season of a part of the league isn't one of the league.
    pub(crate) fn with_season(self, objective: u128, tried: u64, at: u128) -> Heard {
        let heard = self.at_season(tried, at);
        if !self.aim.is_of_league() {
            return heard;
        }
        Heard {
            best: Some(better(self.best, objective, at)),
            ..heard
        }
    }

    /// Something else is to be found or shown, and this is what the run does next.
    fn with_aim(self, aim: Aim, stage: Stage) -> Heard {
        Heard {
            aim,
            stage,
            turns: None,
            ..self
        }
    }

    /// A phase begins. The first try of `solve` begins with counts, and a phase behind none is of no try. One that may
    /// make no move isn't spoken of.
    fn in_phase(self, phase: Phase, at: u128) -> Heard {
        match phase {
            Phase::Counts => self.with_aim(self.aim.in_counts(), Stage::Counts),
            Phase::Patterns => self.with_aim(self.aim, Stage::Patterns),
            Phase::Search => self.with_aim(self.aim, Stage::Search),
            Phase::Walk { moves: 0 } | Phase::Descent { moves: 0 } => self,
            Phase::Walk { moves } => self.limited(Stage::Walk, moves, at),
            Phase::Descent { moves } => self.limited(Stage::Descent, moves, at),
        }
    }

    /// A stage begins that may make so many moves.
    fn limited(self, stage: Stage, moves: u64, at: u128) -> Heard {
        self.with_aim(self.aim, stage).turned(0, Some(moves), at)
    }

    /// A search goes on: that of patterns if they are searched.
    fn in_search(self) -> Heard {
        if self.stage.is_search() {
            return self;
        }
        self.with_aim(self.aim, Stage::Search)
    }

    /// A season came: in a walk after so many moves tried, and else at the end of a descent, or before any.
    fn at_season(self, tried: u64, at: u128) -> Heard {
        match self.stage {
            Stage::Walk | Stage::HardWalk { .. } | Stage::SoftWalk => {
                self.walked(Stage::SoftWalk, tried, at)
            }
            Stage::Descent => self.with_aim(self.aim, Stage::Descended),
            Stage::Counts | Stage::Patterns | Stage::Search | Stage::Descended => self,
        }
    }

    /// A walk has tried so many moves, and is at this stage.
    fn walked(self, stage: Stage, tried: u64, at: u128) -> Heard {
        if self.stage.is_walk() {
            return Heard { stage, ..self }.turned(tried, self.limit(), at);
        }
        self.with_aim(self.aim, stage).turned(tried, None, at)
    }

    /// A descent has made so many moves.
    fn with_down(self, made: u64, at: u128) -> Heard {
        if matches!(self.stage, Stage::Descent) {
            return self.turned(made, self.limit(), at);
        }
        self.with_aim(self.aim.in_descent(), Stage::Descent)
            .turned(made, None, at)
    }

    /// How many turns the stage may make, where that is known.
    fn limit(self) -> Option<u64> {
        self.turns?.limit()
    }

    /// The stage has made so many turns, of at most so many, where there is a limit.
    fn turned(self, made: u64, limit: Option<u64>, at: u128) -> Heard {
        let turns = match self.turns {
            Some(turns) => turns.gone_on(made, limit, at),
            None => Turns::begun(made, limit, at),
        };
        Heard {
            turns: Some(turns),
            ..self
        }
    }
}

/// The better one of the best season and of one that costs so much and came at this time; of equal ones the first.
fn better(best: Option<Best>, objective: u128, at: u128) -> Best
    ensures new { result.objective ≤ objective }
    ensures before { IfSome best (λ before. result.objective ≤ before.objective) }
{
    match best {
        Some(best) if best.objective <= objective => best,
        _ => Best { objective, at },
    }
}
