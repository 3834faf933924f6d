//! What a league is solved by.
use descent::Descent;
use league::Schedule;
use league_search::PatternFound;
use refutation::Log;

/// What is found of a league. `specs/Solutions.antt` says what each answer promises.
#[derive(Drop)]
pub enum Solved {
    /// A schedule that the league accepts, in order, with its objective, and the descent that led to it.
    Schedule {
        schedule: Schedule,
        objective: u128,
        descent: Descent,
    },
    /// A log that is accepted over the league's rows, so that the league accepts no schedule.
    Refuted(Log),
    /// A log whose search has as many steps as the limit allows, each of which says more than propagation finds; and
    /// patterns that the league's pattern rows allow, or a log that is spent over these.
    Spent {
        log: Log,
        patterns: PatternFound,
    },
}
