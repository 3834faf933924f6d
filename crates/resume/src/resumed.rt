//! What a league whose first slots are played is answered by.
use league::Schedule;
use refutation::Log;

/// What is found of a league whose first slots are played. `specs/Answers.antt` says what each answer promises.
#[derive(Drop)]
pub enum Resumed {
    /// A schedule that the league accepts and that keeps the played games, in order, with its objective.
    Schedule { schedule: Schedule, objective: u128 },
    /// A log that is accepted over the resume rows, so that no such schedule is there.
    Refuted { log: Log },
    /// A log of as many steps as the limit allows, each of which says more than propagation over the resume rows finds.
    Spent { log: Log },
}
