//! What is shown of a schedule.
use league::Schedule;
use refutation::Log;

/// What is shown of a schedule that a league accepts. `specs/Proofs.antt` says what each answer promises.
#[derive(Drop)]
pub enum Proved {
    /// No schedule that the league accepts has a lower objective: the log is accepted over the bound rows of one less.
    /// If the objective is 0, nothing has to be refuted, and the log is empty.
    Least { objective: u64, log: Log },
    /// A schedule that the league accepts, with a lower objective.
    Better { schedule: Schedule, objective: u64 },
    /// The budget ran out: a log of as many steps as the limit allows. Each step says more than propagation finds.
    Spent { log: Log },
}
