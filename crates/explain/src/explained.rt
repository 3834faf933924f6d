//! What a league is explained by.
use crate::cases::Cases;
use crate::members::Members;
use league::Schedule;
use refutation::Log;

/// Why a league has a schedule or has none. `specs/Conflicts.antt` says what each answer promises.
#[derive(Drop)]
pub enum Explained {
    /// A schedule that the league accepts, in order, with its objective.
    Met {
        schedule: Schedule,
        objective: u128,
    },
    /// Hard constraints that contradict each other, by their numbers; the log that refutes the league of these alone;
    /// and a case for each of them.
    Conflict {
        members: Members,
        log: Log,
        cases: Cases,
    },
    /// A log of as many steps as the limit allows, each of which says more than propagation finds.
    Spent {
        log: Log,
    },
}
