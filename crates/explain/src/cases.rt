//! Whether a conflict needs each of its members.
ghost use Rattle.std.specs.Prelude.{◌≡◌, ◌==◌, ◌<◌, ◌↔◌, Some, length, slice_get, true, IsTrue};
ghost use Rattle.std.specs.List.{All};
ghost use Rattle.explain.specs.Cases as specs;

use league::Schedule;
use refutation::Log;
use std::marker::Model;

/// What is known of a conflict without one of its members.
#[derive(Drop)]
pub enum Case {
    /// A schedule that meets the others, so the member is needed.
    Without { schedule: Schedule },
    /// A log that is spent over the rows of the others, so it isn't known whether the member is needed.
    Undecided { log: Log },
}

impl Case {
    /// Whether there is a schedule without the member.
    pub fn is_decided(&self) -> bool
        ensures { result ≡ specs.is_decided self.now }
    {
        matches!(self, Case::Without { .. })
    }
}

/// The cases of a conflict's members, in the order of these.
#[derive(Drop)]
pub struct Cases {
    pub(crate) cases: Vec<Case>,
}

impl Model for Cases {
    ghost use Rattle.std.specs.Prelude.{List};
    ghost use Rattle.explain.specs.declared.cases.Case.{Case};

    ghost Value = { List Case };

    ghost view = { λ c. c.cases.items };
}

impl Cases {
    /// The number of cases.
    pub fn len(&self) -> usize
        ensures { result ≡ length self.now }
    {
        self.cases.len()
    }

    /// Whether there is no case.
    pub fn is_empty(&self) -> bool
        ensures { result ≡ (length self.now == 0) }
    {
        self.cases.is_empty()
    }

    /// The case at place k, from 0.
    pub fn get(&self, k: usize) -> &Case
        requires { k < length self.now }
        ensures { slice_get self.now k ≡ Some result.now }
    {
        &self.cases[k]
    }

    /// Whether each member is known to be needed: no case is undecided.
    pub fn are_decided(&self) -> bool
        ensures { IsTrue result ↔ All (λ case. specs.is_decided case ≡ true) self.now }
    {
        self.cases.iter().all(Case::is_decided)
    }
}
