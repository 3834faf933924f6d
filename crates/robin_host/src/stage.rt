//! What a run does, as far as a watch has heard.

use std::fmt;

/// What a run does for a while.
#[derive(Clone, Copy)]
pub(crate) enum Stage {
    /// The run counts venues and breaks.
    Counts,
    /// The run searches home-away patterns.
    Patterns,
    /// The run searches a season by clauses.
    Search,
    /// The run walks, and whether the hard constraints are met wasn't heard yet.
    Walk,
    /// The run walks to games that meet the hard constraints, which cost so much so far.
    HardWalk { cost: u128 },
    /// The run walks, from games that meet the hard constraints, to cheaper ones.
    SoftWalk,
    /// The run goes down from a season by single moves.
    Descent,
    /// The run has gone down, and nothing else was heard yet.
    Descended,
}

impl Stage {
    /// Whether the run searches by clauses.
    pub(crate) fn is_search(self) -> bool {
        matches!(self, Stage::Patterns | Stage::Search)
    }

    /// Whether the run walks.
    pub(crate) fn is_walk(self) -> bool {
        matches!(self, Stage::Walk | Stage::HardWalk { .. } | Stage::SoftWalk)
    }

    /// What the turns of this stage are called.
    pub(crate) fn turns(self) -> &'static str {
        if self.is_search() {
            "conflicts"
        } else {
            "moves"
        }
    }
}

impl fmt::Display for Stage {
    fn fmt<W: fmt::Write>(&self, f: &mut fmt::Formatter<W>) -> fmt::Result {
        let name = match *self {
            Stage::Counts => "counts",
            Stage::Patterns => "patterns",
            Stage::Search => "search",
            Stage::Walk => "walk",
            Stage::HardWalk { .. } => "walk on hard constraints",
            Stage::SoftWalk => "walk on the objective",
            Stage::Descent => "descent",
            Stage::Descended => "descent ended",
        };
        write!(f, "{name}")
    }
}
