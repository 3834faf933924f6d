//! The trait of what watches over a run.
ghost use Rattle.std.specs.Prelude.{◌≡◌, ℕ, Bool, true, Option, None, IfSome};

/// What a run does for a while.
#[derive(Clone, Copy)]
pub enum Phase {
    /// Venues and breaks are counted.
    Counts,
    /// Home-away patterns are searched.
    Patterns,
    /// A schedule is searched by clauses.
    Search,
    /// A walk goes from games to games, and may try so many moves.
    Walk { moves: u64 },
    /// A descent goes down from a season by single moves, of which it may make so many.
    Descent { moves: u64 },
}

/// How far a run has come. A turn is a clause learnt or a move tried.
#[derive(Clone, Copy)]
pub enum News {
    /// A try begins. The first one, of which nothing is told, has the number 1.
    Try { number: u64 },
    /// A phase begins.
    Phase(Phase),
    /// A search has learnt so many clauses, and may learn so many, where there is a limit.
    Search { learnt: u64, limit: Option<u64> },
    /// A walk has tried so many moves, and what it found so far misses hard constraints at this cost.
    Hard { tried: u64, cost: u128 },
    /// A descent has made so many moves.
    Down { made: u64 },
    /// A proof begins that no season costs less than this.
    Bound { objective: u64 },
    /// So many members of a conflict are still to be tried.
    Members { left: u64 },
    /// The answer is ready, and nothing more is told.
    Ready,
}

/// Watches over a run: says whether the run is to end, and hears how it goes. No call changes the watch's value.
pub trait Watch {
    /// The watch may end a run.
    ghost may_stop: { Self → Type 0 };

    /// Whether a run ends that has made so many turns; None if the watch doesn't say it beforehand.
    ghost stops_at: { Self → ℕ → Option Bool } = { λ _ _. None };

    /// Whether a run is to end that has made so many turns.
    fn is_over(&self, turns: u64) -> bool
        ensures cause { result ≡ true → may_stop self.now }
        ensures known { IfSome (stops_at self.now turns) (λ over. result ≡ over) };

    /// Whether a run is to end that has made so many turns and does much between two questions: a watch that looks at
    /// its clock only at some questions looks at it at this one.
    fn is_over_now(&self, turns: u64) -> bool
        ensures cause { result ≡ true → may_stop self.now }
        ensures known { IfSome (stops_at self.now turns) (λ over. result ≡ over) };

    /// Hears how far a run has come. Whether anybody reads it changes nothing.
    fn tell(&self, news: News);
}
