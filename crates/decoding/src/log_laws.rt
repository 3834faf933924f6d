//! A law of refutation logs over leagues: a function that does nothing and whose contract is proved.
ghost use Rattle.decoding.specs.Excluded.{AcceptedLogsExclude};

/// Where a log is accepted over a league's rows, the league accepts no list of games.
pub fn accepted_logs_exclude()
    ensures { AcceptedLogsExclude }
{}
