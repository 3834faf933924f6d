//! Laws of refutation logs: functions that do nothing and whose contracts are proved.
ghost use Rattle.refutation_check.specs.Judged.{StepsGiveVerdict};
ghost use Rattle.refutation_check.specs.Soundness.{AcceptedLogsRefute};

/// The law of soundness: where a log is accepted over rows, no values meet all of them. It holds of any list of rows,
/// any number of variables and any steps.
pub fn accepted_logs_refute()
    ensures { AcceptedLogsRefute }
{}

/// The law of steps: those of a log, judged one after another, come to the verdict on the log.
pub fn steps_give_verdict()
    ensures { StepsGiveVerdict }
{}
