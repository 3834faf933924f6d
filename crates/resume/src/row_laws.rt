//! Laws of resume rows: a function that does nothing and whose contract is proved.
ghost use Rattle.resume.specs.Resumable.{AcceptedLogsExclude, AnswersResume, AreFaithful, HaveSize};
ghost use Rattle.resume.specs.Resumable.{ShadowsResume};

/// The resume rows are faithful both ways, for every league, all played games that fit it, and every number of its
/// slots: they are satisfiable exactly where an accepted schedule keeps the played games. An assignment that satisfies
/// them decodes to such a schedule, and the shadow of each such schedule satisfies them; so an accepted log over them
/// excludes every such schedule. And they have as many terms as is said before they are written.
pub fn faithful()
    ensures faithful { AreFaithful }
    ensures answers { AnswersResume }
    ensures shadows { ShadowsResume }
    ensures logs { AcceptedLogsExclude }
    ensures size { HaveSize }
{}
