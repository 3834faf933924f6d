//! Laws of encodings: a function that does nothing and whose contract is proved.
ghost use Rattle.decoding.specs.Faithful.{AcceptedHaveShadows, AnswersAreAccepted, AnswersAreShadows, ShadowsDecode};
ghost use Rattle.decoding.specs.Faithful.{ShadowsSatisfy};

/// The encoding is faithful both ways, for every league. The shadow of an accepted schedule satisfies its rows, and
/// each accepted schedule has a shadow: so where no assignment satisfies the rows, no schedule is accepted. An
/// assignment that satisfies them decodes to an accepted schedule, whose shadow it is; and the shadow of a schedule in
/// which each team plays once in each slot decodes to its games.
pub fn faithful()
    ensures shadows { ShadowsSatisfy }
    ensures each { AcceptedHaveShadows }
    ensures answers { AnswersAreAccepted }
    ensures decoded { ShadowsDecode }
    ensures back { AnswersAreShadows }
{}
