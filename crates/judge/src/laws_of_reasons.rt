//! The law of the lines `may` among the reasons of a verdict.
ghost use Rattle.judge.specs.Mays.{OnlyStepsKeepAllLaws, StepsKeepAllLaws};

/// After the record of every list of events, the entry that a Step adds keeps all laws, and no other entry with an access
/// does. So the lines `may` are all entries with an access of that process that are possible there.
pub fn only_steps_keep_all_laws()
    ensures keep { StepsKeepAllLaws }
    ensures only { OnlyStepsKeepAllLaws }
{}
