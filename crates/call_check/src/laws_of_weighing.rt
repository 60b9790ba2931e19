//! The meaning of the verdicts of weighing. Each law is a function with an empty body, whose contract is the law.
ghost use Rattle.call_check.specs.OneHistory.{GoodIsOneHistory};
ghost use Rattle.call_check.specs.OneVerdict.{VerdictIsOne};
ghost use Rattle.call_check.specs.SaidOverLists.{BadEndIsSaidOverLists, GoodIsSaidOverLists};

/// There is at most one verdict.
pub fn verdict_is_one()
    ensures { VerdictIsOne }
{}

/// The verdict is `Good` exactly if the lists are good, as defined over the lists, and the image is that of the store
/// after all changes.
pub fn good_is_said_over_lists()
    ensures { GoodIsSaidOverLists }
{}

/// The verdict is `BadEnd` exactly if the lists are good, and the image alone is not that of the store.
pub fn bad_end_is_said_over_lists()
    ensures { BadEndIsSaidOverLists }
{}

/// If the verdict is `Good`, all taken calls of all lists form one history of the sequential store: each once, each list
/// in its order, and each with the store's reply at its place there. The image is that of the store after it.
pub fn good_is_one_history()
    ensures { GoodIsOneHistory }
{}
