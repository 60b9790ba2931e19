//! The laws that judges of this project's lock and of any lock share.
ghost use Rattle.judge.specs.Good.{DoorwaysAreOne, GoodIsGood, GoodKeepsOfAny};

/// If `judge` finds a record good, so does the judge of any lock: each entry keeps all laws of any lock. The doorway of each
/// process that runs its call is then one for both. For every setup, checked or not, each entry keeps the
/// laws `safe`, `together` and `history` of any lock.
pub fn good_records_keep_laws_of_any_lock()
    ensures good { GoodIsGood }
    ensures doorways { DoorwaysAreOne }
    ensures laws { GoodKeepsOfAny }
{}
