//! The consequences of verdicts for records. Each law is a function that does nothing, whose contract is the law.
ghost use Rattle.auditor.specs.Verdicts.{GoodAccessesAreThere, GoodIsOfEvents, OfEventsIsGood, VerdictsAreUnique};

/// A record in which each entry keeps each law is the record of some list of events. Therefore the main theorem holds of it.
pub fn good_records_are_of_events()
    ensures { GoodIsOfEvents }
{}

/// In the record of every list of events, each entry keeps each law.
pub fn records_of_events_are_good()
    ensures { OfEventsIsGood }
{}

/// A record has one verdict.
pub fn records_have_one_verdict()
    ensures { VerdictsAreUnique }
{}

/// In a record in which each entry keeps each law, each access is of a bit that exists. Therefore a monitor that has
/// observed it decides exactly whether the next entry keeps the law `Safe`, whatever that entry is.
pub fn good_records_access_what_is_there()
    ensures { GoodAccessesAreThere }
{}
