//! What the table of a record has in common with that of a run. The law is a function with nothing to do, whose contract is
//! the law.
ghost use Rattle.calls.specs.Alike.{GoodRecordsListAsRuns, RecordsOfRunsListAsRuns};

/// A record that `judge --any-lock` finds good has the table that a run with these entries has, except for the processes
/// that calls waited for. So has the record of each run.
pub fn records_list_as_runs()
    ensures good { GoodRecordsListAsRuns }
    ensures runs { RecordsOfRunsListAsRuns }
{}
