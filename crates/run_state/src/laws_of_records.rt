//! What the state of a record has in common with that of a run. The law is a function with nothing to do, whose contract is
//! the law.
ghost use Rattle.run_state.specs.RecordStates.{RecordsHaveStatesOfRuns};

/// The record of each run has, after n entries, the state of the run after n events, except for the line of the newest one.
pub fn records_have_states_of_runs()
    ensures { RecordsHaveStatesOfRuns }
{}
