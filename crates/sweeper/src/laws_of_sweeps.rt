//! The laws of every sweep. Each law is the contract of a function that does nothing.
ghost use Rattle.sweeper.specs.Sweeps.{FailsAreOfUnfailed, StepsAreOfEnabled, SweptRunsAreGood, UnitsAreDownInTime};

/// Every run of every sweep is good.
pub fn swept_runs_are_good()
    ensures { SweptRunsAreGood }
{}

/// A step is accepted if and only if its process runs or its memory unit settles.
pub fn steps_are_of_enabled()
    ensures { StepsAreOfEnabled }
{}

/// A failure is accepted if and only if its process has not failed and is not down.
pub fn fails_are_of_unfailed()
    ensures { FailsAreOfUnfailed }
{}

/// When a process that failed is restarted in a run of a sweep, it is down, because its memory unit has made its steps.
/// It has at most 1,088 steps, and a run waits for 65,536.
pub fn units_are_down_in_time()
    ensures { UnitsAreDownInTime }
{}
