//! The law of the stages that a picture shows. Its function does nothing, and its contract is the law.
ghost use Rattle.picture.specs.BarsAndStages.{BarsAreStages};

/// Each column of a picture shows the state after some of its lines: the bar of a process to its right is the stage of
/// that process in any record that has the marks of these lines.
pub fn bars_are_stages()
    ensures { BarsAreStages }
{}
