//! The law that the lines of a run give the stages of its record. Its function does nothing, and its contract is the law.
ghost use Rattle.picture_layout.specs.Stages.{StagesAreTheRecords};

/// Lines with the marks of a record lead each process to its stage in that record. These are the stages that a page
/// keeps from line to line, and from which it draws its bars.
pub fn stages_are_the_records()
    ensures { StagesAreTheRecords }
{}
