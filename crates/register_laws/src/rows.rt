//! The memory and its cursors behave as registers and their runs do.
ghost use Rattle.register_laws.specs.Rows.{DropIsOnItsRow, DropKeepsOtherRows, ReadRunsAgree, ReadStepsAgree, ReadsBeginAlike, SettlingStepsAgree, SettlingsBeginAlike, StepIsOnItsRow, StepKeepsOtherRows, WriteRunsAgree, WriteStepsAgree, WritesBeginAlike};

/// Each register of the memory is a row of bits. A step of a `Cursor` on the memory and a step of `WriteRun`, of `ReadRun` or
/// of a settling on the register's row make the same access with the same value. They leave the same row and the same
/// progress, and the cursor leaves all other registers as they are.
pub fn registers_are_rows()
    ensures step { StepIsOnItsRow }
    ensures step_others { StepKeepsOtherRows }
    ensures drop { DropIsOnItsRow }
    ensures drop_others { DropKeepsOtherRows }
    ensures writes { WriteStepsAgree }
    ensures reads { ReadStepsAgree }
    ensures settles { SettlingStepsAgree }
    ensures write_runs { WriteRunsAgree }
    ensures read_runs { ReadRunsAgree }
    ensures writes_begin { WritesBeginAlike }
    ensures reads_begin { ReadsBeginAlike }
    ensures settlings_begin { SettlingsBeginAlike }
{}
