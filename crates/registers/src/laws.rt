//! The law of every cursor that is at a part of a call. It is the contract of a function that does nothing.
ghost use Rattle.registers.specs.Laws.{CursorBegins, CursorEnds, CursorGoesOn, CursorStays, CursorReportsLast, CursorReportsMarks, CursorReportsNext};

/// A cursor advances as the register accesses of a call's script do. It determines the next access and its marks, and
/// reaches the next position. The next part begins with the cursor that is put at its begin.
pub fn cursors_follow_places()
    ensures next { CursorReportsNext }
    ensures advance { CursorGoesOn }
    ensures marks { CursorReportsMarks }
    ensures stays { CursorStays }
    ensures ends { CursorEnds }
    ensures begins { CursorBegins }
    ensures last { CursorReportsLast }
{}
