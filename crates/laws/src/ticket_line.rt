//! The law of tickets, of every record of a list of events, for every flick: waiting processes enter in the line of
//! their tickets.
ghost use Rattle.laws.specs.Lines.{WhoEntersIsFirstInLine, WhoIsInsideIsFirstInLine};

/// A process that enters is first in the line of tickets. The ticket of each other waiting process is greater, or it is
/// equal and the waiting process has the greater number. This also holds while a process is inside, itself or by its
/// memory unit. A process that precedes it in the line no longer waits: it was served, or gave up waiting, or failed.
/// (Lamport 1974, with this project's failure rule.)
pub fn who_enters_is_first_in_line()
    ensures entering { WhoEntersIsFirstInLine }
    ensures inside { WhoIsInsideIsFirstInLine }
{}
