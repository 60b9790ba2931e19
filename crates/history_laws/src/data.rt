//! The laws of the data: what the registers of the store's versions give, and the replies that follow. Each
//! law holds for every setup that passes the check, every list of events, including refused ones, and every
//! flick. If a law mentions a store, the names, values and counts of the events are assumed to be within what
//! their types allow.
ghost use Rattle.model.specs.MainTheorem.{AskAnswersTheLatestChange, AskReportsOfCutCalls, MainTheorem, MainTheoremThroughout, ImagesAreOfTheStore, ImagesAreRead, MutualExclusion, NewestIsTheHistorys, NoOvertaking, OneHistory, StampsFullAfterAllChanges, VersionReadsAreUnoverlapped, VersionsAreWholeOutside};
ghost use Rattle.history_laws.specs.Stamps.{HistoryStaysWhileInside, StampsCountTheChanges};
ghost use Rattle.history_laws.specs.DataLaws.{ChangesFitTheStamps, NewestStampCountsTheChanges, NumbersAscend, RepliesAreThoseOfTheirPlaces};

/// No read of a commit bit, of a stamp or of an image overlaps a write. The bytes that a process reads as an
/// image inside are an image: that of the sequential store after the history so far.
pub fn versions_are_read_whole()
    ensures unoverlapped { VersionReadsAreUnoverlapped }
    ensures images { ImagesAreRead }
    ensures store { ImagesAreOfTheStore }
{}

/// One history. Each command that is taken has the sequential store's reply at its place in the history. A store
/// answer is the reply with which its call took its one command. A call takes at most one command, and has no
/// answer if it was cut. Places keep the order of calls that do not overlap. (Herlihy and Wing 1990.)
pub fn one_history()
    ensures history { OneHistory }
    ensures replies { RepliesAreThoseOfTheirPlaces }
{}

/// A command is answered `StampsFull` only if it would change the store after the history when that was read, and
/// only if the number of changes taken equals the greatest stamp. The number of changes never exceeds it.
pub fn stamps_are_full_after_all_changes()
    ensures answered { StampsFullAfterAllChanges }
    ensures fit { ChangesFitTheStamps }
{}

/// While no process is inside, no write of a version is open. The committed image with the greatest stamp, of the
/// lowest process on a tie, is the image of the sequential store after the history, including call numbers. That
/// stamp is the number of changes.
pub fn newest_is_the_historys()
    ensures image { NewestIsTheHistorys }
    ensures stamp { NewestStampCountsTheChanges }
    ensures whole { VersionsAreWholeOutside }
{}

/// From the last read of a stamp until its command is taken, the stamp that a call has read is the number of changes
/// taken so far. While a process is inside, itself or by its memory unit, no other process takes a command.
pub fn stamps_count_the_changes()
    ensures stamps { StampsCountTheChanges }
    ensures history { HistoryStaysWhileInside }
{}

/// `Ask` returns the number of the asker's latest call that changed the store before its place, or 0. So a restarted
/// process learns whether its cut call changed the store. (This project's own failure rule.)
pub fn ask_reports_of_changes()
    ensures latest { AskAnswersTheLatestChange }
    ensures cut_calls { AskReportsOfCutCalls }
    ensures numbers { NumbersAscend }
{}

/// The main theorem. It holds of every record, whatever overlapped reads return. No two processes are inside the
/// critical section together. No process enters before a waiting one whose doorway ended before its own began. Every
/// store answer is the sequential store's at its place in one history, which keeps the order of calls that do not
/// overlap. No read of the data overlaps a write, and an image that is read is that of the store after the history so
/// far. `TicketsFull`, `StampsFull` and the answer to `Ask` are true.
///
/// The theorem is about each entry and the past that it is added to, and so about each entry of a past. Mutual
/// exclusion and no overtaking also hold if names and values are not what their types allow.
pub fn main_theorem()
    ensures entries { MainTheorem }
    ensures pasts { MainTheoremThroughout }
    ensures mutual_exclusion { MutualExclusion }
    ensures no_overtaking { NoOvertaking }
    ensures one_history { OneHistory }
{}
