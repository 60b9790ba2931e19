//! The laws of one history that hold whatever the registers give. Each law holds for every setup that passes the
//! check, every list of events, including refused ones, and every flick.
ghost use Rattle.model.specs.{AnsweredCallsTakeNoMore, AnswersAreTaken, AnswersAreInHistory, CutCallsAreNotAnswered, KeepsOrder, TakenOnce};
ghost use Rattle.history_laws.specs.HistoryLaws.{HistoryGrowsByTheTaken, TakenAtItsPlace};

/// The mark of a command that is taken contains its place in the history, which is the number of commands taken
/// before. The history grows by the commands that are marked in this way, each with its call's process and number,
/// and by nothing else.
pub fn taken_at_its_place()
    ensures place { TakenAtItsPlace }
    ensures grows { HistoryGrowsByTheTaken }
{}

/// A call that is answered with a reply of the store has taken exactly one command, with that reply. A call with
/// another answer has taken none. After its answer a call takes nothing. A reply of the store is in the history,
/// with its process, command and number, and is the sequential store's at its place.
pub fn answers_are_taken()
    ensures answers { AnswersAreTaken }
    ensures whole_calls { AnsweredCallsTakeNoMore }
    ensures history { AnswersAreInHistory }
{}

/// A call takes at most one command. This includes a call that is cut by a failure and whose command its memory
/// unit takes.
pub fn taken_once()
    ensures { TakenOnce }
{}

/// A call that is cut by a failure of its process is never answered. (This project's own failure rule.)
pub fn cut_calls_are_not_answered()
    ensures { CutCallsAreNotAnswered }
{}

/// Of two calls that took a command and do not overlap, the earlier one has the lower place. The span of a call
/// ends with its answer. The span of a cut call ends when its process is down. (Herlihy and Wing 1990.)
pub fn keeps_order()
    ensures { KeepsOrder }
{}
