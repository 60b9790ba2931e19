//! The laws of boards, for every setup that passes the check.
ghost use Rattle.board.specs.BoardLaws.{AllChangesMakeTheStore, BoardsKeepTheMainTheorem, CallsAreInTheChanges, ChangesMakeTheStore, OwnWritesAreRead, RefusalsAreTheRecords, StagesAreTheRecords, SeenStaysSeen, IsInLonger, WordsAreOfBits, WordsReportTheirBits};

/// Each single-reader bit has a word of its own, from which it can be found, and each word is of an existing bit.
pub fn words_are_of_single_bits()
    ensures bits { WordsReportTheirBits }
    ensures words { WordsAreOfBits }
{}

/// The stage of a view and its refusals are those of its process in each record on which words and views agree, followed
/// by the later events of the process. So a port refuses exactly as a world does.
pub fn views_report_the_record()
    ensures stages { StagesAreTheRecords }
    ensures refusals { RefusalsAreTheRecords }
{}

/// Words and views agree between any two word steps, and then the record that they show keeps the main theorem: under
/// every schedule of the threads, no two processes are inside together, no process overtakes, the answers are those of
/// one history, no read of the data is overlapped, and `TicketsFull`, `StampsFull` and `Ask` are answered as in a world.
pub fn boards_keep_the_main_theorem()
    ensures main_theorem { BoardsKeepTheMainTheorem }
{}

/// One list of changes: the store after the changes alone is the store after the history, at each position. The calls of
/// each process are consistent with it: each taken call has the sequential store's reply at its position, for its
/// process and number, and is the change there if it is one; positions never fall, and after a change they are above its
/// own. Such calls are consistent with each longer list. So a process reads what it wrote at the next position. A port
/// that is driven forgets no change that it has seen.
pub fn calls_are_in_one_list()
    ensures store { ChangesMakeTheStore }
    ensures whole_store { AllChangesMakeTheStore }
    ensures calls { CallsAreInTheChanges }
    ensures longer { IsInLonger }
    ensures own_writes { OwnWritesAreRead }
    ensures seen { SeenStaysSeen }
{}
