//! The laws of the lock. Each law holds for every setup that passes the check, every list of events, including
//! refused ones, and every flick.
ghost use Rattle.model.specs.{AcceptedAdds, MutualExclusion, NoOvertaking, OthersStay, OwnEntry, RefusedAddsNothing, TicketsFullNamesTheLowest, WaitersReadNoGreatestTicket};
ghost use Rattle.laws.specs.LockLaws.{AheadAreThoseBefore, AheadAscends, AheadIsOfTheQueued, AloneInside, EachTicketIsRead, NobodyIsAheadOfItself, NobodyIsAheadOfWhoEnters, ReadsEndAsTheyMay, ReadsEndByTheirFlick, TakenInside, TicketsFullExactly, UnitsAreShort, VersionsAreTouchedInside, VersionsAreWrittenByTheirOwner, WaitersAreAheadOfACall};

/// No two processes are inside the critical section together. A process that failed inside is inside until
/// its memory unit begins to clear its ticket. (Lamport 1974, with this project's failure rule.)
pub fn mutual_exclusion()
    ensures { MutualExclusion }
{}

/// First come, first served: a process that enters overtakes no waiting process whose doorway ended before its own
/// began. (Lamport 1974.)
pub fn no_overtaking()
    ensures { NoOvertaking }
{}

/// A doorway that ends without being cut has read one ticket of each other process. If one of its reads gave the
/// greatest ticket, it ends with the answer `TicketsFull`, which names the lowest process with such a read.
/// Otherwise it ends with a ticket.
pub fn full_answers()
    ensures all_read { EachTicketIsRead }
    ensures ticket { WaitersReadNoGreatestTicket }
    ensures full { TicketsFullNamesTheLowest }
    ensures exactly { TicketsFullExactly }
{}

/// The processes ahead of a process that is in its doorway or waits are, ascending, those that wait and whose doorway
/// ended before its own began; before its own begins, all that wait. No process is ahead of itself, of a process
/// that has no call or is inside, or of a process that enters.
pub fn ahead()
    ensures members { AheadAreThoseBefore }
    ensures ascending { AheadAscends }
    ensures queued { AheadIsOfTheQueued }
    ensures not_itself { NobodyIsAheadOfItself }
    ensures new_call { WaitersAreAheadOfACall }
    ensures entering { NobodyIsAheadOfWhoEnters }
{}

/// The safe rule holds of every record. A read of a single-reader bit that no write overlaps ends with the value
/// last written or settled before it began. Any other read ends with the flick of its event. (Lamport 1986a.)
pub fn safe_rule()
    ensures unoverlapped { ReadsEndAsTheyMay }
    ensures flick { ReadsEndByTheirFlick }
{}

/// An accepted event adds one entry, of its own process, and leaves the entries of all others as they are.
/// A refused event adds no entry.
pub fn own_entries()
    ensures own { OwnEntry }
    ensures others { OthersStay }
    ensures accepted { AcceptedAdds }
    ensures refused { RefusedAddsNothing }
{}

/// Between `Entered` and the clearing of the ticket one process works at a time, itself or by its memory unit: while a
/// process that is inside makes an entry, no other process is inside. Only such a process reads and writes the
/// registers of versions, and only such a process takes commands. Each of these registers is written by its
/// owner.
pub fn alone_inside()
    ensures entries { AloneInside }
    ensures touched { VersionsAreTouchedInside }
    ensures written { VersionsAreWrittenByTheirOwner }
    ensures taken { TakenInside }
{}

/// The memory unit of a failed process makes at most 1,088 accesses: begin and end, on each of 16 copies, for the torn
/// bit, 32 bits of the ticket, and the choosing bit. While the unit works, its process has made fewer entries since it
/// failed. (This project's own failure rule.)
pub fn units_are_short()
    ensures { UnitsAreShort }
{}
