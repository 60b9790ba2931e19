//! The laws of every record of a list of events, and of the place machine next to the script. Each law is
//! a function with an empty body, whose contract is the law.
ghost use Rattle.model.specs.Laws.{OwnEntry, OthersStay, AcceptedAdds, RefusedAddsNothing, SingleWriter, PlaceReportsNext, PlaceReportsMarks, RunsFromItsPlace, WithdrawalReportsNext, UnitReportsNext, ClosingReportsStage, WithdrawsFromItsPlace, UnitGoesOnFromItsPlace, CallIsCutAtItsPlace, WithdrawalIsCutAtItsPlace, RestIsNotCut, TornBitOfCallIsThere, TornCommitIsPending, TornBitOfWithdrawalIsThere, UnoverlappedReadGivesTheBit, WriteOfBytesGoesByBits, BytesAreMadeByTheirBits, PlaceStartsClosed, PlaceGoesInTurn, WithdrawalGoesInTurn, UnitGoesInTurn, WritesComeInTurn, CellsAnswerTheSafeRule};

/// An event adds to the entries of its own process alone. One that is not refused adds exactly one entry,
/// and a refused one adds none.
pub fn events_add_entries()
    ensures own { OwnEntry }
    ensures others { OthersStay }
    ensures accepted { AcceptedAdds }
    ensures refused { RefusedAddsNothing }
{}

/// Every single-reader bit has one writer: its owner, or the owner's memory unit.
pub fn single_writer()
    ensures { SingleWriter }
{}

/// For every call and every list of own accesses, the next access and the marks that the place machine
/// gives are those of the script. In every record a process that runs its call continues from its place.
pub fn places_follow_scripts()
    ensures next { PlaceReportsNext }
    ensures marks { PlaceReportsMarks }
    ensures every_record { RunsFromItsPlace }
{}

/// For every call that was withdrawn, the next access and the marks of the closing machine are those of the
/// withdrawal's script. For every call that a failure cut, they are those of the memory unit's script. The marks
/// lead to the machine's stages. In every record a process that withdrew, and the memory unit of one that
/// failed, continues from its place.
pub fn closings_follow_scripts()
    ensures withdrawal { WithdrawalReportsNext }
    ensures unit { UnitReportsNext }
    ensures stage { ClosingReportsStage }
    ensures withdrawn_in_record { WithdrawsFromItsPlace }
    ensures unit_in_record { UnitGoesOnFromItsPlace }
{}

/// In every record a failure finds its process at the place of its call or of its withdrawal. The memory
/// unit that it starts, by the failure rule's look back over the process's own entries, is the one that
/// settles the torn bit of that place. This bit exists, and a torn commit bit is that of the pending change.
/// If the process is idle, there is nothing to settle.
pub fn failures_cut_at_the_place()
    ensures call { CallIsCutAtItsPlace }
    ensures withdrawal { WithdrawalIsCutAtItsPlace }
    ensures rest { RestIsNotCut }
    ensures call_bit { TornBitOfCallIsThere }
    ensures commit_bit { TornCommitIsPending }
    ensures withdrawal_bit { TornBitOfWithdrawalIsThere }
{}

/// A read of a register that no write of it overlaps gives the register's bits.
pub fn unoverlapped_reads_give_the_bits()
    ensures { UnoverlappedReadGivesTheBit }
{}

/// Registers are written and read as bytes, and the machines use bits. A write of bytes takes the steps
/// of a write of their bits, and the bytes that were read are those that their bits make.
pub fn bytes_go_by_their_bits()
    ensures write { WriteOfBytesGoesByBits }
    ensures read { BytesAreMadeByTheirBits }
{}

/// The accesses of the machines come in their turn: a write of a copy begins where none is open on
/// it, and ends or is settled where one is.
pub fn machines_go_in_turn()
    ensures start { PlaceStartsClosed }
    ensures place { PlaceGoesInTurn }
    ensures withdrawal { WithdrawalGoesInTurn }
    ensures unit { UnitGoesInTurn }
{}

/// In every record the writes of each single-reader bit come in their turn. So the cell of the bit, which
/// is a fold over its moves, gives the value of the safe rule, which looks back.
pub fn cells_answer_the_safe_rule()
    ensures turns { WritesComeInTurn }
    ensures cells { CellsAnswerTheSafeRule }
{}
