//! The laws of registers in every state of a world.
ghost use Rattle.register_laws.specs.NumbersHeld.{RegistersHoldTheirNumbers};
ghost use Rattle.register_laws.specs.RegisterLaws.{InterruptedWritesAreSettled, ReadsReturnANumber, SettledMarksEndSettlings, UnoverlappedReadsReadTheNumber, UnoverlappedReadsReturnTheNumber, WritesGiveTheirBits, WritesGoBitByBit};
ghost use Rattle.register_laws.specs.WorldRows.{CursorsFitWorlds, EntriesChangeRows, RowsAreWhole, WorldsHaveTheseRows};

/// The memory of a world consists of the rows of its registers. In every state of a world a row has a copy of each bit for each
/// process. Each entry changes each row by its access, or by the read that it drops. Each cursor of the setup fits the memory,
/// so [`registers_are_rows`](crate::registers_are_rows) applies to its steps.
pub fn worlds_consist_of_rows()
    ensures shown { WorldsHaveTheseRows }
    ensures rows { RowsAreWhole }
    ensures entries { EntriesChangeRows }
    ensures cursors { CursorsFitWorlds }
{}

/// The laws of registers (Lamport 1986a) hold in every state of a world. A read of a register that no write overlaps returns
/// the register's number. Any other read returns some number of that width. After an interrupted write was settled, the lower
/// bits are new, the torn bit is the value that it was settled at, and the upper bits are old. The mark `Settled` is on the last
/// access of a settling.
///
/// The number of a register is the number of its last write that ended, or what an interrupted write left. In every state each
/// copy of each bit has its bit of that number, except for the bits that a write in progress has changed.
pub fn worlds_keep_register_laws()
    ensures numbers { RegistersHoldTheirNumbers }
    ensures written { WritesGiveTheirBits }
    ensures bit_by_bit { WritesGoBitByBit }
    ensures unoverlapped { UnoverlappedReadsReturnTheNumber }
    ensures so_far { UnoverlappedReadsReadTheNumber }
    ensures any_read { ReadsReturnANumber }
    ensures interrupted { InterruptedWritesAreSettled }
    ensures settled { SettledMarksEndSettlings }
{}
