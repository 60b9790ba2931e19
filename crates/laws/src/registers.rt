//! The laws of the registers of the lock, for a program that runs its processes on registers.
ghost use Rattle.laws.specs.Held.{AccessesAreThere, AccessesComeInTurn, OpenReadsAreOfThePlace, RegistersAnswerTheSafeRule, WritesEndWithTheirValue};
ghost use Rattle.laws.specs.Writes.{WritesFitTheirRegister, WritesLeaveTheirBits};

/// Every access of a record may be made on the registers after its past, where a process that fails or withdraws
/// drops its open read. The access is of a register that exists, and it is in its turn. Reads of the
/// registers follow the safe rule, and an open read is of the register that its process reads at its place. A write
/// that is about to end is of the value that its bit has: the bit took that value when the write began. (Lamport
/// 1986a, with this project's failure rule.)
pub fn registers_serve_every_access()
    ensures in_range { AccessesAreThere }
    ensures turn { AccessesComeInTurn }
    ensures answer { RegistersAnswerTheSafeRule }
    ensures open_reads { OpenReadsAreOfThePlace }
    ensures ended { WritesEndWithTheirValue }
{}

/// A write has as many bits as its register. Every copy of the register holds these bits once the process alone, or its
/// memory unit, has made the remaining accesses of the write. No write of a copy is then open.
pub fn writes_leave_their_bits()
    ensures fits { WritesFitTheirRegister }
    ensures leaves { WritesLeaveTheirBits }
{}
