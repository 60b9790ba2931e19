use register_drive::{cut_and_settle, read_all, write_all};
use safe_number::{NumberFault, ReadRun, Register, number_of};
use std::alloc::Global;

/// A write of 5 to a register of 4 bits and 2 readers, and a read of it: how many accesses each takes, and the number that is
/// read. None where one of them has no end.
fn written_and_read(alloc: Global) -> Result<Option<(u64, u64, u64)>, NumberFault> {
    let mut register = Register::new(alloc, 4, 2)?;
    let mut read = ReadRun::new(alloc, 4)?;
    let Some(writes) = write_all(&mut register, 4, &[5], 1) else {
        return Ok(None);
    };
    let Some(reads) = read_all(&mut register, 4, 1, &mut read) else {
        return Ok(None);
    };
    Ok(Some((writes, reads, number_of(read.bytes()))))
}

// A register of 4 bits and 2 readers takes 16 accesses to write and 8 to read.
#[test]
fn register_steps_and_widths(rt: HostRuntime) -> Result<(), NumberFault> {
    let reported = written_and_read(rt.alloc())?;
    assert!(rt; matches!(reported, Some((16, 8, 5))));
    Ok(())
}

/// What a write leaves that is cut: the torn bit, how many accesses its settling takes and how many a read after it, and the
/// number that is read.
type AfterCut = (Option<u16>, u32, u64, u64);

/// Cuts a write of 3 to a register of 2 bits and 2 readers after so many steps, and settles it at this value. None where the
/// settling or the read has no end.
fn cut_after(alloc: Global, steps: u32, settled: bool) -> Result<Option<AfterCut>, NumberFault> {
    let mut register = Register::new(alloc, 2, 2)?;
    let mut read = ReadRun::new(alloc, 2)?;
    let Some((torn, settling)) = cut_and_settle(&mut register, 2, &[3], steps, settled, 1) else {
        return Ok(None);
    };
    let Some(reads) = read_all(&mut register, 2, 1, &mut read) else {
        return Ok(None);
    };
    Ok(Some((torn, settling, reads, number_of(read.bytes()))))
}

/// After how many accesses a write of 3 is cut, what it is settled at, the torn bit, the accesses of its settling, and the number
/// that the register then has.
const CUTS: [(u32, bool, Option<u16>, u32, u64); 8] = [
    (2, false, Some(0), 4, 0),
    (2, true, Some(0), 4, 1),
    (3, false, Some(0), 3, 0),
    (3, true, Some(0), 3, 1),
    (4, false, None, 0, 1),
    (4, true, None, 0, 1),
    (8, false, None, 0, 3),
    (8, true, None, 0, 3),
];

// A write of 3 to a register of 2 bits and 2 readers is cut after some accesses and settled. The torn bit
// has the settled value, the bit below it the new one and the bit above it the old one.
#[test]
fn torn_write_table(rt: HostRuntime) -> Result<(), NumberFault> {
    for (steps, settled, torn, settling, number) in CUTS {
        let remaining = cut_after(rt.alloc(), steps, settled)?;
        assert!(rt;
            remaining == Some((torn, settling, 4, number)),
            "after {steps} steps"
        );
    }
    Ok(())
}
