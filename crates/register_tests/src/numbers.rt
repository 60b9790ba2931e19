use safe_number::{NumberFault, ReadRun, Register, bits_of, number_of};
use std::alloc::Global;
use std::process::Abort;

/// What a register of this width is refused for.
fn register_fault(alloc: Global, width: u16) -> Option<NumberFault> {
    Register::new(alloc, width, 2).err()
}

/// And what a read of it is.
fn read_fault(alloc: Global, width: u16) -> Option<NumberFault> {
    ReadRun::new(alloc, width).err()
}

/// A register and a read of this width are accepted.
fn accepts(alloc: Global, width: u16) -> Result<(), NumberFault> {
    if let Some(fault) = register_fault(alloc, width).or(read_fault(alloc, width)) {
        return Err(fault);
    }
    Ok(())
}

/// The bytes of a number have the least significant byte first, and give the number back.
fn has_low_byte_first(rt: &impl Abort) {
    assert!(rt; bits_of(258) == [2, 1, 0, 0, 0, 0, 0, 0]);
    assert!(rt; number_of(&[2, 1]) == 258);
    assert!(rt; number_of(&[]) == 0);
    for number in [0, 5, 65_535, 4_294_967_295, u64::MAX] {
        assert!(rt; number_of(&bits_of(number)) == number, "{number}");
    }
}

// Of the widths only those from 1 to 1728 are accepted, by registers and by reads.
#[test]
fn widths_and_bytes(rt: HostRuntime) -> Result<(), NumberFault> {
    for width in [1, 1472, 1473, 1600, 1728] {
        accepts(rt.alloc(), width)?;
    }
    for width in [0, 1729] {
        assert!(rt;
            matches!(register_fault(rt.alloc(), width), Some(NumberFault::Width)),
            "a register of width {width}"
        );
        assert!(rt;
            matches!(read_fault(rt.alloc(), width), Some(NumberFault::Width)),
            "a read of width {width}"
        );
    }
    has_low_byte_first(&rt);
    Ok(())
}
