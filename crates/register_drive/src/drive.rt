//! Whole writes and whole reads.
ghost use Rattle.std.specs.Prelude.{◌≡◌, ℕ, Bool, ◌<◌, ◌≤◌, ◌*◌, length, OnSome};
ghost use Rattle.reader_copies.specs.{IsRow, IsWritten};
ghost use Rattle.safe_number.specs.{bit_in};
ghost use Rattle.register_drive.specs.Idle.{IsIdle};
ghost use Rattle.register_drive.specs.Reads.{AreWritten};

use reader_copies::Progress;
use safe_number::{ReadRun, Register, WriteRun};

/// Writes a whole value, and returns how many accesses it took, or `None` after 2^32 - 1 accesses.
pub fn write_all(register: &mut Register, width: u16, value: &[u8], reader: u8) -> Option<u64>
    requires shape { IsRow register.old width }
    requires wide { 0 < width }
    requires value { width ≤ 8 * length value.now }
    requires written { (old : ℕ → Bool) × IsWritten register.old old }
    requires idle { IsIdle register.old reader }
    ensures shape { IsRow register.new width }
    ensures readers { length register.new ≡ length register.old }
    ensures written { OnSome result (IsWritten register.new (bit_in value.now)) }
    ensures idle { IsIdle register.new reader }
{
    let mut run = WriteRun::new(width);
    for k in 0..u32::MAX {
        let (_, _, progress) = register.write_step(&mut run, value);
        match progress {
            Progress::Done => return Some(k as u64 + 1),
            Progress::Going => {}
        }
    }
    None
}

/// Reads a whole value while no process writes, and returns how many accesses it took, or `None` after 2^32 - 1 accesses.
pub fn read_all(register: &mut Register, width: u16, reader: u8, run: &mut ReadRun) -> Option<u64>
    requires shape { IsRow register.old width }
    requires wide { 0 < width }
    requires reader { reader < length register.old }
    requires room { width ≤ run.old.room }
    requires written { (v : ℕ → Bool) × IsWritten register.old v }
    requires idle { IsIdle register.old reader }
    ensures shape { IsRow register.new width }
    ensures readers { length register.new ≡ length register.old }
    ensures room { run.new.room ≡ run.old.room }
    ensures written { (v : ℕ → Bool) → IsWritten register.old v → IsWritten register.new v }
    ensures bits { OnSome result (AreWritten register.old width run.new.bits) }
    ensures idle { OnSome result (IsIdle register.new reader) }
{
    run.reset(width);
    for k in 0..u32::MAX {
        let (_, _, progress) = register.read_step(reader, run, false);
        match progress {
            Progress::Done => return Some(k as u64 + 1),
            Progress::Going => {}
        }
    }
    None
}
