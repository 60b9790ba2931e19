//! Interrupted writes, and the settling of their torn bit.
ghost use Rattle.std.specs.Prelude.{◌≡◌, ℕ, Bool, ◌<◌, ◌≤◌, ◌*◌, length, OnSome};
ghost use Rattle.reader_copies.specs.{IsRow, IsWritten, settled_at};
ghost use Rattle.safe_number.specs.{IsWriting, IsSettling};
ghost use Rattle.register_drive.specs.Idle.{IsIdle};
ghost use Rattle.register_drive.specs.Writes.{SettlesAt, WritesOn};

use reader_copies::{Progress, Torn};
use safe_number::{Register, WriteRun};

/// Makes at most `steps` accesses of a write.
pub fn write_some(register: &mut Register, run: &mut WriteRun, value: &[u8], steps: u32, reader: u8)
    requires going { run.old.bit < run.old.width }
    requires value { run.old.width ≤ 8 * length value.now }
    requires writing { (old : ℕ → Bool) × IsWriting register.old old value.now run.old }
    requires idle { IsIdle register.old reader }
    ensures readers { length register.new ≡ length register.old }
    ensures width { run.new.width ≡ run.old.width }
    ensures writing { WritesOn register.old run.old value.now register.new run.new }
    ensures idle { IsIdle register.new reader }
{
    for _ in 0..steps {
        let (_, _, progress) = register.write_step(run, value);
        match progress {
            Progress::Done => return,
            Progress::Going => {}
        }
    }
}

/// Settles a torn bit at `value`, and returns how many accesses it took, or `None` after 2^32 - 1 accesses.
pub fn settle_all(
    register: &mut Register,
    width: u16,
    bit: u16,
    torn: Torn,
    value: bool,
    reader: u8,
) -> Option<u32>
    requires shape { IsRow register.old width }
    requires inside { bit < width }
    requires new { settled_at torn value ≡ value × torn.reader < length register.old }
    requires settling { (others : ℕ → Bool) × IsSettling register.old others bit torn }
    requires idle { IsIdle register.old reader }
    ensures shape { IsRow register.new width }
    ensures readers { length register.new ≡ length register.old }
    ensures written { OnSome result (SettlesAt register.old bit torn value register.new) }
    ensures idle { IsIdle register.new reader }
{
    let mut torn = torn;
    for k in 0..u32::MAX {
        let (_, _, progress) = register.settle_step(bit, &mut torn, value);
        match progress {
            Progress::Done => return Some(k + 1),
            Progress::Going => {}
        }
    }
    None
}

/// Makes at most `steps` accesses of a write of a value, and settles its torn bit at `settled`, if there is one. Returns
/// that bit and how many accesses settling took, or `None` after 2^32 - 1 accesses of settling.
pub fn cut_and_settle(
    register: &mut Register,
    width: u16,
    value: &[u8],
    steps: u32,
    settled: bool,
    reader: u8,
) -> Option<(Option<u16>, u32)>
    requires shape { IsRow register.old width }
    requires wide { 0 < width }
    requires value { width ≤ 8 * length value.now }
    requires written { (old : ℕ → Bool) × IsWritten register.old old }
    requires idle { IsIdle register.old reader }
    ensures shape { IsRow register.new width }
    ensures readers { length register.new ≡ length register.old }
    ensures written { OnSome result ((v : ℕ → Bool) × IsWritten register.new v) }
    ensures idle { IsIdle register.new reader }
{
    let mut run = WriteRun::new(width);
    write_some(register, &mut run, value, steps, reader);
    match run.torn() {
        None => Some((None, 0)),
        Some(cut) => {
            let taken = settle_all(register, width, cut.0, cut.1, settled, reader)?;
            Some((Some(cut.0), taken))
        }
    }
}
