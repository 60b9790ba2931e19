//! The time that a step of a register of 1728 bits and with 16 readers takes.
ghost use Rattle.std.specs.Prelude.{ℕ, Bool, ◌≤◌, IfOk};
ghost use Rattle.model.specs.reader_copies.{IsRow, IsWritten};
ghost use Rattle.register_drive.specs.{IsIdle};

use crate::timing::report;
use anyhow::{Result, bail};
use register_drive::{ReadRun, Register, read_all, write_all};
use std::rt::Clock;
use std::time::Instant;

/// The value that is written.
const VALUE: [u8; 216] = [0x5a; 216];

/// Makes `times` whole writes and then `times` whole reads, and prints how many steps these are.
///
/// # Errors
///
/// Returns an error if memory runs out, an access does not end, or the clock or a stream fails.
pub fn times<T: Print + Eprint + Clock + AllocGlobal>(rt: &T, times: u32) -> Result<()> {
    let mut register = Register::new(rt.alloc(), 1728, 16)?;
    let mut run = ReadRun::new(rt.alloc(), 1728)?;
    timed(rt, &mut register, &mut run, true, times)?;
    timed(rt, &mut register, &mut run, false, times)
}

/// Writes the value `times` times, or reads it, and prints how many accesses that took.
fn timed<T: Print + Eprint + Clock>(
    rt: &T,
    register: &mut Register,
    run: &mut ReadRun,
    is_write: bool,
    times: u32,
) -> Result<()>
    requires shape { IsRow register.old 1728 }
    requires room { 1728 ≤ run.old.room }
    requires written { (old : ℕ → Bool) × IsWritten register.old old }
    requires idle { IsIdle register.old 0 }
    ensures shape { IfOk result (λ _. IsRow register.new 1728) }
    ensures room { IfOk result (λ _. 1728 ≤ run.new.room) }
    ensures written { IfOk result (λ _. (now : ℕ → Bool) × IsWritten register.new now) }
    ensures idle { IfOk result (λ _. IsIdle register.new 0) }
{
    let start = Instant::now(rt)?;
    let mut total: u64 = 0;
    for _ in 0..times {
        let steps = if is_write {
            write_all(register, 1728, &VALUE, 0)
        } else {
            read_all(register, 1728, 0, run)
        };
        let Some(steps) = steps else {
            bail!("an access does not end");
        };
        total = total.wrapping_add(steps);
    }
    let what = if is_write {
        "write steps"
    } else {
        "read steps"
    };
    report(rt, what, &total, total, &start)?;
    Ok(())
}
