ghost use Rattle.std.specs.Prelude.{◌≡◌, true, false, [], ◌∷◌, replicate, None};
ghost use Rattle.reader_copies.specs.{new_bit, new_row};
ghost use Rattle.register_tests.specs.Copies.{OthersStay, written_copy, open_row, last_row, with_last_written};

use model::Move;
use reader_copies::{CopiedBit, CopiedRow, CopyRead, CopyWrite, Made, Progress};
use std::test::Fail;

/// Returns whether a step reports this access of the copy of this reader, and whether this remains.
fn reports(step: (Made, Progress), reader: u8, how: Move, remains: Progress) -> bool {
    step.0 == Made { reader, how } && step.1 == remains
}

/// The four steps that write 1 to a bit with two copies.
fn written(bit: &mut CopiedBit) -> [(Made, Progress); 4]
    requires { bit.old ≡ new_bit 2 false }
    ensures { bit.new ≡ replicate 2 (written_copy ∷ []) }
{
    let mut run = CopyWrite::new(true);
    let one = bit.write_step(&mut run);
    let two = bit.write_step(&mut run);
    let three = bit.write_step(&mut run);
    let four = bit.write_step(&mut run);
    [one, two, three, four]
}

/// The end of a read of such a bit by reader 1, and what was read.
fn read(bit: &mut CopiedBit) -> ((Made, Progress), Option<bool>)
    requires { bit.old ≡ replicate 2 (written_copy ∷ []) }
{
    let mut read = CopyRead::new();
    let (_, _) = bit.read_step(1, &mut read, false);
    let end = bit.read_step(1, &mut read, false);
    (end, read.value())
}

/// A write of two copies takes four accesses, and each reader then reads the value.
#[test]
fn writes_both_copies(rt: HostRuntime) -> Result<(), Fail> {
    let mut bit = CopiedBit::new(rt.alloc(), 2, false)?;
    let [one, two, three, four] = written(&mut bit);
    let (end, value) = read(&mut bit);
    let first = reports(one, 0, Move::BeginWrite(true), Progress::Going)
        && reports(two, 0, Move::EndWrite, Progress::Going);
    let second = reports(three, 1, Move::BeginWrite(true), Progress::Going)
        && reports(four, 1, Move::EndWrite, Progress::Done);
    assert!(rt; first && second);
    assert!(rt; reports(end, 1, Move::EndRead(true), Progress::Done) && value == Some(true));
    Ok(())
}

/// Begins a write of bit 0 and a read of bit 63 by reader 1, in a row of 65 bits for 2 readers.
fn open_both(row: &mut CopiedRow) -> (CopyWrite, CopyRead)
    requires { row.old ≡ new_row 65 2 }
    ensures row { row.new ≡ open_row }
    ensures write { result.0 ≡ record { value = true; made = 1; ended = false } }
    ensures read { result.1 ≡ record { begun = true; value = None } }
{
    let mut write = CopyWrite::new(true);
    let (_, _) = row.write_step(0, &mut write);
    let mut read = CopyRead::new();
    let (_, _) = row.read_step(63, 1, &mut read, true);
    (write, read)
}

/// Writes 1 to the last bit of such a row in four steps, and returns what remains.
fn write_last(row: &mut CopiedRow) -> Progress
    requires { row.old ≡ open_row }
    ensures { row.new ≡ with_last_written open_row }
{
    let mut run = CopyWrite::new(true);
    let (_, _) = row.write_step(64, &mut run);
    let (_, _) = row.write_step(64, &mut run);
    let (_, _) = row.write_step(64, &mut run);
    let (_, progress) = row.write_step(64, &mut run);
    progress
}

/// Such a write leaves the other bits as they are, in every state of their accesses.
fn other_bits_stay()
    ensures { OthersStay }
{}

/// Ends that read and the write of the copy of reader 0, and returns both accesses.
fn end_both(row: &mut CopiedRow, write: CopyWrite, read: CopyRead) -> (Made, Made)
    requires row { row.old ≡ with_last_written open_row }
    requires write { write ≡ record { value = true; made = 1; ended = false } }
    requires read { read ≡ record { begun = true; value = None } }
    ensures { row.new ≡ last_row }
{
    let (mut write, mut read) = (write, read);
    let (read_end, _) = row.read_step(63, 1, &mut read, true);
    let (write_end, _) = row.write_step(0, &mut write);
    (read_end, write_end)
}

/// Both copies of the bits 0, 63 and 64.
fn values(row: &CopiedRow) -> [[bool; 2]; 3]
    requires { row.now ≡ last_row }
{
    [
        [row.value(0, 0), row.value(0, 1)],
        [row.value(63, 0), row.value(63, 1)],
        [row.value(64, 0), row.value(64, 1)],
    ]
}

/// A write of bit 64 of a row takes four steps and changes no other bit: not bit 0, where an index that
/// wraps would end up, of which a write is open meanwhile, and not bit 63, of which a read is open.
#[test]
fn a_row_of_sixty_five_bits(rt: HostRuntime) -> Result<(), Fail> {
    let mut row = CopiedRow::new(rt.alloc(), 65, 2)?;
    let (write, read) = open_both(&mut row);
    let progress = write_last(&mut row);
    other_bits_stay();
    let (read_end, write_end) = end_both(&mut row, write, read);
    let values = values(&row);
    assert!(rt; progress == Progress::Done);
    assert!(rt; read_end.how == Move::EndRead(false) && write_end.how == Move::EndWrite);
    assert!(rt; values == [[true, false], [false, false], [true, true]]);
    Ok(())
}
