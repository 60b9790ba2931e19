use model::SafeBit;

/// What four reads of one bit give, each with a flick that is not the bit's value at its end; whether a write is open after the
/// first, and a read after one that was dropped. The first read is alone; a write begins and ends within the second; a write
/// that is open at its begin is settled within the third; and the last one comes after the dropped one.
fn accesses() -> ([bool; 4], bool, bool) {
    let mut bit = SafeBit::new(false);
    bit.begin_write(true);
    bit.end_write();
    bit.begin_read();
    let alone = bit.end_read(false);
    let writing = bit.writing();
    bit.begin_read();
    bit.begin_write(false);
    bit.end_write();
    let overlapped = bit.end_read(true);
    bit.begin_write(true);
    bit.begin_read();
    bit.settle(false);
    let settled = bit.end_read(true);
    bit.begin_read();
    bit.drop_read();
    let reading = bit.reading();
    bit.begin_read();
    let after = bit.end_read(true);
    ([alone, overlapped, settled, after], writing, reading)
}

/// What was written is read, whatever the flick, and an end without a write is refused by the test that callers have. A read
/// that a write overlaps gives the flick, also where the write has ended by then. A settled write counts as ended at the
/// settled value, and a dropped read leaves nothing to end.
#[test]
fn single_accesses_to_a_bit(rt: HostRuntime) {
    let (given, writing, reading) = accesses();
    assert!(rt; matches!(given, [true, true, true, false]));
    assert!(rt; !writing && !reading);
}

/// The example of the crate's page.
#[test]
fn a_written_bit_is_read(rt: HostRuntime) {
    let mut bit = SafeBit::new(false);
    bit.begin_write(true);
    bit.end_write();
    bit.begin_read();
    assert_eq!(rt; bit.end_read(false), true);
}
