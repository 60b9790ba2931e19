//! A section on registers, driven to its end, and one that fails while it writes the commit bit.
ghost use Rattle.std.specs.Prelude.{◌≡◌, ◌<◌, IfOk, IfSome, None, Ok, Some, true};
ghost use Rattle.plain_store.specs.{checked};
ghost use Rattle.bakery.specs.Sections.{is_going};
ghost use Rattle.register_tests.specs.Steps.{section_goes};

use super::sections::{a, goes_on};
use super::units::{UnitSteps, place_of, settle};
use bakery::{DataRow, Image, Locks, Section, SectionProgress, Unit, UnitProgress};
use model::Field;
use plain_store::{Command, NestedTypes, Reply, Setup, Store, Value};
use std::alloc::{AllocError, Global};

/// The outcome of the steps of a section.
#[derive(Clone, Copy)]
struct SectionSteps {
    /// How many of them led to reading.
    reading: u32,
    /// How many of them led to writing.
    writing: u32,
    /// The outcome of the last step, if there was one.
    last: Option<SectionProgress>,
}

impl SectionSteps {
    /// No steps.
    fn none() -> SectionSteps
        ensures { result.last ≡ None }
    {
        SectionSteps {
            reading: 0,
            writing: 0,
            last: None,
        }
    }

    /// Those and one more, which led to this.
    fn with(self, progress: SectionProgress) -> SectionSteps
        ensures { result.last ≡ Some progress }
    {
        let (reading, writing) = match progress {
            SectionProgress::Reading => (self.reading.saturating_add(1), self.writing),
            SectionProgress::Writing => (self.reading, self.writing.saturating_add(1)),
            _ => (self.reading, self.writing),
        };
        SectionSteps {
            reading,
            writing,
            last: Some(progress),
        }
    }

    /// Whether steps of the section remain after these.
    fn goes(&self) -> bool
        ensures { result ≡ section_goes self.now.last }
    {
        match &self.last {
            None => true,
            Some(progress) => goes_on(progress),
        }
    }
}

/// Makes at most `most` steps of a section, and fewer where it comes to its end.
fn run_section(section: &mut Section, row: &mut DataRow, most: u32, flick: bool) -> SectionSteps
    requires going { is_going section.old ≡ true }
    requires setup { section.old.setup ≡ row.old.setup }
    ensures section { section.new.setup ≡ section.old.setup }
    ensures row { row.new.setup ≡ row.old.setup }
    ensures going { is_going section.new ≡ section_goes result.last }
{
    let _nested: NestedTypes = None;
    let mut steps = SectionSteps::none();
    for _made in 0..most {
        let (_, progress) = section.step(row, flick);
        steps = steps.with(progress);
        if !goes_on(&progress) {
            return steps;
        }
    }
    steps
}

/// A write of a counter, whose image differs from the empty one.
fn five() -> Command {
    Command::Write(a(), Value::Count(5))
}

/// Whether a store has one pair, which that command writes.
fn has_five(image: &Image) -> bool {
    image.len() == 1 && image.entry(0) == Some((a(), Value::Count(5)))
}

/// The steps of a single section that writes a counter, up to the access before the last.
#[derive(Clone, Copy)]
struct Approach {
    /// Its steps up to the last access but one of its read of the image, the one after that, and those up to the last access but
    /// one of all.
    reads: SectionSteps,
    turns: SectionSteps,
    writes: SectionSteps,
    /// The change that is being written: before those steps, and after each group of them.
    pending: [Option<(Reply, u32, bool)>; 4],
}

/// Writes a counter by a single section, up to the access before the last. The commit bit is being written then. None if the
/// section comes to its end before.
fn approach_commit(section: &mut Section, row: &mut DataRow, most: u32) -> Option<Approach>
    requires going { is_going section.old ≡ true }
    requires setup { section.old.setup ≡ row.old.setup }
    ensures section { section.new.setup ≡ section.old.setup }
    ensures row { row.new.setup ≡ row.old.setup }
    ensures going { IfSome result (λ made. is_going section.new ≡ section_goes made.writes.last) }
{
    let _nested: NestedTypes = None;
    let begun = section.pending();
    let reads = run_section(section, row, most, true);
    if !reads.goes() {
        return None;
    }
    let read = section.pending();
    let turns = run_section(section, row, 1, true);
    if !turns.goes() {
        return None;
    }
    let turned = section.pending();
    let writes = run_section(section, row, most, true);
    let written = section.pending();
    Some(Approach {
        reads,
        turns,
        writes,
        pending: [begun, read, turned, written],
    })
}

/// The reply to the write, no changes before it, and the commit bit 1.
fn is_first_change(pending: Option<(Reply, u32, bool)>) -> bool {
    pending == Some((Reply::Done, 0, true))
}

/// Returns whether the section has made the accesses that a single write has before its last one. It reads its commit bit and its stamp of two
/// bits with six accesses, and its image of 184 bits with 368. With the last of these it has a change to write: the image with 368
/// accesses, the stamp with four, and the commit bit with two.
fn has_come_to_the_commit(made: &Approach) -> bool {
    let [begun, read, turned, written] = made.pending;
    let reads = matches!(
        made.reads,
        SectionSteps {
            reading: 373,
            writing: 0,
            last: Some(SectionProgress::Reading),
        }
    );
    let turns = matches!(
        made.turns,
        SectionSteps {
            reading: 0,
            writing: 1,
            last: Some(SectionProgress::Writing),
        }
    );
    let writes = matches!(
        made.writes,
        SectionSteps {
            reading: 0,
            writing: 373,
            last: Some(SectionProgress::Writing),
        }
    );
    let before = begun.is_none() && read.is_none();
    reads && turns && writes && before && is_first_change(turned) && is_first_change(written)
}

/// The outcome of a single section that writes a counter.
#[derive(Drop)]
struct Commit {
    approach: Approach,
    /// Its steps after those.
    ends: SectionSteps,
    /// The change that is being written after them.
    pending: Option<(Reply, u32, bool)>,
    /// The newest store then, and the version that the process has committed.
    newest: Image,
    version: (bool, u32),
}

/// Writes a counter by a single section. None if it comes to its end before it writes the commit bit.
fn finish_commit(section: &mut Section, row: &mut DataRow) -> Option<Commit>
    requires going { is_going section.old ≡ true }
    requires process { 0 < row.old.setup.processes }
    requires setup { section.old.setup ≡ row.old.setup }
{
    let _nested: NestedTypes = None;
    let approach = approach_commit(section, row, 373)?;
    if !approach.writes.goes() {
        return None;
    }
    let ends = run_section(section, row, 100, true);
    let version = row.own(0).version();
    Some(Commit {
        approach,
        ends,
        pending: section.pending(),
        newest: row.newest(),
        version,
    })
}

/// A section of process 0 that has begun to write a counter.
fn begun(alloc: Global, setup: &Setup) -> Result<Section, AllocError>
    requires good { checked setup.now ≡ Ok tt }
    requires process { 0 < setup.now.processes }
    ensures going { IfOk result (λ section. is_going section ≡ true) }
    ensures setup { IfOk result (λ section. section.setup ≡ setup.now) }
{
    let mut section = Section::new(alloc, 0, setup)?;
    section.start(five(), 0);
    Ok(section)
}

/// Runs the section of a single write to its end.
fn commits(alloc: Global) -> Result<Option<Commit>, AllocError> {
    let setup = Setup::one(1, 2, 2, 1);
    let mut row = DataRow::new(alloc, &setup)?;
    let mut section = begun(alloc, &setup)?;
    Ok(finish_commit(&mut section, &mut row))
}

// With the last one of 748 accesses the command is taken, and the registers hold its store.
#[test]
fn a_lone_section_commits(rt: HostRuntime) -> Result<(), AllocError> {
    let Some(made) = commits(rt.alloc())? else {
        panic!(rt; "the run comes to its end too early");
    };
    assert!(rt; has_come_to_the_commit(&made.approach));
    assert!(rt;
        matches!(
            made.ends,
            SectionSteps {
                reading: 0,
                writing: 0,
                last: Some(SectionProgress::Taken {
                    reply: Reply::Done,
                    changes: 0,
                }),
            }
        )
    );
    assert!(rt; made.pending.is_none());
    assert!(rt; has_five(&made.newest));
    assert!(rt; made.version == (true, 1));
    Ok(())
}

/// The outcome of a section that fails.
#[derive(Drop)]
struct CutCommit {
    approach: Approach,
    /// The torn bit.
    torn: Option<(Field, u16)>,
    /// The steps of the memory unit.
    unit: UnitSteps,
    /// The newest store after them.
    newest: Image,
}

/// Lets a single section fail within the write of its commit bit, and settles that bit at this value. None if the section comes
/// to its end before.
fn cut(
    section: &mut Section,
    locks: &mut Locks,
    row: &mut DataRow,
    setup: &Setup,
    value: bool,
) -> Option<CutCommit>
    requires good { checked setup.now ≡ Ok tt }
    requires process { 0 < setup.now.processes }
    requires going { is_going section.old ≡ true }
    requires section { section.old.setup ≡ setup.now }
    requires locks { setup.now ≡ locks.old.setup }
    requires row { setup.now ≡ row.old.setup }
{
    let approach = approach_commit(section, row, 373)?;
    let torn = section.fail(row);
    let place = place_of(&torn);
    let mut unit = Unit::start(0, setup, torn);
    let unit = settle(locks, row, 0, &mut unit, value);
    Some(CutCommit {
        approach,
        torn: place,
        unit,
        newest: row.newest(),
    })
}

/// Runs the section of a single write up to its failure.
fn cut_in_the_commit(alloc: Global, value: bool) -> Result<Option<CutCommit>, AllocError> {
    let setup = Setup::one(1, 2, 2, 1);
    let mut locks = Locks::new(alloc, &setup)?;
    let mut row = DataRow::new(alloc, &setup)?;
    let mut section = begun(alloc, &setup)?;
    Ok(cut(&mut section, &mut locks, &mut row, &setup, value))
}

/// Whether one access settled the commit bit, and then four cleared the ticket and two the choosing bit.
fn is_settled(made: &CutCommit) -> bool {
    let unit = matches!(
        made.unit,
        UnitSteps {
            settling: 0,
            clearing: 6,
            last: Some(UnitProgress::Down),
        }
    );
    made.torn == Some((Field::Commit, 0)) && unit
}

/// Whether a section comes to the write of its commit bit, whether its memory unit settles that bit, and whether the newest store is
/// then the one written, where it is settled at 1, and else the empty one before it.
fn settled_at(alloc: Global, value: bool) -> Result<[bool; 3], AllocError> {
    let _nested: NestedTypes = None;
    let _reported: Option<SectionProgress> = None;
    let Some(made) = cut_in_the_commit(alloc, value)? else {
        return Ok([false; 3]);
    };
    let newest = if value {
        has_five(&made.newest)
    } else {
        made.newest.len() == 0
    };
    Ok([
        has_come_to_the_commit(&made.approach),
        is_settled(&made),
        newest,
    ])
}

// The commit bit is torn. Settled at 1, the registers hold the store that was written, and settled at 0 the one before it, which is
// empty.
#[test]
fn a_commit_bit_is_settled(rt: HostRuntime) -> Result<(), AllocError> {
    for value in [false, true] {
        let [come, settled, newest] = settled_at(rt.alloc(), value)?;
        assert!(rt; come);
        assert!(rt; settled);
        assert!(rt; newest);
    }
    Ok(())
}
