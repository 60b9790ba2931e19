//! The section of a process alone, driven by hand: its cursor over a plain memory.
ghost use Rattle.std.specs.Prelude.{◌≡◌, [], ◌∷◌};
ghost use Rattle.bakery.specs.Sections.{is_going, goes_on};

use super::memory::Memory;
use bakery::{Section, SectionProgress};
use model::{Access, Field, Move};
use plain_store::{Command, Name, NestedTypes, Reply, Setup, Value};
use std::alloc::{AllocError, Global};

/// Whether an access is left.
pub fn goes_on(progress: &SectionProgress) -> bool
    ensures { result ≡ goes_on progress.now }
{
    match progress {
        SectionProgress::Reading | SectionProgress::Writing => true,
        SectionProgress::Taken { .. } | SectionProgress::NoStamp => false,
    }
}

/// Takes a command with the number 0: the reply, and how many accesses the section made.
fn taken(section: &mut Section, memory: &mut Memory, command: Command) -> Option<(Reply, u32)> {
    let _nested: NestedTypes = None;
    section.start(command, 0);
    for made in 0..1000 {
        let value = memory.make(&section.next(false));
        let progress = section.advance(value);
        if !goes_on(&progress) {
            return match progress {
                SectionProgress::Taken { reply, .. } => Some((reply, made + 1)),
                _ => None,
            };
        }
    }
    None
}

/// The name `a`.
pub fn a() -> Name
    ensures { result ≡ 97 ∷ [] }
{
    Name::new(b"a").unwrap()
}

/// Whether a section is idle at first, and whether it then replies so, one command after another: to a write, to a read, and to
/// a read once the last byte of the image's slot isn't 0.
fn replies_so(alloc: Global) -> Result<[bool; 4], AllocError> {
    let mut memory = Memory::new(alloc)?;
    let mut section = Section::new(alloc, 0, &Setup::one(1, 2, 2, 1))?;
    let is_idle = section.pending().is_none();
    let write = Command::Write(a(), Value::Count(5));
    let written = taken(&mut section, &mut memory, write) == Some((Reply::Done, 748));
    let five = Reply::Value(Value::Count(5));
    let read = taken(&mut section, &mut memory, Command::Read(a())) == Some((five, 374));
    memory.make(&Access {
        owner: 0,
        field: Field::Image1,
        bit: 176,
        reader: 0,
        how: Move::BeginWrite(true),
    });
    let spoiled = taken(&mut section, &mut memory, Command::Read(a()));
    let unread = spoiled == Some((Reply::NoName, 374));
    Ok([is_idle, written, read, unread])
}

// The section of a lone write makes 748 accesses, and that of a read after it 374. Bytes that are no image count as the empty
// store: the last byte of a counter's slot has to be 0.
#[test]
fn bytes_that_are_no_image(rt: HostRuntime) -> Result<(), AllocError> {
    let [is_idle, written, read, unread] = replies_so(rt.alloc())?;
    assert!(rt; is_idle);
    assert!(rt; written);
    assert!(rt; read);
    assert!(rt; unread);
    Ok(())
}
