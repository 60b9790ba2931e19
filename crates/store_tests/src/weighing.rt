//! Weighing the lists of two ports, in which each call has a name. All calls concern the name `a`.
ghost use Rattle.std.specs.Prelude.{◌≤◌};

use call_check::{Placed, Weighed, weigh};
use plain_store::{Answer, Caller, Command, Name, NestedTypes, Reply, Setup, Store, Value};
use std::alloc::{AllocError, Global};
use std::process::Abort;
use std::test::Fail;
use store_image::Image;

/// The calls, by name.
#[derive(Clone, Copy)]
enum CallMade {
    Write,
    Read,
    // The read with another position, reply or answer.
    ReadLate,
    ReadNever,
    ReadNowhere,
    ReadOther,
    ReadNoName,
    ReadWithdrawn,
    // A read before the first change.
    ReadNothing,
    // The write, cut by a failure, with its position and without one.
    CutWrite,
    LostWrite,
    // The calls after the write and the read.
    AddOne,
    ReadSix,
    Swap,
    SwapNoName,
    AddNothing,
    // For version 2: asks after the first change, which return these numbers, and an ask cut before it was taken.
    AskOne,
    AskTwo,
    LostAsk,
}

use CallMade::{
    AddNothing, AddOne, AskOne, AskTwo, CutWrite, LostAsk, LostWrite, Read, ReadLate, ReadNever,
    ReadNoName, ReadNothing, ReadNowhere, ReadOther, ReadSix, ReadWithdrawn, Swap, SwapNoName,
    Write,
};

/// The lists of two ports, and the result of weighing them.
type Row = (&'static [CallMade], &'static [CallMade], Weighed);

// Against the image after the write.
const AT_FIVE: [Row; 14] = [
    (&[Write], &[Read], Weighed::Good),
    // The position is above that of the last store; in the second row it is one that no call can have.
    (&[Write], &[ReadLate], Weighed::Bad(1, 0)),
    (&[Write], &[ReadNever], Weighed::Bad(1, 0)),
    // It is one of two calls that would change store 0.
    (&[Write], &[Write], Weighed::Bad(0, 0)),
    (&[ReadNothing], &[Write, Write], Weighed::Bad(1, 0)),
    (&[ReadNothing, Write], &[Write, Write], Weighed::Bad(0, 1)),
    // Its position is that of the change before it in its list, or is below that of the read before it.
    (&[Write, ReadNothing], &[Read], Weighed::Bad(0, 1)),
    (&[Write], &[Read, ReadNothing], Weighed::Bad(1, 1)),
    (&[Write], &[ReadNothing, Read], Weighed::Good),
    // Its reply is not that of its store.
    (&[Write], &[ReadOther], Weighed::Bad(1, 0)),
    // It has a reply and no position, or another answer and a position.
    (&[Write], &[ReadNowhere], Weighed::Bad(1, 0)),
    (&[Write], &[ReadWithdrawn], Weighed::Bad(1, 0)),
    // A cut call may have a position or none; if it was taken and changes the store, it counts as a change.
    (&[CutWrite, LostWrite], &[Read], Weighed::Good),
    (&[LostWrite], &[], Weighed::BadEnd),
];

// Against the image of the empty store.
const AT_NOTHING: [Row; 1] = [(&[Write], &[Read], Weighed::BadEnd)];

/// A true run: 5 is written and read, and an add makes it 6. Then 6 is read, and a compare and swap makes it 7. An add
/// of 0 returns 7. The changes are the write, the add of 1 and the swap, so there are four stores.
const FIRST: &[CallMade] = &[Write, ReadSix, Swap];

const SECOND: &[CallMade] = &[Read, AddOne, AddNothing];

// The true run with two calls of a list swapped, with the two lists swapped, which makes no difference in version 1, and
// with two bad calls. The result is then the bad call of the lower port, even if the other is earlier in its list.
const AT_SEVEN: [Row; 6] = [
    (&[ReadSix, Write, Swap], SECOND, Weighed::Bad(0, 1)),
    (&[Write, Swap, ReadSix], SECOND, Weighed::Bad(0, 2)),
    (FIRST, &[AddOne, Read, AddNothing], Weighed::Bad(1, 1)),
    (FIRST, &[Read, AddNothing, AddOne], Weighed::Bad(1, 2)),
    (SECOND, FIRST, Weighed::Good),
    (
        &[Write, ReadSix, SwapNoName],
        &[ReadNoName, AddOne, AddNothing],
        Weighed::Bad(0, 2),
    ),
];

fn a() -> Name {
    Name::new(b"a").unwrap()
}

fn replied(command: Command, reply: Reply, place: u32) -> Placed {
    Placed {
        command,
        answer: Some(Answer::Reply(reply)),
        place: Some(place),
    }
}

fn read(reply: Reply, place: u32) -> Placed {
    replied(Command::Read(a()), reply, place)
}

fn write(answer: Option<Answer>, place: Option<u32>) -> Placed {
    Placed {
        command: Command::Write(a(), Value::Count(5)),
        answer,
        place,
    }
}

fn add(addend: i64, sum: i64, place: u32) -> Placed {
    replied(Command::Add(a(), addend), Reply::Sum(sum), place)
}

fn swap(reply: Reply) -> Placed {
    let swap = Command::Cas(a(), Value::Count(6), Value::Count(7));
    replied(swap, reply, 2)
}

fn placed(made: CallMade) -> Placed {
    let five = Reply::Value(Value::Count(5));
    let six = Reply::Value(Value::Count(6));
    match made {
        Write => write(Some(Answer::Reply(Reply::Done)), Some(0)),
        CutWrite => write(None, Some(0)),
        LostWrite => write(None, None),
        Read => read(five, 1),
        ReadLate => read(five, 2),
        ReadNever => read(five, u32::MAX),
        ReadOther => read(six, 1),
        ReadSix => read(six, 2),
        ReadNothing => read(Reply::NoName, 0),
        ReadNoName => read(Reply::NoName, 1),
        ReadNowhere => Placed {
            place: None,
            ..read(five, 1)
        },
        ReadWithdrawn => Placed {
            answer: Some(Answer::Withdrawn),
            ..read(five, 1)
        },
        AddOne => add(1, 6, 1),
        AddNothing => add(0, 7, 3),
        Swap => swap(Reply::Swapped),
        SwapNoName => swap(Reply::NoName),
        AskOne => replied(Command::Ask, Reply::Last(1), 1),
        AskTwo => replied(Command::Ask, Reply::Last(2), 1),
        LostAsk => Placed {
            command: Command::Ask,
            answer: None,
            place: None,
        },
    }
}

/// Returns the image of a store in which process 0 has written this count, as its first call.
fn image(count: i64, callers: u8) -> Result<Image, AllocError>
    requires { callers ≤ 16 }
{
    let mut image = Image::empty(1, callers);
    let first = Caller {
        process: 0,
        number: u16::from(callers != 0),
    };
    image.apply(&Command::Write(a(), Value::Count(count)), first)?;
    Ok(image)
}

fn list(alloc: Global, calls: &[CallMade]) -> Result<Vec<Placed>, AllocError> {
    let _nested: NestedTypes = None;
    let mut list = Vec::new(alloc);
    for made in calls {
        list.push(placed(*made))?;
    }
    Ok(list)
}

/// Weighs the lists of two ports of version 1.
fn weighed(
    alloc: Global,
    first: Vec<Placed>,
    second: Vec<Placed>,
    image: &Image,
) -> Result<Weighed, AllocError> {
    weigh(alloc, &Setup::one(2, 2, 2, 1), &[first, second], image)
}

fn weighed_row(
    alloc: Global,
    first: &[CallMade],
    second: &[CallMade],
    image: &Image,
) -> Result<Weighed, AllocError> {
    weighed(alloc, list(alloc, first)?, list(alloc, second)?, image)
}

fn weighs(rt: &(impl Abort + AllocGlobal), table: &[Row], image: &Image) -> Result<(), Fail> {
    for (row, (first, second, verdict)) in table.iter().enumerate() {
        let found = weighed_row(rt.alloc(), first, second, image)?;
        assert!(rt; found == *verdict, "row {row}");
    }
    Ok(())
}

#[test]
fn weighs_lists(rt: HostRuntime) -> Result<(), Fail> {
    weighs(&rt, &AT_FIVE, &image(5, 0)?)?;
    weighs(&rt, &AT_NOTHING, &Image::empty(1, 0))?;
    weighs(&rt, &AT_SEVEN, &image(7, 0)?)
}

/// A change of a call of the true run.
#[derive(Clone, Copy)]
enum Change {
    Place(Option<u32>),
    Answer(Option<Answer>),
}

/// Returns a list in which the call at this index, if there is one, is changed.
fn changed(
    alloc: Global,
    calls: &[CallMade],
    index: usize,
    change: &Change,
) -> Result<Vec<Placed>, AllocError> {
    let _nested: NestedTypes = None;
    let mut list = Vec::new(alloc);
    for (number, made) in calls.iter().enumerate() {
        let mut call = placed(*made);
        if number == index {
            match change {
                Change::Place(place) => call.place = *place,
                Change::Answer(answer) => call.answer = *answer,
            }
        }
        list.push(call)?;
    }
    Ok(list)
}

/// Weighs the true run with one changed call.
fn weighed_with(
    alloc: Global,
    port: usize,
    index: usize,
    change: &Change,
) -> Result<Weighed, AllocError> {
    let (in_first, in_second) = if port == 0 {
        (index, usize::MAX)
    } else {
        (usize::MAX, index)
    };
    let image = image(7, 0)?;
    let first = changed(alloc, FIRST, in_first, change)?;
    let second = changed(alloc, SECOND, in_second, change)?;
    weighed(alloc, first, second, &image)
}

/// Calls of the true run by port and index, each with another position, and the result of weighing then.
const OTHER_PLACES: [(usize, usize, Option<u32>, Weighed); 16] = [
    (0, 0, Some(0), Weighed::Good),
    // The write: no call changes store 0, so each later position is above it.
    (0, 0, Some(1), Weighed::Bad(0, 0)),
    (0, 0, None, Weighed::Bad(0, 0)),
    // The read of 6: the change before it has position 0. Store 1 has 5, store 3 has 7, and there is no store 4.
    (0, 1, Some(0), Weighed::Bad(0, 1)),
    (0, 1, Some(1), Weighed::Bad(0, 1)),
    (0, 1, Some(3), Weighed::Bad(0, 1)),
    (0, 1, Some(4), Weighed::Bad(0, 1)),
    (0, 1, None, Weighed::Bad(0, 1)),
    // The swap: below the position of the read, and above store 2, which no call changes now.
    (0, 2, Some(1), Weighed::Bad(0, 2)),
    (0, 2, Some(3), Weighed::Bad(0, 2)),
    // The read of 5: store 0 is empty, and store 2 has 6.
    (1, 0, Some(0), Weighed::Bad(1, 0)),
    (1, 0, Some(2), Weighed::Bad(1, 0)),
    // The add of 1: no call changes store 1, so the other port's read is above it.
    (1, 1, Some(0), Weighed::Bad(0, 1)),
    (1, 1, Some(2), Weighed::Bad(0, 1)),
    // The add of 0: store 2 has 6, and there is no store 4.
    (1, 2, Some(2), Weighed::Bad(1, 2)),
    (1, 2, Some(4), Weighed::Bad(1, 2)),
];

/// Calls of the true run, each with another answer, which makes it bad.
const OTHER_ANSWERS: [(usize, usize, Answer); 9] = [
    (0, 0, Answer::Reply(Reply::StoreFull)),
    (0, 1, Answer::Reply(Reply::Value(Value::Count(5)))),
    (0, 2, Answer::Reply(Reply::Kept(Value::Count(6)))),
    (1, 0, Answer::Reply(Reply::NoName)),
    (1, 1, Answer::Reply(Reply::Sum(7))),
    (1, 2, Answer::Reply(Reply::Done)),
    // Calls with a position whose answer means that they were not taken.
    (0, 0, Answer::Withdrawn),
    (0, 1, Answer::StampsFull),
    (1, 2, Answer::TicketsFull { process: 1 }),
];

/// Asserts the result of weighing the true run with one changed call.
fn weighs_so(
    rt: &(impl Abort + AllocGlobal),
    port: usize,
    index: usize,
    change: &Change,
    verdict: &Weighed,
) -> Result<(), Fail> {
    let found = weighed_with(rt.alloc(), port, index, change)?;
    assert!(rt; found == *verdict, "{port} {index}");
    Ok(())
}

#[test]
fn weighs_other_places(rt: HostRuntime) -> Result<(), Fail> {
    for (port, index, place, verdict) in &OTHER_PLACES {
        weighs_so(&rt, *port, *index, &Change::Place(*place), verdict)?;
    }
    Ok(())
}

#[test]
fn weighs_other_answers(rt: HostRuntime) -> Result<(), Fail> {
    for (port, index, answer) in &OTHER_ANSWERS {
        let change = Change::Answer(Some(*answer));
        weighs_so(&rt, *port, *index, &change, &Weighed::Bad(*port, *index))?;
    }
    Ok(())
}

// Each call of the true run may be cut and still be taken.
#[test]
fn weighs_cut_calls(rt: HostRuntime) -> Result<(), Fail> {
    for (port, index) in [(0, 0), (0, 1), (0, 2), (1, 0), (1, 1), (1, 2)] {
        weighs_so(&rt, port, index, &Change::Answer(None), &Weighed::Good)?;
    }
    Ok(())
}

/// The list of a port, and the result of weighing it against the image after the write, in which its number is 1.
const IN_TWO: [(&[CallMade], Weighed); 3] = [
    (&[Write, AskOne], Weighed::Good),
    // After a cut call the write is call 2 of its process: a later ask returns 2, and the image must have this number.
    (&[LostAsk, Write, AskOne], Weighed::Bad(0, 2)),
    (&[LostAsk, Write, AskTwo], Weighed::BadEnd),
];

/// Weighs, in version 2, the short list of a port and an empty list.
fn weighed_in_two(alloc: Global, calls: &[CallMade], image: &Image) -> Result<Weighed, AllocError> {
    let setup = Setup {
        version: 2,
        ..Setup::one(2, 2, 2, 1)
    };
    let list = list(alloc, calls)?;
    if list.len() > 65_535 {
        return Ok(Weighed::BadEnd);
    }
    weigh(alloc, &setup, &[list, Vec::new(alloc)], image)
}

// An ask returns the number of the last write.
#[test]
fn weighs_version_two(rt: HostRuntime) -> Result<(), Fail> {
    let written = image(5, 2)?;
    for (calls, verdict) in &IN_TWO {
        let found = weighed_in_two(rt.alloc(), calls, &written)?;
        assert!(rt; found == *verdict, "{verdict}");
    }
    let found = weighed_in_two(rt.alloc(), &[Write, AskOne], &Image::empty(1, 2))?;
    assert!(rt; matches!(found, Weighed::BadEnd));
    Ok(())
}
