//! Boards that can't be closed.
use board::NotQuiet;
use board_runs::{Board, Driven, read_scenario, take_turns};
use plain_store::{Answer, NestedTypes, Reply, Setup, Store};
use std::test::Fail;

/// A write, and its last turn.
const WRITE: &str = "bakery 1\ntickets 2\nstamps 2\ncall 0 write a c:5\nstep 0 966\nstep 0 1\n";

// Before the last turn of the write the board and both ports come back, and the work goes on.
#[test]
fn a_board_with_an_open_call_comes_back(rt: HostRuntime) -> Result<(), Fail> {
    let _nested: NestedTypes = None;
    let scenario = read_scenario(rt.alloc(), WRITE.as_bytes())?;
    let (begun, last) = scenario
        .lines
        .as_slice()
        .split_at(2.min(scenario.lines.len()));
    let (board, mut ports) = Board::new(rt.alloc(), &scenario.setup)?;
    let drives = take_turns(rt.alloc(), &board, &mut ports, begun)?;
    assert!(rt; drives.len() == 1 && matches!(drives[0].driven, Driven::Turns));
    let Err(NotQuiet { board, mut ports }) = board.close(ports) else {
        panic!(rt; "port 0 has a turn left");
    };
    assert!(rt; ports.len() == 2);
    let drives = take_turns(rt.alloc(), &board, &mut ports, last)?;
    assert!(rt; drives.len() == 1);
    let done = matches!(
        drives[0].driven,
        Driven::Answered(Answer::Reply(Reply::Done))
    );
    assert!(rt; done);
    let Ok(closing) = board.close(ports) else {
        panic!(rt; "both ports are idle");
    };
    assert!(rt; closing.answers.len() == 2 && closing.image.len() == 1);
    Ok(())
}

// Where a port is not there the board and all ports that are come back.
#[test]
fn a_board_without_a_port_comes_back(rt: HostRuntime) -> Result<(), Fail> {
    let (board, mut ports) = Board::new(rt.alloc(), &Setup::one(2, 2, 2, 1))?;
    let one = ports.pop();
    assert!(rt; one.is_some());
    match board.close(ports) {
        Ok(_) => panic!(rt; "a port is not there"),
        Err(back) => assert!(rt; back.ports.len() == 1),
    }
    Ok(())
}

// Ports are closed in whatever order they come; each list is that of its process.
#[test]
fn ports_come_in_any_order(rt: HostRuntime) -> Result<(), Fail> {
    let _nested: NestedTypes = None;
    let scenario = read_scenario(rt.alloc(), WRITE.as_bytes())?;
    let (board, mut ports) = Board::new(rt.alloc(), &scenario.setup)?;
    take_turns(rt.alloc(), &board, &mut ports, &scenario.lines)?;
    ports.reverse();
    let Ok(closing) = board.close(ports) else {
        panic!(rt; "both ports are idle");
    };
    let lists = closing.answers.as_slice();
    assert!(rt; lists.len() == 2 && lists[0].len() == 1 && lists[1].is_empty());
    assert!(rt; closing.image.len() == 1);
    Ok(())
}
