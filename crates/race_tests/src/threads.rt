//! Boards whose ports each work on a thread of their own.
use crate::plans::{answer, is_good};
use board_runs::{Board, Work, read_scenario, run, take_turns};
use plain_store::{Answer, NestedTypes, Reply};
use race::Closing;
use std::process::Abort;
use std::test::Fail;
use std::thread::Threads;

/// Makes the board of a scenario, lets its ports work on threads after the scenario's lines, and closes it. Fails the test unless
/// port 0's first call is answered with `Done` and the lists are one history. A port that is at work fails it with `at_work`.
#[tactic(auto, using(board::proofs::Orders::all_are_made, board::proofs::Orders::first_are_made))]
pub fn remaining<R: AllocGlobal + Threads + Abort + Sync, W: Work + Sync>(
    rt: &R,
    file: &str,
    work: &W,
    at_work: &str,
) -> Result<Closing, Fail> {
    let _nested: NestedTypes = None;
    let scenario = read_scenario(rt.alloc(), file.as_bytes())?;
    let (board, mut ports) = Board::new(rt.alloc(), &scenario.setup)?;
    take_turns(rt.alloc(), &board, &mut ports, &scenario.lines)?;
    run(rt, &board, &mut ports, work);
    let Ok(closing) = board.close(ports) else {
        panic!(rt; "{at_work}");
    };
    assert!(rt; matches!(answer(&closing, 0, 0), Some(Answer::Reply(Reply::Done))));
    assert!(rt; is_good(rt.alloc(), &scenario.setup, &closing)?);
    Ok(closing)
}
