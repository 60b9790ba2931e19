//! The ports of a board that carry out the lines of a scenario, by turns on one thread, or each on a thread of its own.
ghost use Rattle.std.specs.Prelude.{◌≡◌, Ok, IfOk};
ghost use Rattle.board.specs.{AreFirstPortsOf, ArePortsOf, IsOf, SamePort};
ghost use Rattle.plain_store.specs.{checked};

use crate::board_result::BoardResult;
use crate::drives::DriveResult;
use crate::lines::{carry_out, process_of, set_flicks};
use board::{Board, Driven, Port};
use choices::Flicks;
use plain_store::{NestedTypes, Setup};
use scenario::{Line, Scenario};
use std::alloc::{AllocError, Global};
use std::thread::{self, Threads};

/// The work of a board's ports, each of which does its part on a thread of its own.
pub trait Work {
    /// Does the part of `port`, which is that of `process`.
    fn carry_out(&self, board: &Board, port: &mut Port, process: usize)
        requires { IsOf board.now port.old }
        ensures { SamePort port.old port.new };
}

/// Lines of a scenario, of which each port carries out those of its process. Its flicks are its own: where they come from a
/// generator, its process's number is added to the seed.
#[derive(Drop)]
struct OwnLines<'a> {
    lines: &'a [Line],
}

impl Work for OwnLines<'_> {
    fn carry_out(&self, board: &Board, port: &mut Port, process: usize) {
        carry_out_own(board, port, process, self.lines)
    }
}

/// Carries out a scenario on a new board: its first `by_turns` lines by turns, and the others on threads. Returns `None` where a
/// call is left open. The one fault is an allocation failure.
#[tactic(auto, using(board::proofs::Orders::first_are_made))]
pub fn played<'a, R: Threads + AllocGlobal + Sync>(
    rt: &R,
    scenario: &'a Scenario,
    by_turns: usize,
) -> Result<Option<BoardResult<'a>>, AllocError> {
    let (board, mut ports) = made(rt.alloc(), &scenario.setup)?;
    let lines = scenario.lines.as_slice();
    let (first, others) = lines.split_at(by_turns.min(lines.len()));
    let drives = take_turns(rt.alloc(), &board, &mut ports, first)?;
    run_lines(rt, &board, &mut ports, others);
    match board.close(ports) {
        Ok(closing) => Ok(Some(BoardResult {
            setup: &scenario.setup,
            drives,
            closing,
        })),
        Err(_open) => Ok(None),
    }
}

/// Lets ports carry out lines on threads. Without lines no thread is made.
fn run_lines<R: Threads + Sync>(rt: &R, board: &Board, ports: &mut Vec<Port>, lines: &[Line])
    requires { AreFirstPortsOf board.now ports.old.items }
    ensures { AreFirstPortsOf board.now ports.new.items }
{
    if !lines.is_empty() {
        run(rt, board, ports, &OwnLines { lines });
    }
}

/// A board with its ports, made at the second try where the first one was refused.
fn made(alloc: Global, setup: &Setup) -> Result<(Board, Vec<Port>), AllocError>
    requires { checked setup.now ≡ Ok tt }
    ensures { IfOk result (λ made. ArePortsOf made.0 made.1.items) }
{
    match Board::new(alloc, setup) {
        Ok(made) => Ok(made),
        Err(AllocError) => Board::new(alloc, setup),
    }
}

/// Carries out lines on this thread, one after another. Returns the drives, one for each line that drives a port.
///
/// # Errors
///
/// Returns an [`AllocError`] if there is no memory for a drive. Later lines are then not carried out.
pub fn take_turns(
    alloc: Global,
    board: &Board,
    ports: &mut Vec<Port>,
    lines: &[Line],
) -> Result<Vec<DriveResult>, AllocError>
    requires { AreFirstPortsOf board.now ports.old.items }
    ensures { AreFirstPortsOf board.now ports.new.items }
{
    let _nested: NestedTypes = None;
    let mut drives = Vec::new(alloc);
    let mut flicks = Flicks::constant(false);
    for line in lines {
        set_flicks(&mut flicks, line, 0);
        if let Some(process) = process_of(line)
            && let Some(driven) = carry_out_at(
                board,
                ports,
                usize::from(process),
                line,
                &mut flicks,
            )
        {
            drives.push(DriveResult { process, driven })?;
        }
    }
    Ok(drives)
}

/// The port at this place carries out a line, if there is one.
#[tactic(auto, using(crate::proofs::PortsThen::is_of, crate::proofs::PortsThen::are_set))]
fn carry_out_at(
    board: &Board,
    ports: &mut Vec<Port>,
    place: usize,
    line: &Line,
    flicks: &mut Flicks,
) -> Option<Driven>
    requires { AreFirstPortsOf board.now ports.old.items }
    ensures { AreFirstPortsOf board.now ports.new.items }
{
    match ports.get_mut(place) {
        Some(port) => carry_out(board, port, line, flicks),
        None => None,
    }
}

/// Lets each port do its part of the work, on a thread of its own where one can be made.
#[tactic(auto, using(crate::proofs::PortsThen::is_of, crate::proofs::PortsThen::are_then))]
pub fn run<R: Threads + Sync, W: Work + Sync>(
    rt: &R,
    board: &Board,
    ports: &mut Vec<Port>,
    work: &W,
)
    requires { AreFirstPortsOf board.now ports.old.items }
    ensures { AreFirstPortsOf board.now ports.new.items }
{
    let threads = ports.len().max(1);
    thread::for_each_mut(
        rt,
        ports.as_mut_slice(),
        threads,
        &|place: usize, port: &mut Port|
            requires { IsOf board.now port.old }
            ensures { SamePort port.old port.new }
        { work.carry_out(board, port, place) },
    );
}

/// A port carries out the lines of one process.
fn carry_out_own(board: &Board, port: &mut Port, process: usize, lines: &[Line])
    requires { IsOf board.now port.old }
    ensures { SamePort port.old port.new }
{
    let mut flicks = Flicks::constant(false);
    for line in lines {
        set_flicks(&mut flicks, line, process as u64);
        if let Some(of) = process_of(line)
            && usize::from(of) == process
        {
            let _driven: Option<Driven> = carry_out(board, port, line, &mut flicks);
        }
    }
}
