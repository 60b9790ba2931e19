//! Calls of one port.
ghost use Rattle.board_runs.specs.board.{IsOf, SamePort};

use board_runs::{Board, Driven, Port};
use choices::Flicks;
use model::Refusal;
use plain_store::Command;

/// An upper bound on the word steps of a call that waits for no process.
const STEPS: u64 = 65_536;

/// The number of turns that a port on a thread is given at a time.
const TURNS: u32 = 100;

/// Returns how many word steps a call of this port takes while no other port works. Each such call takes as many.
pub fn steps_of_a_call(board: &Board, port: &mut Port, command: &Command) -> Option<u64>
    requires { IsOf board.now port.old }
    ensures { IsOf board.now port.new }
{
    if port.begin(board, *command).is_err() {
        return None;
    }
    let mut flicks = Flicks::constant(false);
    for before in 0..STEPS {
        match port.drive(board, 1, &mut flicks) {
            Driven::Turns => {}
            Driven::Answered(_) => return Some(before + 1),
            Driven::Down | Driven::Idle => return None,
        }
    }
    None
}

/// Makes `calls` calls of a port, one after another, and returns whether each of them takes exactly `steps` word steps.
pub fn calls_alone(
    board: &Board,
    port: &mut Port,
    command: &Command,
    steps: u64,
    calls: u32,
) -> bool
    requires { IsOf board.now port.old }
    ensures { SamePort port.old port.new }
{
    let mut flicks = Flicks::constant(false);
    for _ in 0..calls {
        if port.begin(board, *command).is_err()
            || !matches!(
                port.drive(board, steps.saturating_sub(1), &mut flicks),
                Driven::Turns
            )
            || !matches!(port.drive(board, 1, &mut flicks), Driven::Answered(_))
        {
            return false;
        }
    }
    true
}

/// Gives turns to a port `times` times; the port calls again and again. Returns a lower bound on the word steps made, where the
/// turns in which a call is answered count as one step.
pub fn calls_again(board: &Board, mut port: Port, command: &Command, times: u32) -> u64
    requires { IsOf board.now port }
{
    let mut flicks = Flicks::constant(false);
    let mut steps: u64 = 0;
    for _ in 0..times {
        let made = match port.drive(board, u64::from(TURNS), &mut flicks) {
            Driven::Turns => u64::from(TURNS),
            Driven::Answered(_) => 1,
            Driven::Down => 0,
            Driven::Idle => {
                let _begun: Result<(), Refusal> = port.begin(board, *command);
                0
            }
        };
        steps = steps.saturating_add(made);
    }
    steps
}
