//! Ports that have nothing to do.
ghost use Rattle.board.specs.{IsOf};

use board::{Board, Driven, Flicks, Port};
use plain_store::Setup;
use std::alloc::AllocError;
use std::process::Abort;

/// Whether a port that is idle makes no step and says so, with turns and without; whether it then fails; and whether it is down,
/// with turns and without.
fn says_so(board: &Board, port: &mut Port) -> [bool; 5]
    requires { IsOf board.now port.old }
{
    let mut flicks = Flicks::constant(false);
    [
        matches!(port.drive(board, 0, &mut flicks), Driven::Idle),
        matches!(port.drive(board, 9, &mut flicks), Driven::Idle),
        port.fail().is_ok(),
        matches!(port.drive(board, 99, &mut flicks), Driven::Down),
        matches!(port.drive(board, 0, &mut flicks), Driven::Down),
    ]
}

/// A port that is idle makes no step and says so, with turns and without; and so does one that is down.
fn makes_no_step(rt: &impl Abort, board: &Board, port: &mut Port)
    requires { IsOf board.now port.old }
{
    let [idle, idle_with_turns, fails, down_with_turns, down] = says_so(board, port);
    assert!(rt; idle);
    assert!(rt; idle_with_turns);
    assert!(rt; fails);
    assert!(rt; down_with_turns);
    assert!(rt; down);
}

#[test]
fn ports_at_rest_make_no_step(rt: HostRuntime) -> Result<(), AllocError> {
    let (board, mut ports) = Board::new(rt.alloc(), &Setup::one(1, 2, 2, 1))?;
    let Some(port) = ports.get_mut(0) else {
        panic!(rt; "there is no port");
    };
    makes_no_step(&rt, &board, port);
    Ok(())
}
