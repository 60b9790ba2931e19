//! Driving a port.
ghost use Rattle.board.specs.Boards.{IsOf};
ghost use Rattle.board.specs.Ports.{SamePort};

use crate::board::Board;
use crate::port::Port;
use model::Stage;
use plain_store::Answer;
use process::{Flicks, StepOutcome};

/// The result of driving a port.
#[derive(Clone, Copy)]
pub enum Driven {
    /// The last word step finished the call, with this answer.
    Answered(Answer),
    /// All turns were made, and the process has a next access.
    Turns,
    /// The process is down.
    Down,
    /// The process has no call.
    Idle,
}

impl Port {
    ghost use Rattle.board.specs.Driving.{DrivesPort};

    /// Makes word steps, at most `turns` of them, until one finishes the call or brings the process down. Makes none if
    /// the process is idle or down. Each step takes one flick.
    pub fn drive(&mut self, board: &Board, turns: u64, flicks: &mut Flicks) -> Driven
        requires { IsOf board.now self.old }
        ensures same { SamePort self.old self.new }
        ensures drives { DrivesPort self.old turns flicks.old result self.new flicks.new }
    {
        match self.stage() {
            Stage::Idle => return Driven::Idle,
            Stage::Down => return Driven::Down,
            _ => {}
        }
        for made in 0..turns {
            let flick = flicks.flick();
            match self.turn(board, flick) {
                StepOutcome::Answers(answer) => return Driven::Answered(answer),
                StepOutcome::Lies => return Driven::Down,
                _ => {}
            }
        }
        Driven::Turns
    }
}
