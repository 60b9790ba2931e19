//! What a port does at a line of a scenario.
ghost use Rattle.board.specs.{IsOf, SamePort};

use board::{Board, Driven, Port};
use choices::Flicks;
use model::{Refusal, Stage};
use plain_store::{Command, NestedTypes};
use scenario::{Flick, Line, Target};

/// More turns than any call takes, however long it waits.
const ALL: u64 = 1 << 40;

/// The process of a line, if it has one.
pub fn process_of(line: &Line) -> Option<u8> {
    let _nested: NestedTypes = None;
    match line {
        Line::Call(process, _)
        | Line::Step(process, _)
        | Line::Go(process, _)
        | Line::Fail(process)
        | Line::Withdraw(process)
        | Line::Restart(process) => Some(*process),
        Line::Flick(_) | Line::Wander(_) | Line::Show => None,
    }
}

/// Where flicks come from behind a line: the generator's seed is the line's, and so much more.
pub fn set_flicks(flicks: &mut Flicks, line: &Line, more: u64) {
    let _nested: NestedTypes = None;
    if let Line::Flick(flick) = line {
        *flicks = match flick {
            Flick::Zero => Flicks::constant(false),
            Flick::One => Flicks::constant(true),
            Flick::Pcg(seed) => Flicks::pcg(seed.wrapping_add(more)),
        };
    }
}

/// Carries out a line of a port's process; a refused one changes nothing. Returns the value of the last [`Port::drive`] that the
/// line calls, or `None` if it calls none.
///
/// `step P N` calls it once, with N turns. `go P TARGET` calls it with one turn for each step up to the target.
pub fn carry_out(board: &Board, port: &mut Port, line: &Line, flicks: &mut Flicks) -> Option<Driven>
    requires { IsOf board.now port.old }
    ensures { SamePort port.old port.new }
{
    let _nested: NestedTypes = None;
    match line {
        Line::Call(_, command) => {
            let _begun: Result<(), Refusal> = begin(board, port, command);
            None
        }
        Line::Step(_, turns) => Some(port.drive(board, u64::from(*turns), flicks)),
        Line::Go(_, target) => go(board, port, *target, flicks),
        _ => {
            change(port, line);
            None
        }
    }
}

/// Begins a call, and tries once more after an allocation failure.
///
/// # Errors
///
/// Returns the [`Refusal`] of the last try. The port is then unchanged.
pub fn begin(board: &Board, port: &mut Port, command: &Command) -> Result<(), Refusal>
    requires { IsOf board.now port.old }
    ensures { SamePort port.old port.new }
{
    match port.begin(board, *command) {
        Err(Refusal::Memory) => port.begin(board, *command),
        begun => begun,
    }
}

/// A failure, a restart, or the end of a wait.
fn change(port: &mut Port, line: &Line)
    ensures { SamePort port.old port.new }
{
    let _nested: NestedTypes = None;
    let _changed: Result<(), Refusal> = match line {
        Line::Fail(_) => port.fail(),
        Line::Withdraw(_) => port.withdraw(),
        Line::Restart(_) => port.restart(),
        _ => Ok(()),
    };
}

/// Makes turns until the process is past its doorway, past its waiting, or idle or down. Returns the value of the last turn.
fn go(board: &Board, port: &mut Port, target: Target, flicks: &mut Flicks) -> Option<Driven>
    requires { IsOf board.now port.old }
    ensures { SamePort port.old port.new }
{
    let mut last = None;
    for _ in 0..ALL {
        if is_past(port.stage(), target) {
            return last;
        }
        last = Some(port.drive(board, 1, flicks));
    }
    last
}

/// Whether a stage is one at which a process stops that goes to a target.
fn is_past(stage: Stage, target: Target) -> bool {
    match stage {
        Stage::Idle | Stage::Down => true,
        Stage::Doorway | Stage::Settling => false,
        Stage::Waiting => target == Target::Wait,
        _ => target == Target::Wait || target == Target::Inside,
    }
}
