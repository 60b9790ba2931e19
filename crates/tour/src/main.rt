//! A tour of the library. It begins with a world made by hand: two processes call, one fails in the middle of its change, and
//! looks up afterwards what became of it. A board follows, whose ports call on threads. docs/LIBRARY.md leads through it.
#![tactic(auto)]

ghost use Rattle.std.specs.Prelude.{◌≡◌, ℕ, IfOk, IsTrue, List, Ok, OnOk, Some};
ghost use Rattle.board.specs.{AreFirstPortsOf, IsOf, SamePort};
ghost use Rattle.plain_store.specs.{checked};
ghost use Rattle.model.specs.declared.Event.{Event as Happening};
ghost use Rattle.model.specs.declared.Stage.TheVariants.{Inside};
ghost use Rattle.model.specs.{inside, past_of, process_of};
ghost use Rattle.world.specs.{KeepsTheMainTheorem, stage_in};
ghost use Rattle.world.specs.Shows.{Shows};

use anyhow::{Result, bail};
use board::{Board, Driven, Image, Port};
use model::Field;
use plain_store::{Command, Name, Setup, Value, show_line};
use std::sync::Wait;
use std::thread::{self, Threads};
use world::{Act, Event, Flicks, Stage, World};

/// Runs both parts, each with two processes and the counter `a` at 5.
fn main(rt: HostRuntime) -> Result<()> {
    let counter = Name::new(b"a")?;
    let mut setup = Setup::one(2, 2, 2, 1);
    setup.version = 2;
    setup.opening.add(counter, Value::Count(5))?;
    setup.check()?;
    by_hand(&rt, &setup, counter)?;
    on_threads(&rt, &setup, counter)
}

/// Runs the first part: process 0 fails within its change, and looks up what became of it.
fn by_hand(rt: &HostRuntime, setup: &Setup, counter: Name) -> Result<()>
    requires { checked setup.now ≡ Ok tt }
{
    let mut world = World::new(rt.alloc(), setup)?;
    fail_and_look_up(rt, &mut world, counter)?;
    match world.newest() {
        Some(store) => show(rt, &store),
        None => Ok(()),
    }
}

/// Prints a store.
fn show<T: Print + AllocGlobal>(rt: &T, store: &Image) -> Result<()> {
    print!(rt; "{}", show_line(rt.alloc(), store)?)?;
    Ok(())
}

/// Makes both processes call, and process 0 fail within the write of its commit bit. Its memory unit settles that bit at 1, so
/// the change is taken. The command `ask` reports this once process 0 has restarted.
fn fail_and_look_up<T: Print>(rt: &T, world: &mut World, counter: Name) -> Result<()> {
    make(rt, world, Event::Call(0, Command::Add(counter, 1)))?;
    make(rt, world, Event::Call(1, Command::Add(counter, 10)))?;
    go(rt, world, 0, false, Stage::Inside)?;
    begin_commit(rt, world, 0)?;
    make(rt, world, Event::Fail(0))?;
    go(rt, world, 0, true, Stage::Down)?;
    go(rt, world, 1, false, Stage::Idle)?;
    make(rt, world, Event::Restart(0))?;
    make(rt, world, Event::Call(0, Command::Ask))?;
    go(rt, world, 0, false, Stage::Idle)
}

/// Makes an event, and prints its marks. The main theorem holds of its entry.
fn make<T: Print>(rt: &T, world: &mut World, event: Event) -> Result<Act>
    ensures main_theorem { IfOk result
        (λ act. KeepsTheMainTheorem world.old (process_of event) act) }
{
    let Ok(act) = world.event(event) else {
        bail!("an event is refused");
    };
    for mark in &act.marks {
        println!(rt; "{} {mark}", event.process())?;
    }
    Ok(act)
}

/// Makes steps of a process up to this stage. If it is then inside, no other process is: the main theorem's first sentence.
fn go<T: Print>(rt: &T, world: &mut World, process: u8, flick: bool, stage: Stage) -> Result<()>
    ensures alone { OnOk result
        ((events : List Happening) → Shows world.new events →
        stage_in world.new.setup (past_of world.new.setup events) process ≡ Some Inside →
        (other : ℕ) → IsTrue (inside other (past_of world.new.setup events)) → other ≡ process) }
{
    for _ in 0..u16::MAX {
        if matches!(world.stage(process), Some(now) if now == stage) {
            world::history_laws::main_theorem();
            return Ok(());
        }
        make(rt, world, Event::Step(process, flick))?;
    }
    bail!("process {process} does not come there")
}

/// Makes steps of a process until it has begun to write its commit bit.
fn begin_commit<T: Print>(rt: &T, world: &mut World, process: u8) -> Result<()> {
    for _ in 0..u16::MAX {
        let act = make(rt, world, Event::Step(process, false))?;
        if let Some(access) = act.access {
            if access.field == Field::Commit && access.how.is_begin_of_write() {
                return Ok(());
            }
        }
    }
    bail!("process {process} does not come to its commit bit")
}

/// Makes the two calls of the first part by ports of a board.
#[tactic(auto, using(board::proofs::Orders::all_are_made, board::proofs::Orders::first_are_made))]
fn on_threads<T: Print + AllocGlobal + Threads + Wait + Sync>(
    rt: &T,
    setup: &Setup,
    counter: Name,
) -> Result<()>
    requires { checked setup.now ≡ Ok tt }
{
    let (board, mut ports) = Board::new(rt.alloc(), setup)?;
    let calls = [Command::Add(counter, 1), Command::Add(counter, 10)];
    call_all(rt, &board, &mut ports, &calls);
    match board.close(ports) {
        Ok(closing) => show(rt, &closing.image),
        Err(_open) => bail!("a call is not answered"),
    }
}

/// Makes the call of each port, on a thread of its own.
#[tactic(auto, using(board_runs::proofs::PortsThen::is_of, board_runs::proofs::PortsThen::are_then))]
fn call_all<R: Threads + Wait + Sync>(
    rt: &R,
    board: &Board,
    ports: &mut Vec<Port>,
    calls: &[Command],
)
    requires { AreFirstPortsOf board.now ports.old.items }
    ensures { AreFirstPortsOf board.now ports.new.items }
{
    thread::for_each_mut(
        rt,
        ports.as_mut_slice(),
        2,
        &|place: usize, port: &mut Port|
            requires { IsOf board.now port.old }
            ensures { SamePort port.old port.new }
        {
            if let Some(command) = calls.get(place) {
                call(rt, board, port, *command);
            }
        },
    );
}

/// Begins a call of a port, and drives the port until the call is answered.
fn call<R: Wait>(rt: &R, board: &Board, port: &mut Port, command: Command)
    requires { IsOf board.now port.old }
    ensures { SamePort port.old port.new }
{
    let mut flicks = Flicks::constant(false);
    if port.begin(board, command).is_ok() {
        for _ in rt.forever() {
            match port.drive(board, 256, &mut flicks) {
                Driven::Turns => thread::yield_now(),
                _ => return,
            }
        }
    }
}
