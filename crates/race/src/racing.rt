//! Races: a thread for each port.
ghost use Rattle.std.specs.Prelude.{◌≡◌, ◌≤◌, IfErr, IfOk, IfSome, Ok, length, vec_len};
ghost use Rattle.board.specs.{IsOf, new_own};
ghost use Rattle.plain_store.specs.{checked};
ghost use Rattle.call_check.specs.{AreShort};
ghost use Rattle.race.specs.Faults.{IsFaultAmong, IsFaultOf};
ghost use Rattle.race.specs.Races.{AllMadeFor, AreNew, EachAt, EachPair, HasKept, HasMade, HasRoom, IsRacedBy, MakesFor, SomeAt, plans_of};

use crate::faults::RaceFault;
use crate::gates::Gate;
use crate::workers::Worker;
use board::{Board, Closing, Port};
use plain_store::{Command, Setup};
use std::alloc::Global;
use std::snapshot::Snapshot;
use std::sync::Wait;
use std::thread::{self, Promise, PromisedHandle, Scope, Threads};

/// The promise of a thread: the port of this process makes this plan, on this board; or this port was held, or an
/// allocation failed.
#[derive(Drop)]
struct PlanPromise {
    board: Snapshot<Board>,
    plan: Snapshot<Vec<Command>>,
    number: u8,
}

impl Promise<Result<Port, RaceFault>> for PlanPromise {
    ghost kept_by = { λ p r. IfOk r (HasMade p.board.value p.number p.plan.value.items) × IfErr r (IsFaultOf p.number) };
}

/// A thread of a race.
type Thread = PromisedHandle<Result<Port, RaceFault>, PlanPromise>;

/// Runs the plans, list p by process p, each on a thread of its own, and closes the board. A port asks the gate after each
/// call that was accepted, and each time that it comes inside.
///
/// # Errors
///
/// Returns the first in order of the faults that occurred: [`RaceFault::Spawn`] if a thread could not be started,
/// [`RaceFault::Held`] if the gate held a port, [`RaceFault::Memory`] if an allocation failed.
pub fn race<R: Threads + Wait + Sync, G: Gate + Sync>(
    rt: &R,
    alloc: Global,
    setup: &Setup,
    plans: &[Vec<Command>],
    gate: &G,
) -> Result<Closing, RaceFault>
    requires good { checked setup.now ≡ Ok tt }
    requires all { length plans.now ≡ setup.now.processes }
    requires few_calls { setup.now.version ≡ 2 → AreShort (plans_of plans.now) }
    ensures raced { IfOk result (IsRacedBy setup.now plans.now) }
    ensures fault { IfErr result (IsFaultAmong (length plans.now)) }
{
    let (board, ports) = Board::new(alloc, setup)?;
    let ports = run_all(rt, alloc, &board, ports, plans, gate)?;
    match board.close(ports) {
        Ok(closing) => Ok(closing),
        Err(_) => unreachable!(),
    }
}

/// Runs the ports of all plans, each on a thread of its own, and returns them in order. A fault is returned once all
/// threads have ended.
fn run_all<R: Threads + Wait + Sync, G: Gate + Sync>(
    rt: &R,
    alloc: Global,
    board: &Board,
    ports: Vec<Port>,
    plans: &[Vec<Command>],
    gate: &G,
) -> Result<Vec<Port>, RaceFault>
    requires all { (length ports.items ≡ length plans.now) × (length ports.items ≤ 16) }
    requires new { AreNew board.now ports.items }
    ensures made { IfOk result (λ made. AllMadeFor board.now plans.now made.items) }
    ensures fault { IfErr result (IsFaultAmong (length plans.now)) }
{
    let threads: Vec<Thread> = Vec::with_capacity(alloc, ports.len())?;
    let made: Vec<Port> = Vec::with_capacity(alloc, ports.len())?;
    thread::scope(
        thread::scope_env(),
        rt,
        move |scope| -> Result<Vec<Port>, RaceFault>
            requires all { (length ports.items ≡ length plans.now) × (length ports.items ≤ 16) }
            requires new { AreNew board.now ports.items }
            requires threads { HasRoom threads (vec_len ports) }
            requires made { HasRoom made (vec_len ports) }
            ensures made { IfOk result (λ v. AllMadeFor board.entry.now plans.entry.now v.items) }
            ensures fault { IfErr result (IsFaultAmong (length plans.entry.now)) }
        { run_in(rt, scope, board, gate, ports, plans, threads, made) },
    )
}

/// Runs the ports in a scope, with room for the threads and for the ports that they return.
fn run_in<'s, E, R: Threads + Wait + Sync, G: Gate + Sync>(
    rt: &'s R,
    scope: &Scope<'s, E>,
    board: &'s Board,
    gate: &'s G,
    ports: Vec<Port>,
    plans: &'s [Vec<Command>],
    threads: Vec<Thread>,
    made: Vec<Port>,
) -> Result<Vec<Port>, RaceFault>
    requires all { (length ports.items ≡ length plans.now) × (length ports.items ≤ 16) }
    requires new { AreNew board.now ports.items }
    requires threads { HasRoom threads (vec_len ports) }
    requires made { HasRoom made (vec_len ports) }
    ensures made { IfOk result (λ v. AllMadeFor board.now plans.now v.items) }
    ensures fault { IfErr result (IsFaultAmong (length plans.now)) }
{
    let threads = start_all(rt, scope, board, gate, ports, plans, threads);
    let all = threads.len() == plans.len();
    let made = join_all(rt, threads, made);
    if all { made } else { Err(RaceFault::Spawn) }
}

/// Starts a thread for each port, until one cannot be started.
fn start_all<'s, E, R: Threads + Wait + Sync, G: Gate + Sync>(
    rt: &'s R,
    scope: &Scope<'s, E>,
    board: &'s Board,
    gate: &'s G,
    ports: Vec<Port>,
    plans: &'s [Vec<Command>],
    mut threads: Vec<Thread>,
) -> Vec<Thread>
    requires all { (length ports.items ≡ length plans.now) × (length ports.items ≤ 16) }
    requires new { AreNew board.now ports.items }
    requires room { HasRoom threads (vec_len ports) }
    ensures bounded { vec_len result ≤ length plans.now }
    ensures each { EachAt result.items (λ k thread. MakesFor board.now plans.now k thread.promise) }
{
    for (number, port) in ports.into_iter().enumerate() {
        match start(rt, scope, board, gate, number as u8, port, &plans[number]) {
            Some(thread) => threads.push_reserved(thread),
            None => return threads,
        }
    }
    threads
}

/// Starts the thread of one port. If it cannot be started, the port is dropped.
fn start<'s, E, R: Threads + Wait + Sync, G: Gate + Sync>(
    rt: &'s R,
    scope: &Scope<'s, E>,
    board: &'s Board,
    gate: &'s G,
    number: u8,
    port: Port,
    plan: &'s Vec<Command>,
) -> Option<Thread>
    requires of_board { IsOf board.now port }
    requires new { port.view.own ≡ new_own number }
    ensures board { IfSome result (λ thread. thread.promise.board.value ≡ board.now) }
    ensures number { IfSome result (λ thread. thread.promise.number ≡ number) }
    ensures plan { IfSome result (λ thread. thread.promise.plan.value ≡ plan.now) }
{
    let making = PlanPromise {
        board: Snapshot::of(board),
        plan: Snapshot::of(plan),
        number,
    };
    scope
        .spawn_with(
            making,
            move || -> Result<Port, RaceFault>
                requires { IsOf board.now port × (port.view.own ≡ new_own number) }
                ensures made { IfOk result (HasMade board.entry.now number plan.entry.now.items) }
                ensures fault { IfErr result (IsFaultOf number) }
            { work(rt, board, gate, number, port, plan.as_slice()) },
        )
        .ok()
}

/// Makes the calls of a plan, on the thread of its port.
fn work<R: Wait, G: Gate>(
    rt: &R,
    board: &Board,
    gate: &G,
    number: u8,
    port: Port,
    plan: &[Command],
) -> Result<Port, RaceFault>
    requires board { IsOf board.now port }
    requires new { port.view.own ≡ new_own number }
    ensures made { IfOk result (HasMade board.now number plan.now) }
    ensures fault { IfErr result (IsFaultOf number) }
{
    let worker = Worker {
        board,
        gate,
        number,
    };
    let made = worker.run(rt, port, plan);
    drop(worker);
    made
}

/// Waits for all threads and returns their ports, or the first fault in order if threads found any.
fn join_all<R: Threads>(
    rt: &R,
    threads: Vec<Thread>,
    mut ports: Vec<Port>,
) -> Result<Vec<Port>, RaceFault>
    requires room { HasRoom ports (vec_len threads) }
    ensures all { IfOk result (λ v. vec_len v ≡ vec_len threads) }
    ensures each { IfOk result (λ v. EachPair threads.items v.items (λ t. HasKept t.promise)) }
    ensures fault { IfErr result (λ e. SomeAt threads.items (λ t. IsFaultOf t.promise.number e)) }
{
    let mut fault = None;
    for thread in threads {
        match thread.join(rt) {
            Ok(port) => ports.push_reserved(port),
            Err(found) => fault = Some(found.or_lower(fault)),
        }
    }
    match fault {
        None => Ok(ports),
        Some(fault) => Err(fault),
    }
}
