//! Gates that a race on one thread does not pass, and one that asks for patience.
use crate::plans::{add, answer, is_no_name_or_full, race_of_two, raced};
use plain_store::{Answer, NestedTypes, Setup};
use race::{Gate, Moment, Pass, RaceFault, race};
use std::alloc::Global;
use std::process::Abort;
use std::sync::Wait;
use std::sync::atomic::Ordering::SeqCst;
use std::sync::atomic::{AtomicBool, AtomicU32};
use std::test::Fail;
use std::thread::Threads;

/// Whether the flag is seen, in so many looks at most.
fn sees(flag: &AtomicBool, looks: u32) -> bool {
    for _ in 0..looks {
        if flag.load(SeqCst) {
            return true;
        }
    }
    false
}

/// On, if the flag is seen in a hundred looks.
fn on_if(flag: &AtomicBool) -> Pass {
    if sees(flag, 100) {
        Pass::On
    } else {
        Pass::Again
    }
}

/// Holds a port inside until another one was seen at its begin.
#[derive(Drop)]
struct UntilBegun {
    held: u8,
    begun: AtomicBool,
}

impl Gate for UntilBegun {
    fn at(&self, port: u8, moment: Moment) -> Pass {
        if port == self.held {
            return match moment {
                Moment::Begun => Pass::On,
                Moment::Inside => on_if(&self.begun),
            };
        }
        self.begun.store(true, SeqCst);
        Pass::On
    }
}

/// Two ports meet: each, at its begin, looks for the other.
#[derive(Drop)]
struct Meeting {
    came: [AtomicBool; 2],
    found: [AtomicBool; 2],
}

impl Gate for Meeting {
    fn at(&self, port: u8, moment: Moment) -> Pass {
        if moment == Moment::Inside || port > 1 {
            return Pass::On;
        }
        let (own, other) = if port == 0 { (0, 1) } else { (1, 0) };
        self.came[own].store(true, SeqCst);
        self.found[own].store(sees(&self.came[other], 100_000_000), SeqCst);
        Pass::On
    }
}

/// Port 1 begins once port 0 is inside, and port 0 goes on once port 1, let on, has begun again.
#[derive(Drop)]
struct Passing {
    inside: AtomicBool,
    let_on: AtomicBool,
    begun_again: AtomicBool,
}

impl Gate for Passing {
    fn at(&self, port: u8, moment: Moment) -> Pass {
        match (port, moment) {
            (0, Moment::Inside) => {
                self.inside.store(true, SeqCst);
                on_if(&self.begun_again)
            }
            (1, Moment::Begun) => {
                if self.let_on.load(SeqCst) {
                    self.begun_again.store(true, SeqCst);
                    return Pass::On;
                }
                let pass = on_if(&self.inside);
                self.let_on.store(pass == Pass::On, SeqCst);
                pass
            }
            _ => Pass::On,
        }
    }
}

/// Holds port 0 inside for good. Port 1 begins once port 0 is there, and is seen where it comes inside.
#[derive(Drop)]
struct Keeping {
    kept: AtomicBool,
    followed: AtomicBool,
}

impl Gate for Keeping {
    fn at(&self, port: u8, moment: Moment) -> Pass {
        match (port, moment) {
            (0, Moment::Inside) => {
                self.kept.store(true, SeqCst);
                Pass::Again
            }
            (1, Moment::Begun) => on_if(&self.kept),
            (1, Moment::Inside) => {
                self.followed.store(true, SeqCst);
                Pass::On
            }
            _ => Pass::On,
        }
    }
}

/// Answers `Again` so often, and then `On`.
#[derive(Drop)]
struct Patient {
    asked: AtomicU32,
    refused: u32,
}

impl Gate for Patient {
    fn at(&self, _port: u8, _moment: Moment) -> Pass {
        if self.asked.fetch_add(1, SeqCst) < self.refused {
            Pass::Again
        } else {
            Pass::On
        }
    }
}

/// Two ports add once each, and the gate holds this one inside until the other has begun: whether each is answered.
fn are_answered(
    rt: &(impl Threads + Wait + Abort + Sync),
    alloc: Global,
    held: u8,
) -> Result<[bool; 2], Fail> {
    let adds = [add()];
    let gate = UntilBegun {
        held,
        begun: AtomicBool::new(false),
    };
    let closing = raced(rt, alloc, 4, [&adds, &adds], &gate)?;
    let first = is_no_name_or_full(answer(&closing, 0, 0));
    let second = is_no_name_or_full(answer(&closing, 1, 0));
    Ok([first, second])
}

#[test]
fn one_waits_inside_for_the_other_to_begin(rt: HostRuntime) -> Result<(), Fail> {
    for held in [0, 1] {
        let [first, second] = are_answered(&rt, rt.alloc(), held)?;
        assert!(&rt; first);
        assert!(&rt; second);
    }
    Ok(())
}

// Within one ask each looks for the other, so that no body that serves the ports in turns lets them meet.
#[test]
fn two_ports_meet(rt: HostRuntime) -> Result<(), Fail> {
    let adds = [add()];
    let gate = Meeting {
        came: [AtomicBool::new(false), AtomicBool::new(false)],
        found: [AtomicBool::new(false), AtomicBool::new(false)],
    };
    raced(&rt, rt.alloc(), 4, [&adds, &adds], &gate)?;
    assert!(&rt; gate.found[0].load(SeqCst) && gate.found[1].load(SeqCst));
    Ok(())
}

// One ticket bit: while port 0 is inside, port 1 finds the tickets full, and calls again.
#[test]
fn one_passes_a_full_door_while_the_other_is_inside(rt: HostRuntime) -> Result<(), Fail> {
    let (one, two) = ([add()], [add(), add()]);
    let gate = Passing {
        inside: AtomicBool::new(false),
        let_on: AtomicBool::new(false),
        begun_again: AtomicBool::new(false),
    };
    let closing = raced(&rt, rt.alloc(), 1, [&one, &two], &gate)?;
    assert!(&rt;
        matches!(
            answer(&closing, 1, 0),
            Some(Answer::TicketsFull { process: 0 })
        )
    );
    Ok(())
}

/// A race of one process, which adds once: whether it comes to its end, and how often its gate was asked that refuses so often.
fn asked(
    rt: &(impl Threads + Wait + Sync),
    alloc: Global,
    refused: u32,
) -> Result<(Option<RaceFault>, u32), Fail> {
    let _nested: NestedTypes = None;
    let setup = Setup::one(1, 4, 4, 1);
    let plans = [vec![in alloc; add()]?];
    let gate = Patient {
        asked: AtomicU32::new(0),
        refused,
    };
    let fault = race(rt, alloc, &setup, &plans, &gate).err();
    Ok((fault, gate.asked.load(SeqCst)))
}

// The gate is asked once more when the port is inside.
#[test]
fn a_gate_is_asked_ten_million_times(rt: HostRuntime) -> Result<(), Fail> {
    let (fault, times) = asked(&rt, rt.alloc(), 9_999_999)?;
    assert!(&rt; fault.is_none() && times == 10_000_001, "{fault:?}");
    let (fault, times) = asked(&rt, rt.alloc(), u32::MAX)?;
    assert!(&rt; matches!(fault, Some(RaceFault::Held(0))), "{fault:?}");
    assert!(&rt; times == 10_000_000);
    Ok(())
}

// A port that is held inside fails and is driven down, so that the other one comes inside. With a body that keeps the section the
// other one waits at the door, and the race has no end.
#[test]
fn a_port_held_inside_lets_the_other_in(rt: HostRuntime) -> Result<(), Fail> {
    let adds = [add()];
    let gate = Keeping {
        kept: AtomicBool::new(false),
        followed: AtomicBool::new(false),
    };
    let fault = race_of_two(&rt, rt.alloc(), 4, [&adds, &adds], &gate)?.err();
    assert!(&rt; matches!(fault, Some(RaceFault::Held(0))), "{fault:?}");
    assert!(&rt; gate.followed.load(SeqCst), "{fault:?}");
    Ok(())
}

// Both ports are held for good: the race reports the lower one.
#[test]
fn the_lowest_held_port_is_reported(rt: HostRuntime) -> Result<(), Fail> {
    let adds = [add()];
    let gate = Patient {
        asked: AtomicU32::new(0),
        refused: u32::MAX,
    };
    let Err(fault) = race_of_two(&rt, rt.alloc(), 4, [&adds, &adds], &gate)? else {
        panic!(&rt; "both ports are held");
    };
    assert!(&rt;
        format!(in rt.alloc(); "{fault}")?.as_str() == "held 0",
        "{fault:?}"
    );
    Ok(())
}
