//! The plans of a race: the commands of each process.
ghost use Rattle.std.specs.Prelude.{◌≡◌, ◌++◌, IfOk, OnOk};
ghost use Rattle.scenario.specs.{script};
ghost use Rattle.race.specs.Races.{plans_of as plans_listed};
ghost use Rattle.race.specs.Texts.{called_of, plan_in, plans_in};

use plain_store::{Command, NestedTypes};
use scenario::{Line, Scenario};
use std::alloc::{AllocError, Global};

/// Returns the commands of the `call` lines of each process, in order. Other lines are passed over.
///
/// # Errors
///
/// Returns [`AllocError`] if memory runs out.
pub fn plans_of(alloc: Global, scenario: &Scenario) -> Result<Vec<Vec<Command>>, AllocError>
    ensures { IfOk result (λ plans. plans_listed plans.items ≡ plans_in (script scenario.now)) }
{
    let mut plans = Vec::new(alloc);
    for process in 0..scenario.setup.processes {
        let plan = plan_of(alloc, scenario.lines.as_slice(), process)?;
        plans.push(plan)?;
    }
    Ok(plans)
}

/// Returns the plan of one process.
fn plan_of(alloc: Global, lines: &[Line], process: u8) -> Result<Vec<Command>, AllocError>
    ensures { IfOk result (λ plan. plan.items ≡ plan_in lines.now process) }
{
    let mut plan = Vec::new(alloc);
    for line in lines {
        keep_call(line, process, &mut plan)?;
    }
    Ok(plan)
}

/// Adds the command of a line, if the line is a call of this process.
fn keep_call(line: &Line, process: u8, plan: &mut Vec<Command>) -> Result<(), AllocError>
    ensures { OnOk result (plan.new.items ≡ plan.old.items ++ called_of process line.now) }
{
    let _nested: NestedTypes = None;
    if let Line::Call(caller, command) = line {
        if *caller == process {
            plan.push(*command)?;
        }
    }
    Ok(())
}
