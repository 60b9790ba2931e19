//! Scenarios that were not read from a file.
ghost use Rattle.std.specs.Prelude.{◌≡◌, ◌≤◌, true, length, IfOk, Ok};
ghost use Rattle.std.specs.List.{list_all};
ghost use Rattle.plain_store.specs.{checked};
ghost use Rattle.scenario.specs.LineNumbers.{numbers_from, printed_numbers};
ghost use Rattle.scenario.specs.Reads.{script};
ghost use Rattle.scenario.specs.Statements.{is_line_of};

use crate::lines::Line;
use crate::scenarios::Scenario;
use plain_store::Setup;
use std::alloc::{AllocError, Global};

/// One more than the number of lines that a printed scenario has before its opening pairs.
const FIRST: u16 = 6;

impl Scenario {
    /// Creates a scenario of this setup and these lines. Each line has the number that it has where the scenario is printed.
    ///
    /// # Errors
    ///
    /// Returns `AllocError` if the numbers cannot be allocated.
    pub fn new(alloc: Global, setup: Setup, lines: Vec<Line>) -> Result<Scenario, AllocError>
        requires good { checked setup ≡ Ok tt }
        requires bounded { length lines.items ≤ 4000 }
        requires allowed { list_all (is_line_of setup.version) lines.items ≡ true }
        ensures said { IfOk result (λ s.
            script s ≡ record { setup = setup; lines = lines.items }) }
        ensures numbers { IfOk result (λ s. s.numbers.items ≡ printed_numbers (script s)) }
    {
        let first = setup.opening.len() as u16 + FIRST;
        let numbers = count_from(alloc, first, lines.len())?;
        Ok(Scenario {
            setup,
            lines,
            numbers,
        })
    }
}

/// Returns `count` numbers, one after the other, from `first` on.
fn count_from(alloc: Global, first: u16, count: usize) -> Result<Vec<u16>, AllocError>
    requires low { first ≤ 14 }
    requires bounded { count ≤ 4000 }
    ensures items { IfOk result (λ numbers. numbers.items ≡ numbers_from first count) }
    ensures many { IfOk result (λ numbers. length numbers.items ≡ count) }
{
    let mut numbers = Vec::new(alloc);
    for number in first..first + count as u16 {
        numbers.push(number)?;
    }
    Ok(numbers)
}
