//! Scenarios.
ghost use Rattle.std.specs.Prelude.{◌≡◌, ◌≤◌, true, length, Ok};
ghost use Rattle.std.specs.List.{list_all};
ghost use Rattle.std.proofs.Props.{props};
ghost use Rattle.plain_store.specs.{checked};
ghost use Rattle.scenario.specs.Statements.{is_line_of};

use crate::lines::Line;
use plain_store::Setup;

/// The value of a scenario file: the setup of the world, and the lines after the headings and opening pairs.
/// The setup is good, there are at most 4,000 lines, and the setup's version has each of them: no `Step` or
/// `Wander` is above 100,000, and only version 2 has `Ask`.
///
/// Each line has the number of its line in the file that was read. Two scenarios are equal if their setups and lines are equal;
/// then [`print_scenario`](crate::print_scenario) writes the same text for them: neither depends on the numbers.
#[derive(Drop)]
pub struct Scenario {
    pub setup: Setup,
    pub lines: Vec<Line>,
    /// The number of each line in the file, which is counted from 1.
    pub numbers: Vec<u16>,
    pub ghost good: { checked setup ≡ Ok tt } by { Prim.hlevel props },
    pub ghost few: { length lines.items ≤ 4000 },
    pub ghost numbered: { length numbers.items ≡ length lines.items },
    pub ghost allowed: { list_all (is_line_of setup.version) lines.items ≡ true },
}
