//! The commands that run a file, in one table.
ghost use Rattle.std.specs.Prelude.{◌≡◌, find, map, option_map};
ghost use Rattle.std.specs.Str.{bytes_eq};
ghost use Rattle.command_line.specs.Meaning.{command_named, commands, listed, says};

use crate::command_pages::page_of;
use std::fmt::{self, Display, Formatter};

/// The engine that runs a file.
#[derive(Clone, Copy, PartialEq, Eq)]
pub enum Engine {
    /// It makes the calls of a scenario on the sequential store.
    Plain,
    /// It makes the calls of a bits file on one safe bit.
    Bits,
    /// It prints the run of a scenario, mark by mark.
    Replay,
    /// It prints the verdict on the record of a scenario's run.
    Audit,
    /// It counts the runs in which a process fails after one event of a scenario's run.
    Sweep,
    /// It makes the calls of each process of a scenario on a thread of its own, and weighs them.
    Race,
    /// It prints the record of a scenario's run, entry by entry.
    Record,
    /// It prints the state after the first events of a scenario's run, or after the first entries of a record.
    State,
    /// It prints a table of the calls of a scenario's run, of a record or of a trace.
    Calls,
    /// It prints the verdict on a record or a trace.
    Judge,
    /// It draws a run, a record or a trace as a page, from which the lines can be read back.
    Draw,
    /// It draws the same as one picture.
    DrawSvg,
}

/// How an engine reads its file.
#[derive(Clone, Copy, PartialEq, Eq)]
pub enum InputMode {
    /// It reads the whole file before it runs it.
    Whole,
    /// It runs the file while it reads it, so the input shows the progress.
    Streamed,
}

/// A command that runs a file.
#[derive(Clone, Copy)]
pub struct CommandEntry {
    /// Its name.
    pub name: &'static str,
    /// The engine that runs the file.
    pub engine: Engine,
    /// How that engine reads the file.
    pub intake: InputMode,
    /// Its options, in addition to `--quiet` and `--explain`, which all commands have. `at`, `from` and `to`
    /// have a value.
    pub options: &'static [&'static str],
    /// The effect of the command, in a line of the general page.
    pub about: &'static str,
    /// The file of its example on that page.
    pub example: &'static str,
    /// Its own page, below the usage line.
    pub page: &'static str,
}

/// A row of the table: the fields of a `CommandEntry` except its page, one by one. (A definition reads no constant of a struct
/// with texts.)
pub type CommandRow = (
    &'static str,
    Engine,
    InputMode,
    &'static [&'static str],
    &'static str,
    &'static str,
);

/// The commands, in the order in which the general page lists them. Arguments, pages and the program learn of commands
/// from this table and from the pages alone.
pub const COMMANDS: [(&str, Engine, InputMode, &[&str], &str, &str); 12] = [
    (
        "plain",
        Engine::Plain,
        InputMode::Whole,
        &[],
        "runs the calls of a scenario on the sequential store",
        "examples/counters.bakery",
    ),
    (
        "bits",
        Engine::Bits,
        InputMode::Whole,
        &[],
        "makes the accesses of a bits file to one safe bit",
        "examples/overlap.bits",
    ),
    (
        "replay",
        Engine::Replay,
        InputMode::Whole,
        &[],
        "runs a scenario: calls, single steps, failures, restarts",
        "examples/torn-commit.bakery",
    ),
    (
        "audit",
        Engine::Audit,
        InputMode::Whole,
        &[],
        "runs a scenario and judges each entry of its record",
        "examples/torn-commit.bakery",
    ),
    (
        "sweep",
        Engine::Sweep,
        InputMode::Whole,
        &[],
        "counts the runs in which a process fails after one event",
        "examples/torn-commit.bakery",
    ),
    (
        "race",
        Engine::Race,
        InputMode::Whole,
        &[],
        "makes the calls of a scenario, each process on its thread",
        "examples/refusals.bakery",
    ),
    (
        "record",
        Engine::Record,
        InputMode::Whole,
        &[],
        "prints the record of a scenario's run, entry by entry",
        "examples/failed-read.bakery",
    ),
    (
        "state",
        Engine::State,
        InputMode::Whole,
        &["at"],
        "prints the state after the first events of a run or a record",
        "--at 820 examples/torn-commit.bakery",
    ),
    (
        "calls",
        Engine::Calls,
        InputMode::Whole,
        &[],
        "prints a table of the calls of a run, a record or a trace (CSV)",
        "examples/torn-commit.bakery",
    ),
    (
        "judge",
        Engine::Judge,
        InputMode::Streamed,
        &["any-lock", "why"],
        "judges a record of this lock or of any lock, or a trace",
        "examples/failed-read.record",
    ),
    (
        "draw",
        Engine::Draw,
        InputMode::Whole,
        &["reads", "judge", "any-lock", "accesses", "from", "to"],
        "draws a run, a record or a trace, as a page for a browser",
        "examples/torn-commit.bakery",
    ),
    (
        "draw-svg",
        Engine::DrawSvg,
        InputMode::Whole,
        &["reads", "judge", "any-lock", "accesses", "from", "to"],
        "draws the same as one SVG",
        "examples/torn-commit.bakery",
    ),
];

impl CommandEntry {
    /// Returns the entry of a row.
    pub fn of(row: &CommandRow) -> CommandEntry
        ensures { says result ≡ listed row.now }
    {
        let (name, engine, intake, options, about, example) = *row;
        CommandEntry {
            name,
            engine,
            intake,
            options,
            about,
            example,
            page: page_of(engine),
        }
    }
}

/// Writes two lines of the general page: what the command does, and an example.
impl Display for CommandEntry {
    fn fmt<W: fmt::Write>(&self, f: &mut Formatter<W>) -> fmt::Result {
        let CommandEntry {
            name,
            about,
            example,
            ..
        } = self;
        write!(
            f,
            "  {name:<8} {about}\n           $ bakerystore {name} {example}\n"
        )
    }
}

/// Returns the rows of the table. A function that names a constant of many texts takes long to prove, so others call this one.
pub fn command_rows() -> &'static [CommandRow]
    ensures { map listed result.now ≡ commands }
{
    &COMMANDS
}

/// Returns the first of some rows with this name.
fn first_named<'a>(rows: &'a [CommandRow], name: &str) -> Option<&'a CommandRow>
    ensures { option_map (λ e. e.now) result
        ≡ find (λ e. bytes_eq e.0.now name.now) rows.now }
{
    rows.iter().find(|row| row.0 == name)
}

/// Returns it by the entries of the rows.
fn first_listed<'a>(rows: &'a [CommandRow], name: &str) -> Option<&'a CommandRow>
    ensures { option_map (λ e. listed e.now) result
        ≡ find (λ e. bytes_eq e.name name.now) (map listed rows.now) }
{
    first_named(rows, name)
}

/// Returns the command of this name.
#[tactic(auto, unfolding(crate::specs::Meaning::command_named))]
pub fn command_named(name: &str) -> Option<CommandEntry>
    ensures { option_map says result ≡ command_named name.now }
{
    let row = first_listed(command_rows(), name)?;
    Some(CommandEntry::of(row))
}
