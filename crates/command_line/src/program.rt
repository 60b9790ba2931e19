//! The program's command line, as `clap` reads it. Its help texts are names of pages, which `Notice` prints.
ghost use Rattle.std.specs.Prelude.{◌≡◌, IfErr, IfOk, IsOkAnd, [], false, fold, map, true};
ghost use Rattle.clap.specs.declared.builder.command.Command.TheViews.{out-Command};
ghost use Rattle.clap.specs.Words.{AddsSubcommand, HasKind, app_of, fault_of, found_of, kind_of, matches_of, new_app, subcommand_of, rows_of, rule_of, subcommand_rows_of, takes, with_rule, with_subcommand};
ghost use Rattle.std.specs.String.{string_bytes};
ghost use Rattle.command_line.specs.Meaning.{bakery, bare_app, command_app, flag_rule, help_app, option_rule, plain_app, says, with_option, with_row};

use crate::commands::{CommandEntry, CommandRow, command_rows};
use crate::help::VERSION;
use clap::error::ErrorKind;
use clap::{Arg, ArgAction, ArgMatches, Command, Error};
use std::alloc::{AllocError, Global};

/// Returns the matches of the words, of which the first is the program's own name.
pub fn matched<'a>(alloc: Global, words: &'a [String]) -> Result<ArgMatches<'a>, Error>
    ensures rows { IfOk result (λ m. rows_of (found_of m)
        ≡ matches_of bakery (map string_bytes words.now)) }
    ensures command { IfOk result (λ m. subcommand_rows_of m
        ≡ subcommand_of bakery (map string_bytes words.now)) }
    ensures faultless { IfOk result (λ _. fault_of bakery (map string_bytes words.now) ≡ []) }
    ensures memory { IfErr result (λ e. takes bakery (map string_bytes words.now) ≡ true
        → kind_of e ≡ ErrorKind.OutOfMemory) }
    ensures kinds { IfErr result (HasKind (fault_of bakery (map string_bytes words.now))) }
{
    let command = program(alloc)?;
    command.try_get_matches_from(words)
}

/// Returns the program's command line.
pub fn program<'a>(alloc: Global) -> Result<Command<'a>, AllocError>
    ensures shape { IfOk result (λ c. app_of c ≡ bakery) }
{
    with_help(
        alloc,
        with_commands(alloc, bare_program(alloc)?, command_rows())?,
    )
}

/// Returns the program without its commands.
fn bare_program<'a>(alloc: Global) -> Result<Command<'a>, AllocError>
    ensures shape { IfOk result (λ c. app_of c ≡ bare_app) }
    ensures local { IfOk result (λ c. (out-Command c).has_globals ≡ false) }
{
    Command::new(alloc, "bakerystore")
        .bin_name("bakerystore")?
        .disable_help_subcommand(true)
        .version(VERSION)
        .override_help("help")
        .arg(flag(alloc, "quiet"))
}

/// Returns the program with the commands of these rows.
fn with_commands<'a>(
    alloc: Global,
    program: Command<'a>,
    rows: &[CommandRow],
) -> Result<Command<'a>, AllocError>
    ensures shape { IfOk result (λ c. app_of c ≡ fold with_row (app_of program.entry) rows.now) }
{
    let mut program = program;
    for row in rows {
        program = with_row(alloc, program, row)?;
    }
    Ok(program)
}

/// Returns the program with one more command, which runs a file.
fn with_row<'a>(
    alloc: Global,
    program: Command<'a>,
    row: &CommandRow,
) -> Result<Command<'a>, AllocError>
    ensures shape { IfOk result (λ c. app_of c ≡ with_row (app_of program.entry) row.now) }
{
    with_command(program, file_command(alloc, CommandEntry::of(row)))
}

/// Returns the program with the command `help`.
fn with_help<'a>(alloc: Global, program: Command<'a>) -> Result<Command<'a>, AllocError>
    ensures shape { IfOk result (λ c. app_of c
        ≡ with_subcommand (app_of program.entry) help_app.top) }
{
    with_command(program, help(alloc))
}

/// Returns the program with one more command, if that could be allocated.
fn with_command<'a>(
    program: Command<'a>,
    command: Result<Command<'a>, AllocError>,
) -> Result<Command<'a>, AllocError>
    ensures { IfOk result (λ c. IsOkAnd command.entry (λ own. AddsSubcommand program.entry own c)) }
{
    match command {
        Ok(command) => program.subcommand(command),
        Err(error) => Err(error),
    }
}

/// Returns a command that runs a file.
///
/// # Errors
///
/// Returns [`AllocError`] if an allocation fails.
pub fn file_command<'a>(alloc: Global, entry: CommandEntry) -> Result<Command<'a>, AllocError>
    ensures shape { IfOk result (λ c. app_of c ≡ command_app (says entry)) }
    ensures local { IfOk result (λ c. (out-Command c).has_globals ≡ false) }
{
    with_options(alloc, plain_command(alloc, entry.name)?, entry.options)
}

/// Returns a command that runs a file, without options of its own.
fn plain_command<'a>(alloc: Global, name: &'static str) -> Result<Command<'a>, AllocError>
    ensures shape { IfOk result (λ c. app_of c ≡ plain_app name.now) }
    ensures local { IfOk result (λ c. (out-Command c).has_globals ≡ false) }
{
    let file = Arg::new(alloc, "FILE").required(true);
    with_options(alloc, taking(alloc, name, file)?, &["quiet", "explain"])
}

/// Returns a command with an argument, whose help is the page of its name.
fn taking<'a>(
    alloc: Global,
    name: &'static str,
    argument: Arg<'a>,
) -> Result<Command<'a>, AllocError>
    requires local { argument.global ≡ false }
    ensures shape { IfOk result (λ c. app_of c
        ≡ with_rule (new_app name.now) (rule_of argument.entry)) }
    ensures local { IfOk result (λ c. (out-Command c).has_globals ≡ false) }
{
    Command::new(alloc, name).override_help(name).arg(argument)
}

/// Returns a command with these options.
fn with_options<'a>(
    alloc: Global,
    command: Command<'a>,
    names: &'static [&'static str],
) -> Result<Command<'a>, AllocError>
    requires local { (out-Command command).has_globals ≡ false }
    ensures shape { IfOk result (λ c. app_of c
        ≡ fold (λ a name. with_option a name.now) (app_of command.entry) names.now) }
    ensures local { IfOk result (λ c. (out-Command c).has_globals ≡ false) }
{
    let mut command = command;
    for name in names {
        command = command.arg(option(alloc, name))?;
    }
    Ok(command)
}

/// Returns the command `help`, whose argument is the name of a page.
fn help<'a>(alloc: Global) -> Result<Command<'a>, AllocError>
    ensures shape { IfOk result (λ c. app_of c ≡ help_app) }
    ensures local { IfOk result (λ c. (out-Command c).has_globals ≡ false) }
{
    let command = taking(alloc, "help", Arg::new(alloc, "PAGE"))?;
    with_options(alloc, command, &["quiet"])
}

/// Returns an option of a command: `at`, `from` and `to` have a value.
fn option<'a>(alloc: Global, name: &'a str) -> Arg<'a>
    ensures rule { rule_of result ≡ option_rule name.now }
    ensures local { result.global ≡ false }
{
    if name == "at" || name == "from" || name == "to" {
        Arg::new(alloc, name).long(name)
    } else {
        flag(alloc, name)
    }
}

/// Returns an option without a value.
fn flag<'a>(alloc: Global, name: &'a str) -> Arg<'a>
    ensures rule { rule_of result ≡ flag_rule name.now }
    ensures local { result.global ≡ false }
{
    Arg::new(alloc, name).long(name).action(ArgAction::SetTrue)
}
