//! The meaning of the program's arguments.
ghost use Rattle.std.specs.Prelude.{◌≡◌, ◌⊎◌, IfErr, IfOk, None, Some, [], codes, map, option_map, true};
ghost use Rattle.clap.specs.Words.{HasKind, fault_of, first_of, found_of, kind_of, rows_of, subcommand_rows_of, takes};
ghost use Rattle.std.specs.String.{string_bytes};
ghost use Rattle.command_line.specs.Meaning.{RunsEachFile, asked_by, asked_of, asked_of_command, asked_of_file, asked_of_help, asked_of_none, bakery, has_flag, meaning, says};

use crate::commands::{CommandEntry, command_named};
use crate::notices::{Notice, no_such_page, no_text, reported, shown_error};
use crate::pages::HelpPage;
use crate::program::matched;
use clap::error::ErrorKind;
use clap::{ArgMatches, Error};
use std::alloc::{AllocError, Global};
use std::env::{self, Env};
use std::io;

/// A command, and the file that it is to run.
#[derive(Clone, Copy)]
pub struct Request<'a> {
    pub command: CommandEntry,
    /// The path of the file; `-` is standard input.
    pub file: &'a str,
    /// Whether the picture shows the reads that writes overlapped.
    pub reads: bool,
    /// Whether the picture of a record ends with the verdict on it.
    pub judge: bool,
    /// Whether a record of any lock is judged, by its bits, calls and critical section.
    pub any_lock: bool,
    /// Whether the picture shows all accesses, also that of a run, or of a file with more than 400 entries.
    pub accesses: bool,
    /// Whether a bad verdict has reasons.
    pub why: bool,
    /// The number of events after which the state is printed, as the argument spells it.
    pub at: Option<&'a str>,
    /// The number of the first entry that the picture shows, as the argument spells it.
    pub from: Option<&'a str>,
    /// The number of the last entry that the picture shows, as the argument spells it.
    pub to: Option<&'a str>,
    /// Whether the place of a fault is printed, and what was expected there.
    pub explain: bool,
    /// Whether no progress is shown.
    pub quiet: bool,
}

/// The request that the arguments make.
#[derive(Clone, Copy)]
pub enum Invocation<'a> {
    /// A command runs a file.
    Run(Request<'a>),
    /// A page is printed.
    Report(HelpPage),
}

/// Returns the program's words, of which the first is its own name.
pub fn all_words<T: Env + AllocGlobal>(rt: &T) -> Result<Vec<String>, Notice> {
    Ok(given_words(rt)?)
}

/// Returns the words, or the error of words that cannot be read.
fn given_words<T: Env + AllocGlobal>(rt: &T) -> Result<Vec<String>, Error> {
    let arguments = match env::args(rt) {
        Ok(arguments) => arguments,
        Err(error) if error.kind() == io::ErrorKind::OutOfMemory => return Err(AllocError.into()),
        Err(_) => return Err(reported(no_text(rt.alloc()))),
    };
    let mut words = Vec::new(rt.alloc());
    for word in arguments {
        words.push(word)?;
    }
    Ok(words)
}

/// Returns what the words ask for. The first word is the program's own name. Otherwise returns a notice: the refusal of `clap`,
/// its help or the version, the lack of a page with the name that the words give, or an allocation failure.
pub fn read_words<'a>(alloc: Global, words: &'a [String]) -> Result<Invocation<'a>, Notice>
    ensures means { IfOk result (λ a. meaning (map string_bytes words.now) ≡ Some (asked_by a)) }
    ensures faultless { IfOk result (λ _. fault_of bakery (map string_bytes words.now) ≡ []) }
    ensures memory { IfErr result (λ n. takes bakery (map string_bytes words.now) ≡ true
        → (a : _) → meaning (map string_bytes words.now) ≡ Some a
        → kind_of n.error ≡ ErrorKind.OutOfMemory) }
    ensures kinds { IfErr result
        (λ n. HasKind (fault_of bakery (map string_bytes words.now)) n.error
        ⊎ (meaning (map string_bytes words.now) ≡ None)) }
{
    Ok(parse(alloc, words)?)
}

/// Returns what the words ask for, or the error of words that ask for no run.
fn parse<'a>(alloc: Global, words: &'a [String]) -> Result<Invocation<'a>, Error>
    ensures means { IfOk result (λ a. meaning (map string_bytes words.now) ≡ Some (asked_by a)) }
    ensures faultless { IfOk result (λ _. fault_of bakery (map string_bytes words.now) ≡ []) }
    ensures memory { IfErr result (λ e. takes bakery (map string_bytes words.now) ≡ true
        → (a : _) → meaning (map string_bytes words.now) ≡ Some a
        → kind_of e ≡ ErrorKind.OutOfMemory) }
    ensures kinds { IfErr result (λ e. HasKind (fault_of bakery (map string_bytes words.now)) e
        ⊎ (meaning (map string_bytes words.now) ≡ None)) }
{
    match matched(alloc, words) {
        Ok(matches) => match asked_of(&matches) {
            Some(asked) => Ok(asked),
            None => Err(reported(no_such_page(alloc, page_asked_for(&matches)))),
        },
        Err(error) => Err(reported(shown_error(alloc, words, error))),
    }
}

/// Returns the word after `help`.
fn page_asked_for<'a>(matches: &ArgMatches<'a>) -> &'a str {
    match matches.subcommand() {
        Some((_, own)) => text_of(own, "PAGE").unwrap_or(""),
        None => "",
    }
}

/// Returns what the matches ask for.
fn asked_of<'a>(matches: &ArgMatches<'a>) -> Option<Invocation<'a>>
    ensures { option_map asked_by result
        ≡ asked_of (rows_of (found_of matches.now)) (subcommand_rows_of matches.now) }
{
    let quiet = is_set(matches, "quiet");
    let Some((name, own)) = matches.subcommand() else {
        return asked_of_none(quiet);
    };
    asked_of_command(quiet, name, own)
}

/// Returns what words ask for that name no command.
fn asked_of_none<'a>(quiet: bool) -> Option<Invocation<'a>>
    ensures { option_map asked_by result ≡ asked_of_none quiet }
{
    Some(Invocation::Run(Request {
        command: command_named("plain")?,
        file: "-",
        reads: false,
        judge: false,
        any_lock: false,
        accesses: false,
        why: false,
        at: None,
        from: None,
        to: None,
        explain: false,
        quiet,
    }))
}

/// Returns what a command and its matches ask for.
fn asked_of_command<'a>(quiet: bool, name: &str, own: &ArgMatches<'a>) -> Option<Invocation<'a>>
    ensures { option_map asked_by result
        ≡ asked_of_command quiet name.now (rows_of (found_of own.now)) }
{
    if name == "help" {
        return asked_of_help(own);
    }
    asked_to_run(quiet, command_named(name)?, own)
}

/// Returns what a command that runs a file and its matches ask for.
fn asked_to_run<'a>(
    quiet: bool,
    command: CommandEntry,
    own: &ArgMatches<'a>,
) -> Option<Invocation<'a>>
    ensures { option_map asked_by result
        ≡ option_map (asked_of_file quiet (says command) (rows_of (found_of own.now)))
        (first_of (codes "FILE") (rows_of (found_of own.now))) }
{
    let file = text_of(own, "FILE")?;
    Some(Invocation::Run(request_of(quiet, command, own, file)))
}

/// Returns what `help` and its matches ask for.
fn asked_of_help<'a>(own: &ArgMatches<'a>) -> Option<Invocation<'a>>
    ensures { option_map asked_by result
        ≡ asked_of_help (first_of (codes "PAGE") (rows_of (found_of own.now))) }
{
    match text_of(own, "PAGE") {
        None => Some(Invocation::Report(HelpPage::Words)),
        Some(name) => Some(Invocation::Report(HelpPage::named(name)?)),
    }
}

/// Returns the request that a command runs a file, with the options among its matches.
fn request_of<'a>(
    quiet: bool,
    command: CommandEntry,
    own: &ArgMatches<'a>,
    file: &'a str,
) -> Request<'a>
    ensures { asked_by (Invocation.Run result)
        ≡ asked_of_file quiet (says command) (rows_of (found_of own.now)) file.now }
{
    Request {
        command,
        file,
        reads: is_set(own, "reads"),
        judge: is_set(own, "judge"),
        any_lock: is_set(own, "any-lock"),
        accesses: is_set(own, "accesses"),
        why: is_set(own, "why"),
        at: text_of(own, "at"),
        from: text_of(own, "from"),
        to: text_of(own, "to"),
        explain: is_set(own, "explain"),
        quiet: quiet | is_set(own, "quiet"),
    }
}

/// Returns the text of an argument.
fn text_of<'a>(matches: &ArgMatches<'a>, id: &str) -> Option<&'a str>
    ensures { option_map (λ s. s.now) result ≡ first_of id.now (rows_of (found_of matches.now)) }
{
    matches.get_str(id)
}

/// Returns whether the words have the flag.
fn is_set(matches: &ArgMatches<'_>, id: &str) -> bool
    ensures { result ≡ has_flag id.now (rows_of (found_of matches.now)) }
{
    match text_of(matches, id) {
        Some(text) => text == "true",
        None => false,
    }
}

/// Each command of the table runs each file whose path begins with no hyphen.
pub fn each_file_runs()
    ensures { RunsEachFile }
{}
