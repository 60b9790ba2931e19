//! The command line of the program: its arguments and help pages, the kind of file that it is given, and how it writes to a
//! terminal.
#![tactic(auto)]

mod causes;
mod command_pages;
mod commands;
mod entry_ranges;
mod first_word;
mod fronts;
mod help;
mod notices;
mod opened;
mod pages;
mod program;
mod progress;
mod recognized;
mod retries;
mod terminal;
mod words;

pub use causes::{NotedReader, NotedWriter, reason_of};
pub use commands::{CommandEntry, Engine, InputMode};
pub use entry_ranges::{EntryRange, RangeFault, entries_asked};
pub use files::{Fault, FromRead, IntoWrite, LineFault, Sink, Source, exit_status};
pub use first_word::FirstWord;
pub use fronts::FrontSink;
pub use notices::{Notice, USAGE_STATUS, shown_word};
pub use opened::SniffedSource;
pub use pages::HelpPage;
pub use progress::{CountedInput, ProgressPrinter};
pub use recognized::{
    records_are_recognized, scenarios_have_another_first_word, traces_are_recognized,
};
pub use retries::Uninterrupted;
pub use terminal::{Output, Terminals};
pub use words::{Invocation, Request, all_words, each_file_runs, read_words};
