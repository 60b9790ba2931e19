//! One name for the types that nest inside commands, replies and answers.
use crate::{Answer, Command, Name, Reply, Text, Value};

/// Names the types that nest inside a command, a reply or an answer. A function of another crate that takes
/// apart or passes a type with one of these inside has the line `let _nested: NestedTypes = None;`.
///
/// The check of a function finds a crate's types by the names in the function's text alone. It does not look
/// for types that occur only inside another one: "was not told which modules hold the type". To name them once
/// is enough. The line creates and keeps nothing.
pub type NestedTypes = Option<(Answer, Command, Name, Reply, Text, Value)>;
