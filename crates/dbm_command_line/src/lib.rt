//! What a command line asks for: the program's commands with their words and options, in the
//! parser's definitions, and the plan that is read from the words by them. The text of the
//! program's statuses and faults stands here too, since the help ends with it.
#![tactic(auto)]

mod arguments;
mod commands;
mod flags;
pub mod help_text;
pub mod names;
mod options;
mod plan;
mod seconds;
mod texts;
mod words;

pub use commands::command;
pub use help_text::{FAULT_TABLE, fault_table};
pub use names::USUAL_WAIT;
pub use plan::{Commits, Plan, Request, Source, Spelling, Upgrade, Version};
pub use seconds::seconds_in;
pub use words::{WordsError, read_words};
