//! The script of an input: its commands, read exactly or refused at the first bad line.
#![tactic(auto)]

mod cancels;
mod command;
mod commands;
mod error;
mod fields;
mod filters;
mod generator;
mod keep_alives;
mod kind;
mod lists;
mod names;
mod reindexes;
mod results;
mod script;
mod scrolls;
mod searches;
mod targets;
mod texts;

pub use command::{CancelTarget, Command, ContextTarget, Mode, Script, TaskTarget};
pub use error::ScriptError;
pub use generator::{generate, next_number};
pub use script::read_script;
