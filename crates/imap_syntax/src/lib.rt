//! The syntax of one whole command (RFC 3501, sections 6 and 9): its tag, its word and its arguments.
#![tactic(auto)]

mod argument;
mod command;
mod commands;
mod key;
mod leaf;
mod search;
mod verb;
mod whole;

pub use command::{Command, Mode};
pub use key::Key;
pub use search::read_keys;
pub use whole::{Meaning, meaning_of};
