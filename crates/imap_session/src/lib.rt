//! The session of an IMAP server (RFC 3501, section 3): what each command changes, and what is said to it.
//!
//! `specs/State.antt` says what a session stands for and `specs/Step.antt` what each unit of a client leads to, each command in a file
//! of its own beside them. A command's code is in `commands`, in the order of its definition: the tests, the one change of the
//! files (`commit`), and then the lines, which go out in pieces.
#![tactic(auto)]

mod adding;
mod answering;
mod asking;
pub mod commands;
mod commit;
mod counts;
mod infos;
mod keywords;
mod lines;
mod listing;
mod named;
mod opening;
mod reading;
mod refusal;
mod session;
mod told;
mod uids;
mod unit;

pub use refusal::{Refusal, ends_with};
pub use session::{Fresh, Open, Root, Session};
pub use unit::Server;
