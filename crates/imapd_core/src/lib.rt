//! The call that serves the mailboxes of a directory to one client by IMAP (RFC 3501).
//!
//! `opening` makes INBOX before the greeting, and `server` has the call that the program makes, with the main theorem.
//! `specs/Runs.antt` says which runs a call may be, and `specs/Promises.antt` what each of its clauses promises.
#![tactic(auto)]

mod opening;
mod server;

pub use server::{Status, imapd};
