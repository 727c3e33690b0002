//! What an IMAP client is told of a message's structure: its envelope and its body structure (RFC 3501, section 7.4.2).
//!
//! `envelope` writes what a header says of a message, `body` the tree of its parts, with extension data or without.
//! The writers of strings and numbers, and `slice_of`, are there for the crates that write other items of a message.
//! Stands on `mime_parts` for the parts, on `addr_list` for addresses, on `head_fields` for the fields of a
//! header, on `mail_fields` for bytes, and on `itoa` for numbers.
#![tactic(auto)]

mod address;
mod bodies;
mod content;
mod envelopes;
mod header;
mod span;
mod string;

pub use bodies::body;
pub use envelopes::envelope;
pub use span::slice_of;
pub use string::{put_literal, put_number, put_quoted, put_string};
