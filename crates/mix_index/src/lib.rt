//! The index of a mix mailbox: where the text of each message stands.
//!
//! A record has 77 bytes, `:uid:date:size:file:place:headsize:fieldsize:` CRLF, and the UIDs rise.
//! Stands on `mix_records` for texts of records, and on `mail_fields` for stamps.
#![tactic(auto)]

mod entry;

pub use entry::{Entry, put_index, read_index};
