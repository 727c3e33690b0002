//! The small texts of a mix mailbox: its metadata, and its status with a record for each message.
//!
//! All lines end with CRLF. Stands on `mix_records` for texts of records, and on `mail_fields` for
//! numbers and keywords.
#![tactic(auto)]

mod line;
mod meta;
mod names;
mod status;

pub use meta::{Meta, put_meta, read_meta};
pub use status::{Status, put_status, read_status};
