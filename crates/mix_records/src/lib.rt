//! Records of mix files: fields between colons, and texts of records whose UIDs rise.
//!
//! The status, the index and the data files of a mix mailbox are made of records such as
//! `:00000001:00000000:0001:00000001:` CRLF. A crate of one of them says what its record is, and
//! finds here how a whole text of records is read and written. Stands on `mail_fields` for numbers and dates.
#![tactic(auto)]

mod field;
mod record;

pub use field::{
    put_date_field, put_hex_field, put_record_end, read_date_field, read_hex_field, read_record_end,
};
pub use record::{Record, put_records, read_records};
