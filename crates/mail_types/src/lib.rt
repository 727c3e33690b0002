//! The abstract mailbox: records, mailboxes, and what each of the seven drivers declares to keep.
//!
//! A mailbox has a UIDVALIDITY, the highest UID that it gave, keyword names and messages by rising UID
//! (RFC 3501, section 2.3.1.1), and modification numbers where its driver has them (RFC 7162, section 3.1). `specs/` says what the files of a store hold, which mailbox is opened from
//! them, what a change makes of a mailbox, and what is then written back. The code limits a message to
//! what a driver declares, and numbers messages that were read. Stands on `mail_fields` for stamps,
//! keywords and bytes, and on `text_forms` for the forms of texts.
#![tactic(auto)]

mod contents;
mod driver;
mod flags;
mod keeping;
mod limits;
mod mailbox;
mod message;
mod opening;
mod uids;

pub use contents::{Placing, StoreContents};
pub use driver::{DateKeep, Driver, Keeps, Limit, TextKeep, keeps_of};
pub use flags::Flags;
pub use keeping::{kept, take, text_in_form};
pub use limits::{FILE_LIMIT, GREATEST_GIVEN, NUMBER_LIMIT, RECORD_LIMIT, TEXT_LIMIT, WORD_LIMIT};
pub use mailbox::Mailbox;
pub use message::{FlagChange, FlagChanges, NewMessage, NewMessages, Record, Records};
pub use opening::opened;
pub use uids::{Numbering, number_uids};
