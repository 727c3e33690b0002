//! Which messages a search key matches, and what of a message that takes (RFC 3501, section 6.4.4).
//!
//! `told_of` answers without the text of a message where it can, `need_of` says how much of the text the rest
//! takes, and `matches` answers over it.
//! Stands on `imap_syntax` for keys, on `looked_message` for messages, on `head_fields` and `mime_parts` for the
//! fields of a header, on `mail_fields` for their dates, and on `text_search` for strings in a text.
#![tactic(auto)]

mod holds;
mod keyword;
mod largest;
mod need;
mod text;
mod told;

pub use holds::matches;
pub use largest::Largest;
pub use need::{KeyNeed, need_of};
pub use told::told_of;
