//! The address list of a message's field (RFC 5322, section 3.4, and of its section 4.4 the routes).
//!
//! `addresses` reads an unfolded field body: first its tokens, where blanks and comments are skipped,
//! then their list. Comments and groups are counted, so no depth of them costs stack.
//! `comment_length`, `quotes_length` and `push_unquoted` read comments and quoted strings for other fields too.
//! Stands on `mail_fields` for bytes, and on `memchr` for the end of a domain literal.
#![tactic(auto)]

mod address;
mod element;
mod list;
mod mailbox;
mod mark;
mod piece;
mod span;
mod token;
mod word;

pub use address::Address;
pub use list::addresses;
pub use span::{comment_length, quotes_length};
pub use word::push_unquoted;
