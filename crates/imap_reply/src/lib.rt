//! The replies of an IMAP server (RFC 3501, section 7): each value of `Reply` is one line.
//!
//! `specs/Replies.antt` says which bytes each line has.
#![tactic(auto)]

mod buffer;
mod line;
mod list;
mod parts;
mod piece;
mod put;
mod reply;
mod short;
mod sink;
mod text;

pub use buffer::ReplyBuffer;
pub use list::put_reply;
pub use parts::{Counts, ItemTexts};
pub use reply::Reply;
pub use short::put_short;
pub use sink::Sink;
pub use text::{NoText, Words};
