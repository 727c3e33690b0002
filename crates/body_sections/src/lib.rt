//! What FETCH says of a message, and which of its bytes a section is (RFC 3501, sections 6.4.5 and 7.4.2).
//!
//! `item` writes one item of a message and `put_items` several; `spans` says where a section stands in a text.
//! `needed` says what of a message's text an item needs, and `part_head` what stands before an item that is a part of the text.
//! Stands on `mime_parts` for the parts of a message, on `structure_text` for envelopes and body structures, on
//! `head_fields` and `text_lines` for the fields of a header, and on `imap_reply` for flags and lists.
#![tactic(auto)]

mod flags;
mod items;
mod label;
mod literal;
mod needs;
mod numbers;
mod section;
mod value;

pub use items::{item, put_items};
pub use label::part_head;
pub use needs::{Need, needed};
pub use section::spans;
