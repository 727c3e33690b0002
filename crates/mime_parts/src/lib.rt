//! The parts of a message (RFC 2045, section 5, and RFC 2046, section 5.1).
//!
//! `structure` gives the tree of a text's parts: where each stands, and what its content fields say.
//! No text is refused. Multiparts and messages nest 50 deep; a deeper one is a leaf. `field_text` gives what one field of a
//! header says, for the crates that read other fields than those of content.
//! Stands on `head_fields` for headers, on `addr_list` for comments and quoted strings, on `text_lines`
//! for lines, on `mail_fields` for bytes, and on `sqlite_items` for parts that hold parts.
#![tactic(auto)]

mod content;
mod delimiter;
mod division;
mod header;
mod mark;
mod part;
mod skip;
mod tree;
mod value;
mod word;

pub use content::{Content, Disposition};
pub use header::field_text;
pub use part::{Inner, Part};
pub use tree::structure;
