//! The status fields of unix and mmdf messages, the base of a mailbox, and the message that holds it.
//!
//! Stands on `head_fields` for fields and their values, on `mail_fields` for numbers and keywords, and
//! on `mail_types` for flags.
#![tactic(auto)]

mod base;
mod delimiter;
mod head_text;
mod heads;
mod names;
mod number;
mod numbered;
mod pseudo;
mod value;

pub use base::{Base, read_base};
pub use delimiter::put_delimiter;
pub use head_text::{fields_bytes, put_heads};
pub use heads::{Heads, read_heads};
pub use numbered::{NumberedHeads, read_numbered_heads};
pub use pseudo::{pseudo_bytes, put_pseudo};
