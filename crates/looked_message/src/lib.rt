//! A message of a selected mailbox, as FETCH and SEARCH look at it (RFC 3501, section 2.3).
//!
//! `specs/Messages` says how a record of a mailbox is looked at.
//! Stands on `store_trait` for what a store tells of a message without its text.
#![tactic(auto)]

mod message;

pub use message::Looked;
