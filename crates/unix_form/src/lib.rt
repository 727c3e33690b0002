//! The form of unix mailbox files (RFC 4155): which bytes say which contents, and what is written of a mailbox.
//!
//! Stands on `store_trait` for the laws of a form, on `status_heads` for status fields and the base of a mailbox, and on `text_forms` for texts.
#![tactic(auto)]
