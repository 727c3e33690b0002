//! The text forms in which mailbox drivers keep a message.
//!
//! Each form stands on the lines of a text (RFC 5322, section 2.1): line ends become CRLF, fields that a
//! driver writes itself are dropped, and lines that would begin another message are quoted. A form applied
//! twice gives what it gives once. Stands on `text_lines` for lines and their ends, and on `mail_fields`
//! for delimiter lines (RFC 4155, appendix A).
#![tactic(auto)]

mod form;
mod header;
mod line_end;
mod line_form;
mod nul;
mod quote;
mod reserved;

pub use form::{lines_form, mmdf_form, unix_form};
pub use header::end_header;
pub use line_end::{end_last, keep_lines, store_lf};
pub use nul::clean_nul;
pub use quote::{quote_from, quote_mmdf};
pub use reserved::drop_reserved;
