//! The lines of a text and their ends (RFC 5322, section 2.1), which every text form stands on.
//!
//! A line feed ends a line. CR bytes right before it belong to the line end, as many as there are.
//! Stands on `memchr`, and on `bstr` for what the lines of a text are.
#![tactic(auto)]

mod blank;
mod line;

pub use blank::{is_blank, is_continuation};
pub use line::{is_empty_line, line_length, line_text};
