//! The head of a record in mtx and tenex files: a date, a size and the bits of keywords and flags.
//!
//! Both formats have the same head, but for its line end: CRLF in mtx, LF in tenex. Stands on
//! `mail_fields` for dates and numbers, on `memchr` to find the size's end, and on `itoa` to write it.
#![tactic(auto)]

mod head;
mod marks;

pub use head::{Octal, put_octal_head, read_octal_head};
