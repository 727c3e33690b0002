//! Fields that every mail format has: stamps, keywords, and lists of bytes and numbers.
//!
//! A stamp says when a message came. Its forms stand in a file each: the delimiter lines of a unix
//! file (RFC 4155, appendix A), the dates of IMAP (RFC 3501, section 9) and of mix files, and of
//! header fields (RFC 5322, section 3.3) the day. Keywords are those of RFC 3501, section 2.3.2.
//! Stands on `text_lines` for lines, on `memchr` for bytes, and on `jiff_core` for the days of the calendar.
#![tactic(auto)]

mod bytes;
mod calendar;
mod clock;
mod delimiter_line;
mod field_date;
mod from_date;
mod imap_date;
mod keyword;
mod mix_date;
mod names;
mod number;
mod search_date;
mod stamp;
mod text;
mod utc;

pub use bytes::{ByteStrings, Bytes, Numbers, Parameters, Places};
pub use delimiter_line::{is_delimiter_line, read_from_date};
pub use field_date::read_field_date;
pub use from_date::put_from_date;
pub use imap_date::{put_imap_date, read_imap_date};
pub use keyword::{Keyword, Keywords};
pub use mix_date::{put_mix_date, read_mix_date};
pub use names::{is_taken, split_at_space};
pub use number::{put_decimal, put_hex, put_octal, read_decimal, read_hex, read_octal};
pub use search_date::read_search_date;
pub use stamp::Stamp;
pub use utc::{stamp_of, to_utc};
